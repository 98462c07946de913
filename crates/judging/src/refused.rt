//! The answers to texts that are refused.
ghost use Rattle.std.specs.Prelude.{◌≡◌, ◌⊎◌};
ghost use Rattle.answers.specs.declared.answer.Answer.TheVariants.{Want, Refused};
ghost use Rattle.judging.specs.Judging.{network_answer, netlist_answer, certificate_answer};
ghost use Rattle.judging.specs.inside.Lists.{merge_answer};

use answers::{Answer, TextKind};
use certificate_file::{CertError, CertKind};
use outside::{Name, Place};
use short_merge::MergeError;
use spice_grid::{NetRefusal, SpiceError, SpiceKind};
use std::alloc::Global;

/// The answer to a text that is refused at a word.
fn refused(alloc: Global, file: &str, place: Place, kind: TextKind) -> Answer
    ensures { (result ≡ Want) ⊎ (result ≡ Refused file.now place kind) }
{
    match Name::new(alloc, file.as_bytes()) {
        Ok(file) => Answer::Refused { file, place, kind },
        Err(_) => Answer::Want,
    }
}

/// The answer to a network that is refused.
fn network_refused(refusal: NetRefusal) -> Answer
    ensures { result ≡ network_answer refusal }
{
    match refusal {
        NetRefusal::Range {
            quantity,
            at,
            number,
        } => Answer::Range {
            quantity,
            at,
            number,
        },
        NetRefusal::PadConflict {
            node,
            first,
            second,
        } => Answer::PadConflict {
            node,
            first,
            second,
        },
    }
}

/// The answer to a netlist that is refused.
pub(crate) fn netlist_refused(alloc: Global, file: &str, error: SpiceError) -> Answer
    ensures { (result ≡ Want) ⊎ (result ≡ netlist_answer file.now error.place error.kind) }
{
    let SpiceError { place, kind } = error;
    match kind {
        SpiceKind::Syntax => refused(alloc, file, place, TextKind::Syntax),
        SpiceKind::OutOfProfileCard => refused(alloc, file, place, TextKind::OutOfProfileCard),
        SpiceKind::FloatingSource => refused(alloc, file, place, TextKind::FloatingSource),
        SpiceKind::Number(error) => refused(alloc, file, place, TextKind::Number(error)),
        SpiceKind::OutOfRange => refused(alloc, file, place, TextKind::OutOfRange),
        SpiceKind::Net(refusal) => network_refused(refusal),
        SpiceKind::Want => Answer::Want,
    }
}

/// The answer to a merge that is refused.
pub(crate) fn merge_refused(error: MergeError) -> Answer
    ensures { result ≡ merge_answer error }
{
    match error {
        MergeError::PadConflict {
            name,
            first,
            second,
        } => Answer::PadConflict {
            node: name,
            first,
            second,
        },
        MergeError::Want => Answer::Want,
    }
}

/// The answer to a certificate that is refused.
pub(crate) fn certificate_refused(alloc: Global, file: &str, error: CertError) -> Answer
    ensures { (result ≡ Want) ⊎ (result ≡ certificate_answer file.now error.place error.kind) }
{
    let place = error.place;
    match error.kind {
        CertKind::Syntax => refused(alloc, file, place, TextKind::Syntax),
        CertKind::WrongNode => refused(alloc, file, place, TextKind::WrongNode),
        CertKind::Number(error) => refused(alloc, file, place, TextKind::Number(error)),
        CertKind::Want => Answer::Want,
    }
}
