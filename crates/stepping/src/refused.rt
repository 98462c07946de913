//! The answers to texts and networks that are refused.
ghost use Rattle.std.specs.Prelude.{◌≡◌, ◌⊎◌, ◌<◌, ℕ, List, Some, length, slice_get};
ghost use Rattle.answers.specs.declared.answer.Answer.TheVariants.{Want, Refused, FloatingCapacitor};
ghost use Rattle.stepping.specs.Refusal.{waves_answer};

use answers::{Answer, TextKind};
use outside::{Name, Place};
use std::alloc::Global;
use wave_file::{WavesError, WavesKind};

/// The answer to a text that is refused at a word.
fn refused(alloc: Global, file: &str, place: Place, kind: TextKind) -> Answer
    ensures { (result ≡ Want) ⊎ (result ≡ Refused file.now place kind) }
{
    match Name::new(alloc, file.as_bytes()) {
        Ok(file) => Answer::Refused { file, place, kind },
        Err(_) => Answer::Want,
    }
}

/// The answer to a wave file that is refused.
pub(crate) fn waves_refused(alloc: Global, file: &str, error: WavesError) -> Answer
    ensures { (result ≡ Want) ⊎ (result ≡ waves_answer file.now error.place error.kind) }
{
    let place = error.place;
    match error.kind {
        WavesKind::Syntax => refused(alloc, file, place, TextKind::Syntax),
        WavesKind::Number(error) => refused(alloc, file, place, TextKind::Number(error)),
        WavesKind::UnknownNode => refused(alloc, file, place, TextKind::UnknownNode),
        WavesKind::Twice => refused(alloc, file, place, TextKind::Twice),
        WavesKind::Falling => refused(alloc, file, place, TextKind::Falling),
        WavesKind::Want => Answer::Want,
    }
}

/// The answer to a capacitor that floats: the name of the node by which it is told.
pub(crate) fn floating(alloc: Global, names: &[Name], node: u32) -> Answer
    requires { node < length names.now }
    ensures { (result ≡ Want)
        ⊎ ((name : List ℕ) × (slice_get names.now node ≡ Some name) × (result ≡ FloatingCapacitor name)) }
{
    match Name::new(alloc, names[node as usize].bytes()) {
        Ok(name) => Answer::FloatingCapacitor(name),
        Err(_) => Answer::Want,
    }
}
