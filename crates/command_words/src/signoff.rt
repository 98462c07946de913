//! The command `signoff`.
ghost use Rattle.std.specs.Prelude.{◌≡◌, ◌∷◌, [], IfOk, Err, codes, length};
ghost use Rattle.command_words.specs.Words.{IsCommand, IsUsage};
ghost use Rattle.command_words.specs.inside.Split.{IsSignoffOf, texts};

use crate::apart::are_apart;
use crate::command::{Command, WordsError};
use crate::file_name::FileName;
use crate::settings::option_values;
use crate::table::SIGNOFF;
use std::alloc::{AllocError, Global};

/// The command `signoff` of the values of its options.
fn signoff_of(alloc: Global, values: &[&str]) -> Result<Command, AllocError>
    requires { length values.now ≡ 8 }
    ensures { IfOk result (IsSignoffOf (texts values.now)) }
{
    Ok(Command::Signoff {
        lef: FileName::new(alloc, values[0])?,
        cells: FileName::new(alloc, values[1])?,
        def: FileName::new(alloc, values[2])?,
        wires: FileName::new(alloc, values[3])?,
        bias: FileName::new(alloc, values[4])?,
        netlist: FileName::new(alloc, values[5])?,
        certificate: FileName::new(alloc, values[6])?,
        report: FileName::new(alloc, values[7])?,
    })
}

/// The command `signoff` over the words after its name.
pub(crate) fn signoff(alloc: Global, words: &[&str]) -> Result<Command, WordsError>
    ensures command { IfOk result (IsCommand (codes "signoff" ∷ texts words.now)) }
    ensures usage { result ≡ Err WordsError.Usage → IsUsage (codes "signoff" ∷ texts words.now) }
{
    let values = match option_values(alloc, &SIGNOFF, words) {
        Ok(values) => values,
        Err(error) => return Err(error),
    };
    if !are_apart(&values[5..]) {
        return Err(WordsError::Usage);
    }
    match signoff_of(alloc, &values) {
        Ok(command) => Ok(command),
        Err(_) => Err(WordsError::Want),
    }
}
