//! The command `build`.
ghost use Rattle.std.specs.Prelude.{◌≡◌, ◌∷◌, [], IfOk, Err, codes, length};
ghost use Rattle.command_words.specs.Words.{IsCommand, IsUsage};
ghost use Rattle.command_words.specs.inside.Split.{IsBuildOf, texts};

use crate::apart::are_apart;
use crate::command::{Command, WordsError};
use crate::file_name::FileName;
use crate::settings::option_values;
use crate::table::BUILD;
use std::alloc::{AllocError, Global};

/// The command `build` of the values of its options.
fn build_of(alloc: Global, values: &[&str]) -> Result<Command, AllocError>
    requires { length values.now ≡ 9 }
    ensures { IfOk result (IsBuildOf (texts values.now)) }
{
    Ok(Command::Build {
        lef: FileName::new(alloc, values[0])?,
        cells: FileName::new(alloc, values[1])?,
        def: FileName::new(alloc, values[2])?,
        pdn: FileName::new(alloc, values[3])?,
        bias: FileName::new(alloc, values[4])?,
        out_def: FileName::new(alloc, values[5])?,
        netlist: FileName::new(alloc, values[6])?,
        certificate: FileName::new(alloc, values[7])?,
        report: FileName::new(alloc, values[8])?,
    })
}

/// The command `build` over the words after its name.
pub(crate) fn build(alloc: Global, words: &[&str]) -> Result<Command, WordsError>
    ensures command { IfOk result (IsCommand (codes "build" ∷ texts words.now)) }
    ensures usage { result ≡ Err WordsError.Usage → IsUsage (codes "build" ∷ texts words.now) }
{
    let values = match option_values(alloc, &BUILD, words) {
        Ok(values) => values,
        Err(error) => return Err(error),
    };
    if !are_apart(&values[5..]) {
        return Err(WordsError::Usage);
    }
    match build_of(alloc, &values) {
        Ok(command) => Ok(command),
        Err(_) => Err(WordsError::Want),
    }
}
