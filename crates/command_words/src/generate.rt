//! The command `generate`.
ghost use Rattle.std.specs.Prelude.{◌≡◌, ◌∷◌, [], IfOk, Err, codes, length};
ghost use Rattle.command_words.specs.Words.{IsCommand, IsUsage};
ghost use Rattle.command_words.specs.inside.Split.{IsGenerateOf, texts};

use crate::apart::are_apart;
use crate::command::{Command, WordsError};
use crate::file_name::FileName;
use crate::number::{number_of, side_of};
use crate::settings::option_values;
use crate::table::GENERATE;
use std::alloc::{AllocError, Global};

/// The command `generate` of a number, a side, and the values of its options.
fn generate_of(
    alloc: Global,
    number: u64,
    side: u32,
    values: &[&str],
) -> Result<Command, AllocError>
    requires { length values.now ≡ 7 }
    ensures { IfOk result (IsGenerateOf (texts values.now) number side) }
{
    Ok(Command::Generate {
        number,
        side,
        lef: FileName::new(alloc, values[2])?,
        cells: FileName::new(alloc, values[3])?,
        def: FileName::new(alloc, values[4])?,
        pdn: FileName::new(alloc, values[5])?,
        bias: FileName::new(alloc, values[6])?,
    })
}

/// The command `generate` over the words after its name.
pub(crate) fn generate(alloc: Global, words: &[&str]) -> Result<Command, WordsError>
    ensures command { IfOk result (IsCommand (codes "generate" ∷ texts words.now)) }
    ensures usage { result ≡ Err WordsError.Usage → IsUsage (codes "generate" ∷ texts words.now) }
{
    let values = match option_values(alloc, &GENERATE, words) {
        Ok(values) => values,
        Err(error) => return Err(error),
    };
    let all = values.as_slice();
    let Some(number) = number_of(all[0]) else {
        return Err(WordsError::Usage);
    };
    let Some(side) = side_of(all[1]) else {
        return Err(WordsError::Usage);
    };
    if !are_apart(&all[2..]) {
        return Err(WordsError::Usage);
    }
    match generate_of(alloc, number, side, all) {
        Ok(command) => Ok(command),
        Err(_) => Err(WordsError::Want),
    }
}
