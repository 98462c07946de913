//! The commands of few options.
ghost use Rattle.std.specs.Prelude.{◌≡◌, ◌∷◌, [], IfOk, Err, codes, length};
ghost use Rattle.command_words.specs.Words.{IsCommand, IsUsage};
ghost use Rattle.command_words.specs.inside.Split.{IsSolveOf, texts};

use crate::apart::are_apart;
use crate::command::{Command, WordsError};
use crate::file_name::FileName;
use crate::settings::option_values;
use crate::table::{CHECK, SOLVE};
use std::alloc::{AllocError, Global};

/// The command `check` over the words after its name.
pub(crate) fn check(alloc: Global, words: &[&str]) -> Result<Command, WordsError>
    ensures command { IfOk result (IsCommand (codes "check" ∷ texts words.now)) }
    ensures usage { result ≡ Err WordsError.Usage → IsUsage (codes "check" ∷ texts words.now) }
{
    let values = match option_values(alloc, &CHECK, words) {
        Ok(values) => values,
        Err(error) => return Err(error),
    };
    let [netlist, certificate] = values.as_slice() else {
        return Err(WordsError::Usage);
    };
    Ok(Command::Check {
        netlist: FileName::of(alloc, *netlist)?,
        certificate: FileName::of(alloc, *certificate)?,
    })
}

/// The command `solve` of the values of its options.
fn solve_of(alloc: Global, values: &[&str]) -> Result<Command, AllocError>
    requires { length values.now ≡ 3 }
    ensures { IfOk result (IsSolveOf (texts values.now)) }
{
    Ok(Command::Solve {
        netlist: FileName::new(alloc, values[0])?,
        certificate: FileName::new(alloc, values[1])?,
        report: FileName::new(alloc, values[2])?,
    })
}

/// The command `solve` over the words after its name.
pub(crate) fn solve(alloc: Global, words: &[&str]) -> Result<Command, WordsError>
    ensures command { IfOk result (IsCommand (codes "solve" ∷ texts words.now)) }
    ensures usage { result ≡ Err WordsError.Usage → IsUsage (codes "solve" ∷ texts words.now) }
{
    let values = match option_values(alloc, &SOLVE, words) {
        Ok(values) => values,
        Err(error) => return Err(error),
    };
    if !are_apart(&values[1..]) {
        return Err(WordsError::Usage);
    }
    match solve_of(alloc, &values) {
        Ok(command) => Ok(command),
        Err(_) => Err(WordsError::Want),
    }
}
