//! The command `step`.
ghost use Rattle.std.specs.Prelude.{◌≡◌, ◌∷◌, [], IfOk, Err, codes, length};
ghost use Rattle.command_words.specs.Words.{IsCommand, IsUsage};
ghost use Rattle.command_words.specs.inside.Split.{IsStepOf, texts};

use crate::apart::are_apart;
use crate::command::{Command, WordsError};
use crate::file_name::FileName;
use crate::number::{steps_of, time_of};
use crate::settings::option_values;
use crate::table::STEP;
use std::alloc::{AllocError, Global};

/// The command `step` of a time, a number of steps, and the values of its options.
fn step_of(alloc: Global, time: u128, steps: u32, values: &[&str]) -> Result<Command, AllocError>
    requires { length values.now ≡ 6 }
    ensures { IfOk result (IsStepOf (texts values.now) time steps) }
{
    Ok(Command::Step {
        netlist: FileName::new(alloc, values[2])?,
        waves: FileName::new(alloc, values[3])?,
        time,
        steps,
        certificate: FileName::new(alloc, values[4])?,
        report: FileName::new(alloc, values[5])?,
    })
}

/// The command `step` over the words after its name.
pub(crate) fn step(alloc: Global, words: &[&str]) -> Result<Command, WordsError>
    ensures command { IfOk result (IsCommand (codes "step" ∷ texts words.now)) }
    ensures usage { result ≡ Err WordsError.Usage → IsUsage (codes "step" ∷ texts words.now) }
{
    let values = match option_values(alloc, &STEP, words) {
        Ok(values) => values,
        Err(error) => return Err(error),
    };
    let all = values.as_slice();
    let Some(time) = time_of(all[0]) else {
        return Err(WordsError::Usage);
    };
    let Some(steps) = steps_of(all[1]) else {
        return Err(WordsError::Usage);
    };
    if !are_apart(&all[4..]) {
        return Err(WordsError::Usage);
    }
    match step_of(alloc, time, steps, all) {
        Ok(command) => Ok(command),
        Err(_) => Err(WordsError::Want),
    }
}
