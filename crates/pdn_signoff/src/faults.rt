//! The answers to a file that was not read, and to one that was not written.
ghost use Rattle.std.specs.Prelude.{◌≡◌, ◌⊎◌};
ghost use Rattle.answers.specs.declared.answer.Answer.TheVariants.{Want};
ghost use Rattle.pdn_signoff.specs.inside.Check.{unread_answer};
ghost use Rattle.pdn_signoff.specs.inside.Solve.{unwritten_answer};

use answers::Answer;
use outside::{Name, ReadError, WriteError};
use std::alloc::Global;

/// The answer to a file that was not read.
pub(crate) fn unread(alloc: Global, error: ReadError, file: &str) -> Answer
    ensures { (result ≡ Want) ⊎ (result ≡ unread_answer error file.now) }
{
    let Ok(file) = Name::new(alloc, file.as_bytes()) else {
        return Answer::Want;
    };
    match error {
        ReadError::ReadFault => Answer::ReadFault(file),
        ReadError::TooLong => Answer::TooLong(file),
        ReadError::Want => Answer::Want,
    }
}

/// The answer to a file that was not written.
pub(crate) fn unwritten(alloc: Global, error: WriteError, file: &str) -> Answer
    ensures { (result ≡ Want) ⊎ (result ≡ unwritten_answer error file.now) }
{
    let Ok(file) = Name::new(alloc, file.as_bytes()) else {
        return Answer::Want;
    };
    match error {
        WriteError::WriteFault => Answer::WriteFault(file),
        WriteError::Want => Answer::Want,
    }
}
