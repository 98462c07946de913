//! The count of a text's statements.
ghost use Rattle.std.specs.Prelude.{◌≡◌, Ok};
ghost use Rattle.text_lex.specs.declared.word.Mode.TheVariants.{LefDef};
ghost use Rattle.reading.specs.Outcome.{Reads};
ghost use Rattle.statements.specs.Record.{count_of};
ghost use Rattle.statements.specs.Format.{statements_format};

use crate::fault::Kind;
use crate::format::Statements;
use reading::{Refusal, read_text};
use std::alloc::Global;
use text_lex::Mode;

/// How many statements a text has, or the one word at which it is refused, and why.
pub fn count_statements(alloc: Global, text: &[u8]) -> Result<u64, Refusal<Kind>>
    ensures { Reads LefDef text.now statements_format (λ units. result ≡ Ok (count_of units)) result }
{
    let mut said = 0;
    match read_text(alloc, &Statements, &mut said, text, Mode::LefDef) {
        Ok(_) => Ok(said),
        Err(refusal) => Err(refusal),
    }
}
