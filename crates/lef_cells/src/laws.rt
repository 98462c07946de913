//! The law of the definition, on a function that does nothing.
ghost use Rattle.std.specs.Prelude.{ℕ, List, Result};
ghost use Rattle.reading.specs.declared.error.ReadError.{ReadError as Error};
ghost use Rattle.reading.specs.Error.{Agree};
ghost use Rattle.lef_cells.specs.Format.{ReadsCells};
ghost use Rattle.lef_cells.specs.declared.record.Cells.{Cells as Record};
ghost use Rattle.lef_cells.specs.declared.error.CellsKind.{CellsKind as Kind};
ghost use Rattle.lef_cells.specs.declared.error.CellsKind.TheVariants.{Want};

use crate::format::CellsFormat;
use number_place::texts_have_one_number;
use reading::texts_have_one_result;
use text_lex::one_split;

/// A text has one record or one refusal, and not both; want of memory aside.
pub fn texts_have_one_record()
    ensures { (text : List ℕ) (a b : Result Record (Error Kind)) → ReadsCells text a → ReadsCells text b →
        Agree Want a b }
{
    one_split();
    texts_have_one_number();
    texts_have_one_result(&CellsFormat);
}
