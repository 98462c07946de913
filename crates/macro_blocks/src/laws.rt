//! The law of the definition, on a function that does nothing.
ghost use Rattle.std.specs.Prelude.{ℕ, List, Result};
ghost use Rattle.reading.specs.declared.error.ReadError.{ReadError as Error};
ghost use Rattle.reading.specs.Error.{Agree};
ghost use Rattle.macro_blocks.specs.Format.{ReadsBlocks};
ghost use Rattle.macro_blocks.specs.declared.record.Blocks.{Blocks as Record};
ghost use Rattle.macro_blocks.specs.declared.error.BlocksKind.{BlocksKind as Kind};
ghost use Rattle.macro_blocks.specs.declared.error.BlocksKind.TheVariants.{Want};

use crate::format::BlocksFormat;
use number_place::texts_have_one_number;
use reading::texts_have_one_result;
use text_lex::one_split;

/// A text has one record or one refusal, and not both; want of memory aside.
pub fn texts_have_one_record()
    ensures { (text : List ℕ) (a b : Result Record (Error Kind)) → ReadsBlocks text a → ReadsBlocks text b →
        Agree Want a b }
{
    one_split();
    texts_have_one_number();
    texts_have_one_result(&BlocksFormat);
}
