//! The law of the definition, on a function that does nothing.
ghost use Rattle.std.specs.Prelude.{ℕ, List, Result};
ghost use Rattle.reading.specs.declared.error.ReadError.{ReadError as Error};
ghost use Rattle.reading.specs.Error.{Agree};
ghost use Rattle.def_design.specs.Format.{ReadsDesign, ReadsPlaced};
ghost use Rattle.def_design.specs.declared.record.Design.{Design as Record};
ghost use Rattle.def_design.specs.declared.error.DefKind.{DefKind as Kind};
ghost use Rattle.def_design.specs.declared.error.DefKind.TheVariants.{Want};

use crate::format::DesignFormat;
use number_place::texts_have_one_number;
use reading::texts_have_one_result;
use text_lex::one_split;

/// A text has one record or one refusal, and not both; want of memory aside. Wires are refused.
pub fn texts_have_one_design()
    ensures { (text : List ℕ) (a b : Result Record (Error Kind)) → ReadsDesign text a → ReadsDesign text b →
        Agree Want a b }
{
    one_split();
    texts_have_one_number();
    texts_have_one_result(&DesignFormat {
        wiring_refused: true,
    });
}

/// The same where wires are passed over.
pub fn texts_have_one_placed_design()
    ensures { (text : List ℕ) (a b : Result Record (Error Kind)) → ReadsPlaced text a → ReadsPlaced text b →
        Agree Want a b }
{
    one_split();
    texts_have_one_number();
    texts_have_one_result(&DesignFormat {
        wiring_refused: false,
    });
}
