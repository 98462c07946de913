//! The law of the definition, on a function that does nothing.
ghost use Rattle.std.specs.Prelude.{ℕ, List, Result};
ghost use Rattle.lef_tech.specs.Format.{ReadsTech};
ghost use Rattle.lef_tech.specs.declared.error.TechKind.{TechKind as Kind};
ghost use Rattle.lef_tech.specs.declared.error.TechKind.TheVariants.{Want};
ghost use Rattle.lef_tech.specs.declared.tech.Tech.{Tech as Record};
ghost use Rattle.reading.specs.declared.error.ReadError.{ReadError as Error};
ghost use Rattle.reading.specs.Error.{Agree};

use crate::format::TechFormat;
use number_place::texts_have_one_number;
use reading::texts_have_one_result;
use text_lex::one_split;

/// A text has one record or one refusal, and not both; want of memory aside.
pub fn texts_have_one_tech()
    ensures { (text : List ℕ) (a b : Result Record (Error Kind)) → ReadsTech text a → ReadsTech text b →
        Agree Want a b }
{
    one_split();
    texts_have_one_number();
    texts_have_one_result(&TechFormat);
}
