//! The law of the definition, on a function that does nothing.
ghost use Rattle.std.specs.Prelude.{ℕ, List, Result};
ghost use Rattle.pdn_script.specs.declared.error.ScriptKind.{ScriptKind as Kind};
ghost use Rattle.pdn_script.specs.declared.error.ScriptKind.TheVariants.{Want};
ghost use Rattle.pdn_script.specs.declared.record.Script.{Script as Record};
ghost use Rattle.pdn_script.specs.Format.{ReadsScript};
ghost use Rattle.reading.specs.declared.error.ReadError.{ReadError as Error};
ghost use Rattle.reading.specs.Error.{Agree};

use crate::format::ScriptFormat;
use reading::texts_have_one_result;
use script_options::numbers_have_one_value;
use text_lex::one_split;

/// A text has one record or one refusal, and not both; want of memory aside.
pub fn texts_have_one_script()
    ensures { (text : List ℕ) (a b : Result Record (Error Kind)) → ReadsScript text a → ReadsScript text b →
        Agree Want a b }
{
    one_split();
    numbers_have_one_value();
    texts_have_one_result(&ScriptFormat);
}
