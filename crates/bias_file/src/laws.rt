//! The law of the definition, on a function that does nothing.
ghost use Rattle.std.specs.Prelude.{ℕ, List, Result};
ghost use Rattle.reading.specs.declared.error.ReadError.{ReadError as Error};
ghost use Rattle.reading.specs.Error.{Agree};
ghost use Rattle.bias_file.specs.Format.{ReadsBias};
ghost use Rattle.bias_file.specs.declared.record.Bias.{Bias as Record};
ghost use Rattle.bias_file.specs.declared.error.BiasKind.{BiasKind as Kind};
ghost use Rattle.bias_file.specs.declared.error.BiasKind.TheVariants.{Want};

use crate::format::BiasFormat;
use number_place::texts_have_one_number;
use reading::texts_have_one_result;
use text_lex::one_split;

/// A text has one record or one refusal, and not both; want of memory aside.
pub fn texts_have_one_bias()
    ensures { (text : List ℕ) (a b : Result Record (Error Kind)) → ReadsBias text a → ReadsBias text b →
        Agree Want a b }
{
    one_split();
    texts_have_one_number();
    texts_have_one_result(&BiasFormat);
}
