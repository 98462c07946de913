//! The law of the definition, on a function that does nothing.
ghost use Rattle.std.specs.Prelude.{ℕ, List, Result};
ghost use Rattle.reading.specs.declared.error.ReadError.{ReadError as Error};
ghost use Rattle.reading.specs.Error.{Agree};
ghost use Rattle.wave_file.specs.Format.{ReadsWaves};
ghost use Rattle.wave_file.specs.declared.record.Waves.{Waves as Record};
ghost use Rattle.wave_file.specs.declared.error.WavesKind.{WavesKind as Kind};
ghost use Rattle.wave_file.specs.declared.error.WavesKind.TheVariants.{Want};

use crate::format::WavesFormat;
use number_place::texts_have_one_number;
use outside::Name;
use reading::texts_have_one_result;
use text_lex::one_split;

/// A text has one record or one refusal for groups with these names, and not both; want of memory aside.
pub fn texts_have_one_waves(names: &[Name])
    ensures { (text : List ℕ) (a b : Result Record (Error Kind)) → ReadsWaves names.now text a →
        ReadsWaves names.now text b → Agree Want a b }
{
    one_split();
    texts_have_one_number();
    texts_have_one_result(&WavesFormat { names });
}
