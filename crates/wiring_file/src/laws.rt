//! Laws of the definition, on functions that do nothing.
ghost use Rattle.std.specs.Prelude.{◌≡◌, [], ℕ, List, None, Ok, Result};
ghost use Rattle.text_lex.specs.Split.{Split, IsSplit};
ghost use Rattle.text_lex.specs.declared.word.Mode.TheVariants.{LefDef};
ghost use Rattle.reading.specs.declared.error.ReadError.{ReadError as Error};
ghost use Rattle.reading.specs.Error.{Agree};
ghost use Rattle.reading.specs.Pattern.{joined};
ghost use Rattle.reading.specs.Taken.{AreTaken};
ghost use Rattle.reading.specs.Word.{Token, seen_text};
ghost use Rattle.wiring_file.specs.Format.{format, ReadsWiring};
ghost use Rattle.wiring_file.specs.Record.{IsWiring};
ghost use Rattle.wiring_file.specs.Written.{HeadText, NetText, CanBeWritten, wiring_text, wiring_with};
ghost use Rattle.wiring_file.specs.declared.error.WiringKind.{WiringKind as Kind};
ghost use Rattle.wiring_file.specs.declared.error.WiringKind.TheVariants.{Want};
ghost use Rattle.wiring_file.specs.declared.record.ViaText.{ViaText as Via};
ghost use Rattle.wiring_file.specs.declared.record.Wiring.{Wiring as Record};

use crate::format::WiringFormat;
use fixed_decimal::{texts_have_one_answer, values_keep_signs};
use number_place::texts_have_one_number;
use reading::{texts_have_one_result, whole_units_are_read};
use text_lex::one_split;

/// A text has one wiring or one refusal, and not both; want of memory aside.
pub fn texts_have_one_wiring()
    ensures { (text : List ℕ) (a b : Result Record (Error Kind)) → ReadsWiring text a → ReadsWiring text b →
        Agree Want a b }
{
    one_split();
    texts_have_one_number();
    texts_have_one_result(&WiringFormat);
}

/// Where the words of a text are whole units, each of which may follow those before it, and no word shows a fault, the
/// text has the wiring that these units say.
pub fn whole_wirings_are_read()
    ensures { (text : List ℕ) (split : Split) (units : List (List Token)) (wiring : Record) →
        IsSplit LefDef text split → (seen_text split).refused ≡ None → (seen_text split).words ≡ joined units →
        AreTaken format [] units → IsWiring units wiring → ReadsWiring text (Ok wiring) }
{
    whole_units_are_read(&WiringFormat);
}

/// A written wiring reads back: where its names are names of DEF and its numbers may stand in their places, reading what
/// is written of its vias and nets gives these vias, and net by net these pieces and arrays, and nothing else; want of
/// memory aside.
pub fn written_wirings_read_back()
    ensures reads { (head : HeadText) (vias : List Via) (nets : List NetText) → CanBeWritten head vias nets →
        ReadsWiring (wiring_text head vias nets) (Ok (wiring_with vias nets)) }
    ensures alone { (head : HeadText) (vias : List Via) (nets : List NetText) (result : Result Record (Error Kind)) →
        CanBeWritten head vias nets → ReadsWiring (wiring_text head vias nets) result →
        Agree Want (Ok (wiring_with vias nets)) result }
{
    texts_have_one_number();
    texts_have_one_answer();
    values_keep_signs();
    whole_wirings_are_read();
    texts_have_one_wiring();
}
