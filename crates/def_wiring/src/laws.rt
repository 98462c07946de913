//! The law of the definition, on a function that does nothing.
ghost use Rattle.std.specs.Prelude.{◌≡◌, All, [], ◌∷◌, ◌++◌, ℕ, List, true, false, Ok, Result};
ghost use Rattle.text_lex.specs.Split.{Split, IsSplit};
ghost use Rattle.text_lex.specs.declared.word.Mode.TheVariants.{LefDef};
ghost use Rattle.reading.specs.declared.error.ReadError.{ReadError as Error};
ghost use Rattle.reading.specs.Error.{Agree};
ghost use Rattle.reading.specs.Pattern.{joined};
ghost use Rattle.reading.specs.Taken.{AreTaken};
ghost use Rattle.reading.specs.Word.{Token, end_after, seen_text};
ghost use Rattle.def_wiring.specs.Format.{format, ReadsWires};
ghost use Rattle.def_wiring.specs.Record.{IsWires};
ghost use Rattle.def_wiring.specs.Written.{IsWired};
ghost use Rattle.def_wiring.specs.WrittenFits.{NetIsPlain, CanBeWired};
ghost use Rattle.wiring_file.specs.Written.{HeadText, NetText, CanBeWritten, wiring_text};
ghost use Rattle.wiring_file.specs.declared.record.ViaText.{ViaText as Via};
ghost use Rattle.def_wiring.specs.declared.record.Wires.{Wires as Record};
ghost use Rattle.def_wiring.specs.declared.error.WiresKind.{WiresKind as Kind};
ghost use Rattle.def_wiring.specs.declared.error.WiresKind.TheVariants.{Want};

use crate::format::WiresFormat;
use number_place::texts_have_one_number;
use reading::{texts_have_one_result, whole_units_are_read};
use text_lex::one_split;
use written_words::{written_lines_are_words, written_numbers_are_read};

/// A text has one record or one refusal, and not both; want of memory aside.
pub fn texts_have_one_wiring()
    ensures { (text : List ℕ) (a b : Result Record (Error Kind)) → ReadsWires text a → ReadsWires text b →
        Agree Want a b }
{
    one_split();
    texts_have_one_number();
    texts_have_one_result(&WiresFormat);
}

/// Where the first words of a text are whole units that end it, and no fewer of them do, each of which may follow those
/// before it, and no word shows a fault, the text has the wiring that these units say, whatever follows them.
pub fn whole_wires_are_read()
    ensures { (text : List ℕ) (split : Split) (units : List (List Token)) (rest : List Token) (wires : Record) →
        let all = units ++ (end_after (joined units) ∷ []) ∷ [] in
        IsSplit LefDef text split → (seen_text split).words ≡ joined units ++ rest → AreTaken format [] all →
        format.ends units ≡ true →
        ((front : List (List Token)) (next : List Token) (back : List (List Token)) →
        units ≡ front ++ next ∷ back → format.ends front ≡ false) →
        IsWires all wires → ReadsWires text (Ok wires) }
{
    whole_units_are_read(&WiresFormat);
}

/// A written wiring is read as its wires: where its names are names of DEF, its numbers may stand in their places, and
/// each via that a net places is one of its vias, reading the text gives these vias, and net by net these segments and
/// places of vias, and nothing else; want of memory aside. Where the text can be written at all, and no placed via has the
/// name of a keyword, whatever is read of it is its wires (clause `only`): numbers and names refuse it, but never change it.
pub fn written_wires_are_read()
    ensures reads { (head : HeadText) (vias : List Via) (nets : List NetText) (wires : Record) →
        CanBeWired head vias nets → IsWired vias nets wires → ReadsWires (wiring_text head vias nets) (Ok wires) }
    ensures alone { (head : HeadText) (vias : List Via) (nets : List NetText) (wires : Record)
        (result : Result Record (Error Kind)) → CanBeWired head vias nets → IsWired vias nets wires →
        ReadsWires (wiring_text head vias nets) result → Agree Want (Ok wires) result }
    ensures only { (head : HeadText) (vias : List Via) (nets : List NetText) (wires other : Record) →
        CanBeWritten head vias nets → All NetIsPlain nets → IsWired vias nets wires →
        ReadsWires (wiring_text head vias nets) (Ok other) → other ≡ wires }
{
    one_split();
    texts_have_one_number();
    written_lines_are_words();
    written_numbers_are_read();
    whole_wires_are_read();
    texts_have_one_wiring();
}
