//! Laws of netlists, on functions that do nothing.
ghost use Rattle.std.specs.Prelude.{◌≡◌, ℕ, true, false, List, [], ◌∷◌, ◌++◌, Contains, flat_map};
ghost use Rattle.reading.specs.Outcome.{IsReadAs};
ghost use Rattle.reading.specs.Pattern.{joined};
ghost use Rattle.reading.specs.Reading.{Text};
ghost use Rattle.reading.specs.Taken.{AreTaken};
ghost use Rattle.reading.specs.declared.error.ReadError.{ReadError as Error};
ghost use Rattle.reading.specs.Word.{Token, end_after};
ghost use Rattle.spice_cards.specs.declared.error.CardsKind.{CardsKind as Kind};
ghost use Rattle.spice_cards.specs.Card.{cards_of};
ghost use Rattle.spice_cards.specs.Format.{format, IsNetlist, IsRefusedNetlist};
ghost use Rattle.spice_cards.specs.Record.{nodes_of};
ghost use Rattle.text_lex.specs.Piece.{IsBare};
ghost use Rattle.text_lex.specs.declared.word.Mode.TheVariants.{Lines};

use crate::format::CardsFormat;
use netlist_words::words_of_lines;
use reading::{texts_have_one_result, whole_units_are_read};

/// A text is one list of units or has one refusal, and not both.
pub fn netlists_have_one_reading()
    ensures units { (text : List ℕ) (a b : List (List Token)) → IsNetlist text a → IsNetlist text b → a ≡ b }
    ensures refusal { (text : List ℕ) (a b : Error Kind) → IsRefusedNetlist text a → IsRefusedNetlist text b → a ≡ b }
    ensures not_both { (text : List ℕ) (units : List (List Token)) (error : Error Kind) → IsNetlist text units →
        IsRefusedNetlist text error → ⊥ }
{
    texts_have_one_result(&CardsFormat);
}

/// The name of each node of a netlist's cards is one word of a line.
pub fn node_names_are_words()
    ensures { (text : List ℕ) (units : List (List Token)) → IsNetlist text units →
        (name : List ℕ) → Contains (flat_map nodes_of (cards_of units)) name → IsBare Lines true name [] }
{
    words_of_lines();
}

/// Where the words of a text are whole units up to `.end`, each of which may follow those before it, and no word shows a
/// fault, the text is read as these units and the end after their last word, whatever follows.
pub fn whole_cards_are_read()
    ensures { (text : Text Token) (units : List (List Token)) (rest : List Token) →
        let all = units ++ (end_after (joined units) ∷ []) ∷ [] in
        AreTaken format [] all → text.words ≡ joined units ++ rest → format.ends units ≡ true →
        ((front : List (List Token)) (next : List Token) (back : List (List Token)) → units ≡ front ++ next ∷ back →
        format.ends front ≡ false) → IsReadAs format text all }
{
    whole_units_are_read(&CardsFormat);
}
