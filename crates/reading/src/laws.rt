//! Laws of the definitions, on functions that do nothing.
ghost use Rattle.std.specs.Prelude.{◌≡◌, ◌∷◌, ◌++◌, List, [], None, true, false};
ghost use Rattle.outside.specs.declared.place.Place.{Place};
ghost use Rattle.reading.specs.Pattern.{joined};
ghost use Rattle.reading.specs.Reading.{Text, IsRead};
ghost use Rattle.reading.specs.Taken.{AreTaken};
ghost use Rattle.reading.specs.Outcome.{IsReadAs, IsRefusedAt};
ghost use Rattle.reading.specs.Word.{Token, end_after};
ghost use Rattle.reading.specs.declared.refusal.Cause.{Cause};

use crate::grammar::Grammar;

/// A text has at most one result: one refusal, or one list of units, and not both.
pub fn texts_have_one_result<'a, G: Grammar<'a>>(grammar: &G)
    ensures refused { (text : Text Token) (p q : Place) (c d : Cause G.Kind) →
        IsRefusedAt (G.format grammar.now) text p c → IsRefusedAt (G.format grammar.now) text q d → (p ≡ q) × (c ≡ d) }
    ensures read { (text : Text Token) (a b : List (List Token)) →
        IsReadAs (G.format grammar.now) text a → IsReadAs (G.format grammar.now) text b → a ≡ b }
    ensures not_both { (text : Text Token) (units : List (List Token)) (p : Place) (c : Cause G.Kind) →
        IsReadAs (G.format grammar.now) text units → IsRefusedAt (G.format grammar.now) text p c → ⊥ }
{
    grammar.regular();
}

/// Where the words of a text are whole units, each of which may follow those before it, and no word shows a fault, the
/// text is read as these units: there are no others, and nothing refuses it. Where units end the text, none of whose
/// fronts does, it is read as them and the end after their last word, whatever follows.
pub fn whole_units_are_read<'a, G: Grammar<'a>>(grammar: &G)
    ensures read { (text : Text Token) (units : List (List Token)) → AreTaken (G.format grammar.now) [] units →
        text.words ≡ joined units → text.refused ≡ None → IsRead (G.format grammar.now) text units }
    ensures read_as { ((units : List (List Token)) → (G.format grammar.now).ends units ≡ false) →
        (text : Text Token) (units : List (List Token)) → AreTaken (G.format grammar.now) [] units →
        text.words ≡ joined units → text.refused ≡ None → IsReadAs (G.format grammar.now) text units }
    ensures read_to_end { (text : Text Token) (units : List (List Token)) (rest : List Token) →
        let all = units ++ (end_after (joined units) ∷ []) ∷ [] in
        AreTaken (G.format grammar.now) [] all → text.words ≡ joined units ++ rest →
        (G.format grammar.now).ends units ≡ true →
        ((front : List (List Token)) (next : List Token) (back : List (List Token)) →
        units ≡ front ++ next ∷ back → (G.format grammar.now).ends front ≡ false) →
        IsReadAs (G.format grammar.now) text all }
{
    grammar.regular();
}
