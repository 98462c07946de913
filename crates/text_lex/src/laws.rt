//! Laws on the words of texts: functions that do nothing, whose contracts hold of every text.
ghost use Rattle.std.specs.Prelude.{◌≡◌, ◌⊎◌, ◌+◌, ℕ, List, ◌∷◌, ◌++◌, All};
ghost use Rattle.text_lex.specs.Bytes.{line_feed, count_of};
ghost use Rattle.text_lex.specs.Piece.{Piece, Item};
ghost use Rattle.text_lex.specs.Split.{Split, IsSplit, first_place, place_after, last_from, words_from, text_of, words_on};
ghost use Rattle.text_lex.specs.declared.word.Form.{Form};
ghost use Rattle.text_lex.specs.declared.word.Mode.{Mode};
ghost use Rattle.text_lex.specs.declared.word.Mode.TheVariants.{LefDef, Lines};
ghost use Rattle.text_lex.specs.declared.word.Form.TheVariants.{Bare, Quoted, Break};

/// Each text has its words in each mode, and no others.
pub fn one_split()
    ensures some { (mode : Mode) (text : List ℕ) → (split : Split) × IsSplit mode text split }
    ensures one { (mode : Mode) (text : List ℕ) (a b : Split) → IsSplit mode text a → IsSplit mode text b → a ≡ b }
{}

/// The line of a word is one more than the line feeds before it, and its number one more than the words before it that
/// begin on that line. The place of the end of a text, and of a word that is refused, is told alike.
pub fn places_of_words()
    ensures line { (pieces : List Piece) →
        (last_from first_place pieces).line ≡ 1 + count_of line_feed (text_of pieces) }
    ensures number { (pieces : List Piece) → let last = last_from first_place pieces in
        last.word ≡ 1 + words_on last.line (words_from first_place pieces) }
    ensures word { (before : List Piece) (form : Form) (text : List ℕ) (after : List Piece) →
        let place = last_from first_place before in
        words_from first_place (before ++ Item form text ∷ after)
        ≡ words_from first_place before ++ record { text = text; place = place; form = form }
        ∷ words_from (place_after place (Item form text)) after }
{}

/// The words of LEF and DEF are bare or quoted, those of lines are bare or end a line.
pub fn forms_of_modes()
    ensures lef_def { (text : List ℕ) (split : Split) → IsSplit LefDef text split
        → All (λ word. (word.form ≡ Bare) ⊎ (word.form ≡ Quoted)) split.words }
    ensures lines { (text : List ℕ) (split : Split) → IsSplit Lines text split
        → All (λ word. (word.form ≡ Bare) ⊎ (word.form ≡ Break)) split.words }
{}
