//! A law of the words of netlists, on a function that does nothing.
ghost use Rattle.std.specs.Prelude.{ℕ, List, All};
ghost use Rattle.netlist_words.specs.CardWord.{IsCardWord};
ghost use Rattle.netlist_words.specs.Text.{netlist_text};

/// Each word of a netlist is one word of a line, or the end of a card, of what stands before it, or of the text.
pub fn words_of_lines()
    ensures { (text : List ℕ) → All IsCardWord (netlist_text text).words }
{}
