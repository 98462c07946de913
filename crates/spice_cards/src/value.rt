//! What the words of a card say.
ghost use Rattle.std.specs.Prelude.{◌≡◌};
ghost use Rattle.spice_cards.specs.inside.Value.{letter_of, says_dc, wide_of, small_of};

use crate::sort::Sort;

/// What a word of a unit says.
#[derive(Clone, Copy, Debug)]
pub(crate) enum Value {
    /// The first word: its sort, which is the letter of a card.
    First(Sort),
    /// `DC` before the value of a source or a load.
    Dc,
    /// Ohms in nΩ, volts in yV, or farads in 10^-24 F.
    Wide(i128),
    /// Amperes in fA.
    Small(i64),
    /// Any other word says nothing.
    Nothing,
}

impl Value {
    /// The sort of the first word.
    pub(crate) fn letter(self) -> Sort
        ensures { result ≡ letter_of self }
    {
        match self {
            Value::First(sort) => sort,
            _ => Sort::Other,
        }
    }

    /// Whether the word is `DC` before a value.
    pub(crate) fn is_dc(self) -> bool
        ensures { result ≡ says_dc self }
    {
        match self {
            Value::Dc => true,
            _ => false,
        }
    }

    /// The ohms, volts or farads, or 0 of another word.
    pub(crate) fn wide(self) -> i128
        ensures { result ≡ wide_of self }
    {
        match self {
            Value::Wide(value) => value,
            _ => 0,
        }
    }

    /// The amperes, or 0 of another word.
    pub(crate) fn small(self) -> i64
        ensures { result ≡ small_of self }
    {
        match self {
            Value::Small(value) => value,
            _ => 0,
        }
    }
}
