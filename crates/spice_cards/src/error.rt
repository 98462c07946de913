ghost use Rattle.spice_cards.specs.Format.{kinds};

use fixed_decimal::DecimalError;
use reading::{ErrorKind, ReadError};
use text_lex::LexKind;

/// Why a netlist is refused, and at which word.
pub type CardsError = ReadError<CardsKind>;

/// What is wrong with the word. Of two kinds at one word the one that stands earlier here is told.
#[derive(Clone, Copy, Debug, PartialEq, Eq)]
pub enum CardsKind {
    /// With this word the words so far begin no netlist.
    Syntax,
    /// The word begins a card or a dot line other than those that are read.
    OutOfProfileCard,
    /// The word is a number other than 0, the value of a source between two nodes other than `0`.
    FloatingSource,
    /// The word is no number, a number other than 0 that rounds to 0, or one beyond the limit.
    Number(DecimalError),
    /// The word is the low end of a load's range and above its value, or the high end and below it.
    OutOfRange,
    /// There was not enough memory.
    Want,
}

impl ErrorKind for CardsKind {
    ghost kinds = { kinds };

    fn syntax() -> CardsKind {
        CardsKind::Syntax
    }

    fn want() -> CardsKind {
        CardsKind::Want
    }

    // No word of a netlist is refused for itself.
    fn word(_kind: LexKind) -> CardsKind {
        CardsKind::Syntax
    }
}
