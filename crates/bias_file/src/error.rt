ghost use Rattle.bias_file.specs.Format.{kinds};

use fixed_decimal::DecimalError;
use reading::{ErrorKind, ReadError};
use text_lex::LexKind;

/// Why a bias file is refused, and at which word.
pub type BiasError = ReadError<BiasKind>;

/// What is wrong with the word. Of two kinds at one word the one that stands earlier here is told.
#[derive(Clone, Copy, Debug, PartialEq, Eq)]
pub enum BiasKind {
    /// With this word the words so far begin no bias file, or it is a number below 0 where none may be.
    Syntax,
    /// The word is no number, a number other than 0 that rounds to 0, or one beyond the limit.
    Number(DecimalError),
    /// The word is the second number of a range, and its value is below that of the first.
    Falling,
    /// A line before has this name after the same first word. Pads may repeat.
    Twice,
    /// There was not enough memory.
    Want,
}

impl ErrorKind for BiasKind {
    ghost kinds = { kinds };

    fn syntax() -> BiasKind {
        BiasKind::Syntax
    }

    fn want() -> BiasKind {
        BiasKind::Want
    }

    // In lines no word is refused for itself.
    fn word(_kind: LexKind) -> BiasKind {
        BiasKind::Syntax
    }
}
