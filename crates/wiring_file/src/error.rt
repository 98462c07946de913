ghost use Rattle.wiring_file.specs.Format.{kinds};

use fixed_decimal::DecimalError;
use reading::{ErrorKind, ReadError};
use text_lex::LexKind;

/// Why a wiring is refused, and at which word.
pub type WiringError = ReadError<WiringKind>;

/// What is wrong with the word. Of two kinds at one word the one that stands earlier here is told.
#[derive(Clone, Copy, Debug, PartialEq, Eq)]
pub enum WiringKind {
    /// With this word the words so far begin no written wiring.
    Syntax,
    /// The word is a `"` that is closed nowhere.
    BadString,
    /// The word is no whole number, or one beyond 2^61 in magnitude.
    Number(DecimalError),
    /// There was not enough memory.
    Want,
}

impl ErrorKind for WiringKind {
    ghost kinds = { kinds };

    fn syntax() -> WiringKind {
        WiringKind::Syntax
    }

    fn want() -> WiringKind {
        WiringKind::Want
    }

    fn word(_kind: LexKind) -> WiringKind {
        WiringKind::BadString
    }
}
