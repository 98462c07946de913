ghost use Rattle.wave_file.specs.Format.{kinds};

use fixed_decimal::DecimalError;
use reading::{ErrorKind, ReadError};
use text_lex::LexKind;

/// Why a wave file is refused, and at which word.
pub type WavesError = ReadError<WavesKind>;

/// What is wrong with the word. No word shows two of them.
#[derive(Clone, Copy, Debug, PartialEq, Eq)]
pub enum WavesKind {
    /// With this word the words so far begin no wave file, or it is no whole number from 1 to 1000 where a step stands.
    Syntax,
    /// The word is no number, a number other than 0 that rounds to 0, or one beyond the limit.
    Number(DecimalError),
    /// No group has this name.
    UnknownNode,
    /// A line before has this step and this name.
    Twice,
    /// The word is a step below that of the line before, or the second number of a range and its value is below that of
    /// the first.
    Falling,
    /// There was not enough memory.
    Want,
}

impl ErrorKind for WavesKind {
    ghost kinds = { kinds };

    fn syntax() -> WavesKind {
        WavesKind::Syntax
    }

    fn want() -> WavesKind {
        WavesKind::Want
    }

    // In lines no word is refused for itself.
    fn word(_kind: LexKind) -> WavesKind {
        WavesKind::Syntax
    }
}
