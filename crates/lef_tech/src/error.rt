ghost use Rattle.lef_tech.specs.Kinds.{kinds};

use fixed_decimal::DecimalError;
use reading::{ErrorKind, ReadError};
use text_lex::LexKind;

/// Why a technology is refused, and at which word.
pub type TechError = ReadError<TechKind>;

/// What is wrong with the word. Of two kinds at one word the one that stands earlier here is told.
#[derive(Clone, Copy, Debug, PartialEq, Eq)]
pub enum TechKind {
    /// With this word the words so far begin no technology, or it is a number of a sign or a count that may not stand
    /// there, or the end of a section does not have the section's name.
    Syntax,
    /// A `"` begins here that is not closed by the end of the text.
    BadString,
    /// The word is no number, a number other than 0 that rounds to 0, or one beyond the limit.
    Number(DecimalError),
    /// A layer or a rule before has this name.
    Twice,
    /// A generate rule names a layer that no section before has.
    UnknownLayer,
    /// The points of a table do not rise here, or it has more or fewer entries than points.
    BadTable,
    /// There was not enough memory.
    Want,
}

impl ErrorKind for TechKind {
    ghost kinds = { kinds };

    fn syntax() -> TechKind {
        TechKind::Syntax
    }

    fn want() -> TechKind {
        TechKind::Want
    }

    // In LEF no word is refused for a substitution.
    fn word(_kind: LexKind) -> TechKind {
        TechKind::BadString
    }
}
