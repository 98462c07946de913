ghost use Rattle.lef_cells.specs.Format.{kinds};

use fixed_decimal::DecimalError;
use reading::{ErrorKind, ReadError};
use text_lex::LexKind;

/// Why the text of cells is refused, and at which word.
pub type CellsError = ReadError<CellsKind>;

/// What is wrong with the word. Of two kinds at one word the one that stands earlier here is told.
#[derive(Clone, Copy, Debug, PartialEq, Eq)]
pub enum CellsKind {
    /// With this word the words so far begin no LEF library, or it is a length below 0, or it stands after `END` and is
    /// not the name of the section that is open.
    Syntax,
    /// A `"` is not closed by the end of the text.
    BadString,
    /// The word is no number, a number other than 0 that rounds to 0, or one beyond the limit.
    Number(DecimalError),
    /// A site before has this site's name, or a macro before this macro's.
    Twice,
    /// There was not enough memory.
    Want,
}

impl ErrorKind for CellsKind {
    ghost kinds = { kinds };

    fn syntax() -> CellsKind {
        CellsKind::Syntax
    }

    fn want() -> CellsKind {
        CellsKind::Want
    }

    fn word(_kind: LexKind) -> CellsKind {
        CellsKind::BadString
    }
}
