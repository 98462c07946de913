ghost use Rattle.def_design.specs.Format.{kinds};

use fixed_decimal::DecimalError;
use reading::{ErrorKind, ReadError};
use text_lex::LexKind;

/// Why the text of a design is refused, and at which word.
pub type DefError = ReadError<DefKind>;

/// What a design has to say of itself.
#[derive(Clone, Copy, Debug, PartialEq, Eq)]
pub enum Item {
    /// `DESIGN name ;`
    Design,
    /// `UNITS DISTANCE MICRONS n ;`
    Units,
    /// `DIEAREA ( x y ) ( x y ) ;`
    DieArea,
}

/// What is wrong with the word. Of two kinds at one word the one that stands earlier here is told.
#[derive(Clone, Copy, Debug, PartialEq, Eq)]
pub enum DefKind {
    /// With this word the words so far begin no design; or it is a number that may not stand there for its sign or its
    /// range, the second of two equal sides of a region, or the `;` of a die without area.
    Syntax,
    /// A `"` is not closed by the end of the text.
    BadString,
    /// The word is no whole number, or one beyond the limit.
    Number(DecimalError),
    /// It begins a second DESIGN, UNITS or DIEAREA, or is the name of a component or a region before.
    Twice,
    /// It begins a third point of the die, or a polygon of a blockage.
    Polygon,
    /// A row is turned by it to another side than N, S, FN and FS, or has more than one site in the other direction.
    RowForm,
    /// A special net has wires.
    AlreadyRouted,
    /// The text ends without this; of several without the first.
    Missing(Item),
    /// There was not enough memory.
    Want,
}

impl ErrorKind for DefKind {
    ghost kinds = { kinds };

    fn syntax() -> DefKind {
        DefKind::Syntax
    }

    fn want() -> DefKind {
        DefKind::Want
    }

    fn word(_kind: LexKind) -> DefKind {
        DefKind::BadString
    }
}
