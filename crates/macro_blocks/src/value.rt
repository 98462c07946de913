//! What the words of a unit say.
ghost use Rattle.std.specs.Prelude.{◌≡◌};
ghost use Rattle.macro_blocks.specs.inside.Value.{first_of, coordinate_in};

use crate::sort::Sort;
use fixed_decimal::DecimalError;

/// What a word of a unit says.
#[derive(Clone, Copy, Debug)]
pub(crate) enum Value {
    /// The first word: its sort.
    First(Sort),
    /// A coordinate of a RECT, in pm.
    Coordinate(i64),
    /// A word in the place of a coordinate of a RECT is none, for this reason.
    Refused(DecimalError),
    /// Any other word says nothing.
    Nothing,
}

impl Value {
    /// The sort of the first word.
    pub(crate) fn first(self) -> Sort
        ensures { result ≡ first_of self }
    {
        match self {
            Value::First(sort) => sort,
            _ => Sort::Other,
        }
    }

    /// The coordinate, or 0 of another word.
    pub(crate) fn coordinate(self) -> i64
        ensures { result ≡ coordinate_in self }
    {
        match self {
            Value::Coordinate(value) => value,
            _ => 0,
        }
    }
}
