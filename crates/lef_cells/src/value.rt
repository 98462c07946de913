//! What the words of a unit say.
ghost use Rattle.std.specs.Prelude.{◌≡◌};
ghost use Rattle.lef_cells.specs.inside.Value.{first_of, length_of};

use crate::sort::Sort;

/// What a word of a unit says.
#[derive(Clone, Copy, Debug)]
pub(crate) enum Value {
    /// The first word: its sort.
    First(Sort),
    /// A length of a SIZE, in pm.
    Length(u64),
    /// Any other word says nothing.
    Nothing,
}

impl Value {
    /// The sort of the first word.
    pub(crate) fn first(self) -> Sort
        ensures { result ≡ first_of self }
    {
        match self {
            Value::First(sort) => sort,
            _ => Sort::Other,
        }
    }

    /// The length, or 0 of another word.
    pub(crate) fn length(self) -> u64
        ensures { result ≡ length_of self }
    {
        match self {
            Value::Length(value) => value,
            _ => 0,
        }
    }
}
