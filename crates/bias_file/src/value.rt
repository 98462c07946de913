//! What the words of a line say.
ghost use Rattle.std.specs.Prelude.{◌≡◌};
ghost use Rattle.bias_file.specs.inside.Value.{line_of, wide_of, small_of};

use crate::sort::Sort;

/// What a word of a line says.
#[derive(Clone, Copy, Debug)]
pub(crate) enum Value {
    /// The first word: which line it is.
    Line(Sort),
    /// Volts in yV.
    Wide(i128),
    /// Amperes in fA, or a place in pm.
    Small(i64),
    /// Any other word says nothing.
    Nothing,
}

impl Value {
    /// The line that the first word begins.
    pub(crate) fn line(self) -> Sort
        ensures { result ≡ line_of self }
    {
        match self {
            Value::Line(sort) => sort,
            _ => Sort::Other,
        }
    }

    /// The volts, or 0 of another word.
    pub(crate) fn wide(self) -> i128
        ensures { result ≡ wide_of self }
    {
        match self {
            Value::Wide(value) => value,
            _ => 0,
        }
    }

    /// The amperes or the place, or 0 of another word.
    pub(crate) fn small(self) -> i64
        ensures { result ≡ small_of self }
    {
        match self {
            Value::Small(value) => value,
            _ => 0,
        }
    }
}
