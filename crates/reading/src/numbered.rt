ghost use Rattle.std.specs.Prelude.{◌≡◌, ◌≤◌, ℕ, List, Some, length, slice_get};

/// A type with at most 64 values, each of which has a number: the sorts of a format's words, and its sections.
pub trait Numbered: Copy {
    ghost number: { Self → ℕ };
    // Every value, in the order of their numbers.
    ghost all: { List Self };

    /// The number of the value.
    fn number(self) -> usize
        ensures { result ≡ number self };

    ghost listed: { (x : Self) → slice_get all (number x) ≡ Some x };

    ghost few: { length all ≤ 64 };
}
