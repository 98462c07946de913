//! The words of a unit, by their places in it.
ghost use Rattle.std.specs.Prelude.{◌≡◌, map};
ghost use Rattle.def_statements.specs.Unit.{text_at, sort_at, last_text, last_sort, begins};
ghost use Rattle.reading.specs.Word.{token};

use crate::sort::{Sort, is_the, sort_of};
use reading::{Word, last_word};

/// The bytes of the word that has n words before it; none where there is no such word.
pub fn text_at<'a>(n: usize, unit: &[Word<'a>]) -> &'a [u8]
    ensures { result.now ≡ text_at n (map token unit.now) }
{
    match unit.get(n) {
        Some(word) => word.text,
        None => b"",
    }
}

/// The sort of the word that has n words before it.
pub fn sort_at(n: usize, unit: &[Word<'_>]) -> Sort
    ensures { result ≡ sort_at n (map token unit.now) }
{
    match unit.get(n) {
        Some(word) => sort_of(word),
        None => Sort::Other,
    }
}

/// The bytes of the last word.
pub fn last_text<'a>(unit: &[Word<'a>]) -> &'a [u8]
    ensures { result.now ≡ last_text (map token unit.now) }
{
    match last_word(unit) {
        Some(word) => word.text,
        None => b"",
    }
}

/// The sort of the last word.
pub fn last_sort(unit: &[Word<'_>]) -> Sort
    ensures { result ≡ last_sort (map token unit.now) }
{
    match last_word(unit) {
        Some(word) => sort_of(word),
        None => Sort::Other,
    }
}

/// Whether the unit has this many words and begins with this one.
pub fn begins(word: Sort, length: usize, unit: &[Word<'_>]) -> bool
    ensures { result ≡ begins word length (map token unit.now) }
{
    unit.len() == length && is_the(word, sort_at(0, unit))
}
