//! What the words of a unit say.
ghost use Rattle.std.specs.Prelude.{◌≡◌, map};
ghost use Rattle.def_design.specs.inside.Value.{said_sort, said_number, said_begins, first_said};
ghost use Rattle.def_statements.specs.Unit.{text_at};
ghost use Rattle.reading.specs.Word.{heard_token};

use def_statements::{Sort, is_the};
use reading::Heard;

/// What a word of a unit says.
#[derive(Clone, Copy, Debug)]
pub(crate) struct Value {
    /// The sort of the word.
    pub(crate) sort: Sort,
    /// The number that it stands for, or 0 where it has to be none.
    pub(crate) number: i64,
}

/// The bytes of the word that has n words before it; none where there is no such word.
pub(crate) fn text_at<'a>(n: usize, unit: &[Heard<'a, Value>]) -> &'a [u8]
    ensures { result.now ≡ text_at n (map heard_token unit.now) }
{
    match unit.get(n) {
        Some(heard) => heard.word.text,
        None => b"",
    }
}

/// The sort of the word that has n words before it.
pub(crate) fn sort_at(n: usize, unit: &[Heard<'_, Value>]) -> Sort
    ensures { result ≡ said_sort n unit.now }
{
    match unit.get(n) {
        Some(heard) => heard.value.sort,
        None => Sort::Other,
    }
}

/// The number that the word stands for which has n words before it.
pub(crate) fn number_at(n: usize, unit: &[Heard<'_, Value>]) -> i64
    ensures { result ≡ said_number n unit.now }
{
    match unit.get(n) {
        Some(heard) => heard.value.number,
        None => 0,
    }
}

/// The sort of the first word of a unit, whose next word has this sort.
pub(crate) fn first_sort(before: &[Heard<'_, Value>], sort: Sort) -> Sort
    ensures { result ≡ first_said before.now sort }
{
    match before.first() {
        Some(first) => first.value.sort,
        None => sort,
    }
}

/// Whether the unit has this many words and begins with this one.
pub(crate) fn begins(word: Sort, words: usize, unit: &[Heard<'_, Value>]) -> bool
    ensures { result ≡ said_begins word words unit.now }
{
    unit.len() == words && is_the(word, sort_at(0, unit))
}
