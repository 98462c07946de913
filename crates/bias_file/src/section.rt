ghost use Rattle.std.specs.Prelude.{◌≡◌, map};
ghost use Rattle.bias_file.specs.Section.{section_number, all_sections, section_after_word, section_after, listed, few};
ghost use Rattle.reading.specs.Word.{heard_token};

use crate::sort::{Sort, sort_of};
use crate::value::Value;
use reading::{Heard, Numbered, last_heard};

/// Where the next unit stands.
#[derive(Clone, Copy, Debug)]
pub(crate) enum Section {
    /// At the start of a line.
    LineStart,
    /// In a comment, of which each word is a unit.
    Remark,
    /// After the end of the text.
    Nothing,
}

impl Numbered for Section {
    ghost number = { section_number };

    ghost all = { all_sections };

    fn number(self) -> usize {
        self as usize
    }

    ghost listed = { listed };

    ghost few = { few };
}

/// The section after a unit that ends with a word of this sort.
fn section_after_word(sort: Sort) -> Section
    ensures { result ≡ section_after_word sort }
{
    match sort {
        Sort::LineEnd => Section::LineStart,
        Sort::TextEnd => Section::Nothing,
        _ => Section::Remark,
    }
}

/// The section after a unit.
pub(crate) fn section_after(unit: &[Heard<'_, Value>]) -> Section
    ensures { result ≡ section_after (map heard_token unit.now) }
{
    match last_heard(unit) {
        Some(last) => section_after_word(sort_of(&last.word)),
        None => Section::LineStart,
    }
}
