ghost use Rattle.std.specs.Prelude.{◌≡◌, map};
ghost use Rattle.spice_cards.specs.Section.{section_number, all_sections, after_card, after_word, section_after, is_ended as ended, listed, few};
ghost use Rattle.reading.specs.Word.{heard_token};

use crate::sort::{Sort, sort_of};
use crate::value::Value;
use reading::{Heard, Numbered, last_heard};

/// Where the next unit stands.
#[derive(Clone, Copy, Debug)]
pub(crate) enum Section {
    /// Where a card or a dot line may begin.
    Cards,
    /// On a dot line that is passed over, of which each word is a unit.
    Passing,
    /// After `.end`.
    Ended,
}

impl Numbered for Section {
    ghost number = { section_number };

    ghost all = { all_sections };

    fn number(self) -> usize {
        self as usize
    }

    ghost listed = { listed };

    ghost few = { few };
}

/// The section after a card or the first word of a dot line, by its last word.
fn after_card(last: Sort) -> Section
    ensures { result ≡ after_card last }
{
    match last {
        Sort::Dot => Section::Passing,
        Sort::End => Section::Ended,
        _ => Section::Cards,
    }
}

/// The section after a word of a dot line.
fn after_word(last: Sort) -> Section
    ensures { result ≡ after_word last }
{
    match last {
        Sort::CardEnd => Section::Cards,
        _ => Section::Passing,
    }
}

/// The section after a unit in a section.
pub(crate) fn section_after(section: Section, unit: &[Heard<'_, Value>]) -> Section
    ensures { result ≡ section_after section (map heard_token unit.now) }
{
    let Some(last) = last_heard(unit) else {
        return section;
    };
    match section {
        Section::Cards => after_card(sort_of(&last.word)),
        Section::Passing => after_word(sort_of(&last.word)),
        Section::Ended => Section::Ended,
    }
}

/// Whether `.end` has ended the text.
pub(crate) fn is_ended(section: Section) -> bool
    ensures { result ≡ ended section }
{
    match section {
        Section::Ended => true,
        Section::Cards | Section::Passing => false,
    }
}
