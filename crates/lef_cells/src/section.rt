//! Where the next unit stands.
ghost use Rattle.std.specs.Prelude.{◌≡◌, [], map};
ghost use Rattle.lef_cells.specs.Section.{section_number, all_sections, listed, few, section_in, sized, closed, section_by, section_after, passing_by, passing_named, passing_after, standing_after};
ghost use Rattle.lef_cells.specs.inside.Value.{says};
ghost use Rattle.reading.specs.Grammar.{AreHeard};
ghost use Rattle.reading.specs.Word.{token, heard_token};

use crate::sort::Sort;
use crate::value::Value;
use lef_statements::{OpenName, Passing};
use reading::{Heard, Numbered, Word};

/// Where the next unit stands.
#[derive(Clone, Copy, Debug)]
pub(crate) enum Section {
    /// Between the sections of the library.
    Top,
    /// In a site that has no SIZE yet.
    Site,
    /// In a site with a SIZE.
    SizedSite,
    /// In a macro that has no SIZE yet.
    Macro,
    /// In a macro with a SIZE.
    SizedMacro,
    /// In what is passed over, of which each word is a unit.
    Passed,
    /// After `END LIBRARY`.
    Ended,
}

impl Numbered for Section {
    ghost number = { section_number };

    ghost all = { all_sections };

    fn number(self) -> usize {
        self as usize
    }

    ghost listed = { listed };

    ghost few = { few };
}

/// Where the units so far have led: the section that is open, and what is being passed over in it.
#[derive(Debug, Drop)]
pub(crate) struct Standing<'a> {
    pub(crate) section: Section,
    pub(crate) passing: Option<Passing<'a>>,
}

/// The section with its SIZE.
fn sized(section: Section) -> Section
    ensures { result ≡ sized section }
{
    match section {
        Section::Site => Section::SizedSite,
        Section::Macro => Section::SizedMacro,
        other => other,
    }
}

/// The section after one ends with `END`: the library itself ends where no other section is open.
fn closed(section: Section) -> Section
    ensures { result ≡ closed section }
{
    match section {
        Section::Top | Section::Ended => Section::Ended,
        _ => Section::Top,
    }
}

/// The section after a unit of two words, by the sort of the first.
fn section_by(section: Section, first: Sort) -> Section
    ensures { result ≡ section_by section first }
{
    match first {
        Sort::Site => Section::Site,
        Sort::Macro => Section::Macro,
        Sort::End => closed(section),
        _ => section,
    }
}

/// The section after a unit.
fn section_after(section: Section, unit: &[Heard<'_, Value>]) -> Section
    ensures { AreHeard says [] unit.now → result ≡ section_after section (map heard_token unit.now) }
{
    match unit {
        [first, _] => section_by(section, first.value.first()),
        [_, _, _, _, _] => sized(section),
        _ => section,
    }
}

/// What is passed over after a word of this sort that begins no other unit of the section.
fn passing_by<'a>(section: Section, sort: Sort, word: &Word<'a>) -> Option<Passing<'a>>
    ensures { result ≡ passing_by section sort (token word.now) }
{
    match (section, sort) {
        (_, Sort::TextEnd) => None,
        (Section::Top, Sort::WordSection) => Some(Passing::Section(OpenName::new(word.text))),
        (Section::Top, Sort::BeginExt) => Some(Passing::Extension),
        (Section::Macro | Section::SizedMacro, Sort::Group) => Some(Passing::Group),
        _ => Some(Passing::Statement),
    }
}

/// What is passed over after a unit of two words, by the sort of the first.
fn passing_named<'a>(first: Sort, second: &Word<'a>) -> Option<Passing<'a>>
    ensures { result ≡ passing_named first (token second.now) }
{
    match first {
        Sort::NamedSection | Sort::Pin => Some(Passing::Section(OpenName::new(second.text))),
        Sort::Class => Some(Passing::Statement),
        _ => None,
    }
}

/// What is passed over after a unit.
fn passing_after<'a>(
    section: Section,
    passing: Option<Passing<'a>>,
    unit: &[Heard<'a, Value>],
) -> Option<Passing<'a>>
    ensures { AreHeard says [] unit.now → result ≡ passing_after section passing.entry (map heard_token unit.now) }
{
    match unit {
        [one] => match passing {
            Some(passing) => passing.after(&one.word),
            None => passing_by(section, one.value.first(), &one.word),
        },
        [first, second] => passing_named(first.value.first(), &second.word),
        _ => None,
    }
}

impl<'a> Standing<'a> {
    /// Where a text begins.
    pub(crate) fn new() -> Standing<'a>
        ensures { result ≡ record { section = Section.Top; passing = None } }
    {
        Standing {
            section: Section::Top,
            passing: None,
        }
    }

    /// The section in which the next unit stands.
    pub(crate) fn section(&self) -> Section
        ensures { result ≡ section_in self.now }
    {
        match self.passing {
            Some(_) => Section::Passed,
            None => self.section,
        }
    }

    /// Goes on to where one more unit leads.
    pub(crate) fn go_on(&mut self, unit: &[Heard<'a, Value>])
        ensures { AreHeard says [] unit.now → self.new ≡ standing_after self.old (map heard_token unit.now) }
    {
        self.passing = passing_after(self.section, self.passing.take(), unit);
        self.section = section_after(self.section, unit);
    }
}
