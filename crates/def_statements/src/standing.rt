//! Where units lead.
ghost use Rattle.std.specs.Prelude.{◌≡◌, map};
ghost use Rattle.def_statements.specs.Unit.{text_at, last_sort};
ghost use Rattle.def_statements.specs.Standing.{after_top, after_entry_head, after_entry, after_kind, after_parts, after_rects, after_placement, after_region, after_wiring, after_wiring_end, section_by, is_read, passing_top, passing_region, passing_by, passed_on, standing_after, section_in};
ghost use Rattle.lef_statements.specs.Passing.{unless};
ghost use Rattle.reading.specs.Word.{token};

use crate::section::Section;
use crate::sort::{Sort, is_the};
use crate::unit::{last_sort, sort_at, text_at};
use lef_statements::{OpenName, Passing};
use reading::Word;

/// Where the units so far have led: the section that is open, and what is being passed over in it.
#[derive(Debug, Drop)]
pub struct Standing<'a> {
    pub section: Section,
    pub passing: Option<Passing<'a>>,
}

fn after_top(first: Sort) -> Section
    ensures { result ≡ after_top first }
{
    match first {
        Sort::Components => Section::Components,
        Sort::Blockages => Section::Blockages,
        Sort::Regions => Section::Regions,
        Sort::SpecialNets => Section::Wiring,
        Sort::End => Section::Ended,
        _ => Section::Top,
    }
}

/// After the head of an entry, or the end of the section.
fn after_entry_head(section: Section, entry: Section, first: Sort) -> Section
    ensures { result ≡ after_entry_head section entry first }
{
    match first {
        Sort::End => Section::Top,
        Sort::Minus => entry,
        _ => section,
    }
}

fn after_entry(first: Sort) -> Section
    ensures { result ≡ after_entry first }
{
    match first {
        Sort::Plus => Section::EntryPart,
        Sort::Semicolon => Section::Components,
        _ => Section::Entry,
    }
}

fn after_kind(first: Sort) -> Section
    ensures { result ≡ after_kind first }
{
    match first {
        Sort::Layer => Section::Parts,
        _ => Section::Placement,
    }
}

fn after_parts(first: Sort) -> Section
    ensures { result ≡ after_parts first }
{
    match first {
        Sort::Plus => Section::Part,
        Sort::Rect => Section::Rects,
        _ => Section::Parts,
    }
}

fn after_rects(first: Sort) -> Section
    ensures { result ≡ after_rects first }
{
    match first {
        Sort::Semicolon => Section::Blockages,
        _ => Section::Rects,
    }
}

fn after_placement(first: Sort) -> Section
    ensures { result ≡ after_placement first }
{
    match first {
        Sort::Semicolon => Section::Blockages,
        _ => Section::Placement,
    }
}

fn after_region(first: Sort) -> Section
    ensures { result ≡ after_region first }
{
    match first {
        Sort::Open => Section::Region,
        _ => Section::Regions,
    }
}

fn after_wiring(first: Sort) -> Section
    ensures { result ≡ after_wiring first }
{
    match first {
        Sort::Plus => Section::WiringPart,
        Sort::End => Section::WiringEnd,
        _ => Section::Wiring,
    }
}

fn after_wiring_end(first: Sort) -> Section
    ensures { result ≡ after_wiring_end first }
{
    match first {
        Sort::SpecialNets => Section::Top,
        other => after_wiring(other),
    }
}

/// The section after a unit that begins with a word of this sort.
fn section_by(section: Section, first: Sort) -> Section
    ensures { result ≡ section_by section first }
{
    match section {
        Section::Top => after_top(first),
        Section::Components => after_entry_head(Section::Components, Section::Entry, first),
        Section::Entry => after_entry(first),
        Section::EntryPart => after_entry(first),
        Section::Blockages => after_entry_head(Section::Blockages, Section::BlockageKind, first),
        Section::BlockageKind => after_kind(first),
        Section::Parts => after_parts(first),
        Section::Part => Section::Parts,
        Section::Rects => after_rects(first),
        Section::Placement => after_placement(first),
        Section::Regions => after_entry_head(Section::Regions, Section::Region, first),
        Section::Region => after_region(first),
        Section::Wiring => after_wiring(first),
        Section::WiringPart => after_wiring(first),
        Section::WiringEnd => after_wiring_end(first),
        Section::Passed => Section::Passed,
        Section::Ended => Section::Ended,
    }
}

/// Whether a statement that begins with this word is read to its `;`.
fn is_read(first: Sort) -> bool
    ensures { result ≡ is_read first }
{
    match first {
        Sort::Design => true,
        Sort::Units => true,
        Sort::DieArea => true,
        Sort::Components => true,
        Sort::Blockages => true,
        Sort::Regions => true,
        Sort::SpecialNets => true,
        Sort::End => true,
        _ => false,
    }
}

/// A statement is passed over, unless it has ended.
fn statement_unless<'a>(ended: bool) -> Option<Passing<'a>>
    ensures { result ≡ unless ended Passing.Statement }
{
    if ended {
        None
    } else {
        Some(Passing::Statement)
    }
}

fn passing_top<'a>(first: Sort, last: Sort, name: &'a [u8]) -> Option<Passing<'a>>
    ensures { result ≡ passing_top first last name.now }
{
    match first {
        Sort::PassedSection => Some(Passing::Section(OpenName::new(name))),
        Sort::Fills => Some(Passing::Section(OpenName::new(name))),
        Sort::BeginExt => Some(Passing::Extension),
        Sort::Row => statement_unless(is_the(Sort::Semicolon, last)),
        other => statement_unless(is_read(other)),
    }
}

fn passing_region<'a>(first: Sort) -> Option<Passing<'a>>
    ensures { result ≡ passing_region first }
{
    match first {
        Sort::Open => None,
        Sort::Semicolon => None,
        _ => Some(Passing::Statement),
    }
}

/// What is passed over after a unit of this section, by its first and its last word.
fn passing_by<'a>(section: Section, first: Sort, unit: &[Word<'a>]) -> Option<Passing<'a>>
    ensures { result ≡ passing_by section first (last_sort (map token unit.now)) (text_at 0 (map token unit.now)) }
{
    match section {
        Section::Top => passing_top(first, last_sort(unit), text_at(0, unit)),
        Section::Region => passing_region(first),
        _ => None,
    }
}

/// What is passed over after the words of one more unit of it.
fn passed_on<'a>(passing: Passing<'a>, unit: &[Word<'a>]) -> Option<Passing<'a>>
    ensures { result ≡ passed_on passing.entry (map token unit.now) }
{
    match unit.first() {
        Some(word) => passing.after(word),
        None => Some(passing),
    }
}

impl<'a> Standing<'a> {
    /// Where a text begins.
    pub fn new() -> Standing<'a>
        ensures { result ≡ record { section = Section.Top; passing = None } }
    {
        Standing {
            section: Section::Top,
            passing: None,
        }
    }

    /// The section in which the next unit stands.
    pub fn section(&self) -> Section
        ensures { result ≡ section_in self.now }
    {
        match self.passing {
            Some(_) => Section::Passed,
            None => self.section,
        }
    }

    /// Goes on to where one more unit leads.
    pub fn go_on(&mut self, unit: &[Word<'a>])
        ensures { self.new ≡ standing_after self.old (map token unit.now) }
    {
        match self.passing.take() {
            Some(passing) => self.passing = passed_on(passing, unit),
            None => {
                let first = sort_at(0, unit);
                self.passing = passing_by(self.section, first, unit);
                self.section = section_by(self.section, first);
            }
        }
    }
}
