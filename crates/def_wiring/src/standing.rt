//! Where the units so far have led.
ghost use Rattle.std.specs.Prelude.{◌≡◌, [], map, OnOk};
ghost use Rattle.def_wiring.specs.Act.{via_act, net_act};
ghost use Rattle.def_wiring.specs.Standing.{passed_by, headed, after_entries, after_via, cue_after, told, power_after, after_point, stage_by, section_by, after_net, act_in, after_one, after_two, after_words, section_in, standing_after, at_start};
ghost use Rattle.def_wiring.specs.inside.Value.{says};
ghost use Rattle.reading.specs.Grammar.{AreHeard};
ghost use Rattle.reading.specs.Word.{token, heard_token};

use crate::act::{Act, Stage, net_act, via_act};
use crate::label::{Label, Words};
use crate::path::{Path, Point};
use crate::section::Section;
use crate::sort::Sort;
use lef_statements::{OpenName, Passing};
use reading::{Heard, Word};
use std::alloc::{AllocError, Global};

/// What the last words of an entry of SPECIALNETS are.
#[derive(Clone, Copy, Debug)]
pub(crate) enum Cue {
    Nothing,
    /// `+`
    Part,
    /// `+ USE`
    Use,
}

/// Where the units so far have led.
#[derive(Debug, Drop)]
pub(crate) struct Standing<'a> {
    pub(crate) section: Section,
    /// What is being passed over in it.
    pub(crate) passing: Option<Passing<'a>>,
    /// The name of the entry that is open.
    pub(crate) name: Label<'a>,
    /// The words of an entry of VIAS, as far as they are those of a generated via.
    pub(crate) entry: Words<'a>,
    /// Of an entry of SPECIALNETS: whether its use is POWER, once it is known that it is that or GROUND.
    pub(crate) power: Option<bool>,
    pub(crate) cue: Cue,
    pub(crate) stage: Stage,
    pub(crate) path: Path<'a>,
}

/// What is passed over from a word of the design on.
fn passed_by<'a>(sort: Sort, word: &Word<'a>) -> Option<Passing<'a>>
    ensures { result ≡ passed_by sort (token word.now) }
{
    match sort {
        Sort::PassedSection => Some(Passing::Section(OpenName::new(word.text))),
        Sort::BeginExt => Some(Passing::Extension),
        _ => Some(Passing::Statement),
    }
}

/// The section that this word begins.
fn headed(sort: Sort) -> Section
    ensures { result ≡ headed sort }
{
    match sort {
        Sort::Vias => Section::Vias,
        _ => Section::Nets,
    }
}

fn cue_after(cue: Cue, sort: Sort) -> Cue
    ensures { result ≡ cue_after cue sort }
{
    match (cue, sort) {
        (_, Sort::Plus) => Cue::Part,
        (Cue::Part, Sort::Use) => Cue::Use,
        _ => Cue::Nothing,
    }
}

/// The use that a word tells.
pub(crate) fn told(cue: Cue, sort: Sort) -> Option<bool>
    ensures { result ≡ told cue sort }
{
    match (cue, sort) {
        (Cue::Use, Sort::Power) => Some(true),
        (Cue::Use, Sort::Ground) => Some(false),
        _ => None,
    }
}

/// The first use that was told.
fn power_after(power: Option<bool>, told: Option<bool>) -> Option<bool>
    ensures { result ≡ power_after power told }
{
    match power {
        Some(power) => Some(power),
        None => told,
    }
}

/// The place after the point that ends.
fn after_point(last: &Option<Point<'_>>) -> Stage
    ensures { result ≡ after_point last.now }
{
    match last {
        Some(_) => Stage::More,
        None => Stage::One,
    }
}

/// The place after a word that does this.
fn stage_by(act: Act, last: &Option<Point<'_>>, stage: Stage) -> Stage
    ensures { result ≡ stage_by act last.now stage }
{
    match act {
        Act::Goes(next) => next,
        Act::Misplaced | Act::NoWire | Act::NoVia => Stage::Lost,
        Act::Layer => Stage::Width,
        Act::Width => Stage::Head,
        Act::Shape => Stage::First,
        Act::X => Stage::Y,
        Act::Y => Stage::Reach,
        Act::Reach => Stage::Close,
        Act::Point => after_point(last),
        Act::Place => Stage::Placed,
        _ => stage,
    }
}

/// The section after a word that does this in an entry of SPECIALNETS.
fn section_by(act: Act) -> Section
    ensures { result ≡ section_by act }
{
    match act {
        Act::EndsNet | Act::Breaks => Section::Nets,
        _ => Section::Net,
    }
}

impl<'a> Standing<'a> {
    /// Where a text begins.
    pub(crate) fn new(alloc: Global) -> Standing<'a>
        ensures { result ≡ at_start }
    {
        Standing {
            section: Section::Top,
            passing: None,
            name: Label::new(b""),
            entry: Words::new(alloc),
            power: None,
            cue: Cue::Nothing,
            stage: Stage::Parts,
            path: Path::new(),
        }
    }

    /// The section in which the next unit stands.
    pub(crate) fn section(&self) -> Section
        ensures { result ≡ section_in self.now }
    {
        match self.passing {
            Some(_) => Section::Passed,
            None => self.section,
        }
    }

    /// What a word does in an entry.
    pub(crate) fn act(&self, section: Section, sort: Sort) -> Act
        ensures { result ≡ act_in section self.now sort }
    {
        match section {
            Section::Via => via_act(self.entry.len(), sort),
            Section::Net => net_act(self.stage, sort),
            _ => Act::Nothing,
        }
    }

    /// Begins an entry.
    fn open(&mut self, entry: Section, name: &Word<'a>)
        ensures { self.new ≡ after_entries entry Sort.Minus (token name.now) self.old }
    {
        self.section = entry;
        self.name = Label::new(name.text);
        self.entry.clear();
        self.power = None;
        self.cue = Cue::Nothing;
        self.stage = Stage::Parts;
        self.path = Path::new();
    }

    fn after_entries(&mut self, entry: Section, first: Sort, name: &Word<'a>)
        ensures { self.new ≡ after_entries entry first (token name.now) self.old }
    {
        match first {
            Sort::Minus => self.open(entry, name),
            _ => self.section = Section::Top,
        }
    }

    /// Passes over the rest of an entry.
    fn pass_entry(&mut self, word: &Word<'a>)
        ensures { self.new ≡ after_via Act.Passes (token word.now) self.old }
    {
        self.section = Section::Vias;
        self.passing = Some(Passing::Statement);
    }

    fn after_via(&mut self, act: Act, word: &Word<'a>) -> Result<(), AllocError>
        ensures { OnOk result (self.new ≡ after_via act (token word.now) self.old) }
    {
        match act {
            Act::Keeps | Act::Number => self.entry.push(word)?,
            Act::EndsVia | Act::Drops => self.section = Section::Vias,
            _ => self.pass_entry(word),
        }
        Ok(())
    }

    fn after_net(&mut self, act: Act, sort: Sort, word: &Word<'a>)
        ensures { self.new ≡ after_net act sort (token word.now) self.old }
    {
        self.section = section_by(act);
        self.power = power_after(self.power, told(self.cue, sort));
        self.cue = cue_after(self.cue, sort);
        self.stage = stage_by(act, &self.path.last, self.stage);
        self.path.go_on(act, sort, word.text);
    }

    /// Passes over one more word.
    fn pass_over(&mut self, word: &Word<'a>)
        ensures { self.new ≡ after_one Section.Passed Sort.Other (token word.now) self.old }
    {
        self.passing = match self.passing.take() {
            Some(passing) => passing.after(word),
            None => None,
        };
    }

    fn after_one(&mut self, section: Section, sort: Sort, word: &Word<'a>) -> Result<(), AllocError>
        ensures { OnOk result (self.new ≡ after_one section sort (token word.now) self.old) }
    {
        match section {
            Section::Top => self.passing = passed_by(sort, word),
            Section::Via => {
                let act = self.act(Section::Via, sort);
                self.after_via(act, word)?;
            }
            Section::Net => {
                let act = self.act(Section::Net, sort);
                self.after_net(act, sort, word);
            }
            Section::Passed => self.pass_over(word),
            _ => {}
        }
        Ok(())
    }

    fn after_two(&mut self, section: Section, first: Sort, second: &Word<'a>)
        ensures { self.new ≡ after_two section first (token second.now) self.old }
    {
        match section {
            Section::Top => self.section = Section::Ended,
            Section::Vias => self.after_entries(Section::Via, first, second),
            Section::Nets => self.after_entries(Section::Net, first, second),
            _ => {}
        }
    }

    /// A longer unit leads nowhere else; there is none.
    fn stay(&mut self)
        ensures { self.new ≡ self.old }
    {}

    fn after_words(&mut self, section: Section, unit: &[Heard<'a, Sort>]) -> Result<(), AllocError>
        ensures { OnOk result (AreHeard says [] unit.now →
            self.new ≡ after_words section (map heard_token unit.now) self.old) }
    {
        match unit {
            [] => {}
            [first] => self.after_one(section, first.value, &first.word)?,
            [first, second] => self.after_two(section, first.value, &second.word),
            [first, _, _] => self.section = headed(first.value),
            _ => self.stay(),
        }
        Ok(())
    }

    /// Goes on to where one more unit leads.
    pub(crate) fn go_on(&mut self, unit: &[Heard<'a, Sort>]) -> Result<(), AllocError>
        ensures { OnOk result (AreHeard says [] unit.now →
            self.new ≡ standing_after self.old (map heard_token unit.now)) }
    {
        self.after_words(self.section(), unit)
    }
}
