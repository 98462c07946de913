//! Where the units so far have led.
ghost use Rattle.std.specs.Prelude.{◌≡◌, map};
ghost use Rattle.macro_blocks.specs.Rule.{is_name};
ghost use Rattle.macro_blocks.specs.Sort.{the, sort_of};
ghost use Rattle.macro_blocks.specs.Standing.{pin_name, is_told, is_known, is_own, used, passed_by, in_macro, after_top, after_macro_word, after_macro, after_pin_word, unused, after_other_use, after_use, after_pin, around, after_port_word, after_port, is_rect, after_unfit, after_passed, after_one, after_two, after_more, after_words, section_in, last_in, standing_after, at_start};
ghost use Rattle.lef_statements.specs.Passing.{section_after};
ghost use Rattle.reading.specs.Word.{token, heard_token, last_of};

use crate::label::Label;
use crate::section::Section;
use crate::sort::{Sort, sort_of};
use crate::value::Value;
use lef_statements::{OpenName, Passing, is_word};
use reading::{Heard, Word, last_heard};

/// The pin that is open.
#[derive(Debug, Drop)]
pub(crate) struct OpenPin<'a> {
    pub(crate) name: Label<'a>,
    /// Whether it is one of power, once a USE has said that it is one of power or ground.
    pub(crate) power: Option<bool>,
}

/// Where the units so far have led.
#[derive(Debug, Drop)]
pub(crate) struct Standing<'a> {
    pub(crate) section: Section,
    /// What is being passed over in it.
    pub(crate) passing: Option<Passing<'a>>,
    /// The name of the macro that is open.
    pub(crate) cell: Label<'a>,
    /// Whether that has an ORIGIN.
    pub(crate) has_origin: bool,
    /// The pin that is open, if one is.
    pub(crate) pin: Option<OpenPin<'a>>,
    /// The sort of the last word.
    pub(crate) last: Sort,
}

/// Whether the use is told.
fn is_told(power: Option<bool>) -> bool
    ensures { result ≡ is_told power }
{
    power.is_some()
}

/// Whether it is known what the words are for: for obstructions, or for a pin of which a USE has told that it is one of
/// power or ground.
pub(crate) fn is_known(pin: &Option<OpenPin<'_>>) -> bool
    ensures { result ≡ is_known pin.now }
{
    match pin {
        Some(pin) => is_told(pin.power),
        None => true,
    }
}

/// Whether the word is the name of the pin that is open.
pub(crate) fn is_own(pin: &Option<OpenPin<'_>>, word: &Word<'_>) -> bool
    ensures { result ≡ is_own pin.now (token word.now) }
{
    match pin {
        Some(pin) => pin.name.is(word),
        None => false,
    }
}

/// The bytes of its name.
pub(crate) fn pin_name<'a>(pin: &Option<OpenPin<'a>>) -> &'a [u8]
    ensures { result.now ≡ pin_name pin.now }
{
    match pin {
        Some(pin) => pin.name.bytes(),
        None => b"",
    }
}

/// The pin after `USE POWER` or `USE GROUND`, of which the first counts.
fn used(power: bool, pin: Option<OpenPin<'_>>) -> Option<OpenPin<'_>>
    ensures { result ≡ used power pin.entry }
{
    match pin {
        Some(pin) => Some(OpenPin {
            name: pin.name,
            power: Some(pin.power.unwrap_or(power)),
        }),
        None => None,
    }
}

/// What is passed over from a word of the library on.
fn passed_by<'a>(word: &Word<'a>) -> Option<Passing<'a>>
    ensures { result ≡ passed_by (sort_of (token word.now)) (token word.now) }
{
    match sort_of(word) {
        Sort::TextEnd => None,
        Sort::WordSection => Some(Passing::Section(OpenName::new(word.text))),
        Sort::BeginExt => Some(Passing::Extension),
        _ => Some(Passing::Statement),
    }
}

/// A section that is passed over to this name, after one of its words.
fn section_after<'a>(name: &'a [u8], word: &Word<'_>) -> Passing<'a>
    ensures { result ≡ section_after name.now (token word.now) }
{
    if is_word(b"END", word) {
        Passing::SectionEnd(OpenName::new(name))
    } else {
        Passing::Section(OpenName::new(name))
    }
}

/// What a port stands in, or obstructions.
fn around(pin: &Option<OpenPin<'_>>) -> Section
    ensures { result ≡ around pin.now }
{
    match pin {
        Some(_) => Section::Pin,
        None => Section::Macro,
    }
}

/// Whether the word is a name.
pub(crate) fn is_name(word: &Word<'_>) -> bool
    ensures { result ≡ is_name (sort_of (token word.now)) }
{
    match sort_of(word) {
        Sort::Semicolon | Sort::Quoted | Sort::TextEnd => false,
        _ => true,
    }
}

/// Whether the word is `;`.
pub(crate) fn is_stop(word: &Word<'_>) -> bool
    ensures { result ≡ the Sort.Semicolon (sort_of (token word.now)) }
{
    is_word(b";", word)
}

/// Whether the unit is a whole RECT, and not its words up to one that cannot stand there.
fn is_rect(unit: &[Heard<'_, Value>]) -> bool
    ensures { result ≡ is_rect (map heard_token unit.now) }
{
    match unit {
        [_, _, _, _, _, stop] => is_stop(&stop.word),
        _ => false,
    }
}

impl<'a> Standing<'a> {
    /// Where a text begins.
    pub(crate) fn new() -> Standing<'a>
        ensures { result ≡ at_start }
    {
        Standing {
            section: Section::Top,
            passing: None,
            cell: Label::new(b""),
            has_origin: false,
            pin: None,
            last: Sort::Other,
        }
    }

    /// The section in which the next unit stands.
    pub(crate) fn section(&self) -> Section
        ensures { result ≡ section_in self.now }
    {
        match self.passing {
            Some(_) => Section::Passed,
            None => self.section,
        }
    }

    /// Opens a macro.
    fn in_macro(&mut self, name: &Word<'a>)
        ensures { self.new ≡ in_macro (token name.now) self.old }
    {
        self.section = Section::Macro;
        self.cell = Label::new(name.text);
        self.has_origin = false;
        self.pin = None;
    }

    fn after_top(&mut self, first: Sort, name: &Word<'a>)
        ensures { self.new ≡ after_top first (token name.now) self.old }
    {
        match first {
            Sort::Macro => self.in_macro(name),
            Sort::End => self.section = Section::Ended,
            _ => self.passing = Some(Passing::Section(OpenName::new(name.text))),
        }
    }

    /// Opens obstructions.
    fn in_obstructions(&mut self)
        ensures { self.new ≡ after_macro_word Sort.Obs self.old }
    {
        self.section = Section::Port;
        self.pin = None;
    }

    fn after_macro_word(&mut self, word: Sort)
        ensures { self.new ≡ after_macro_word word self.old }
    {
        match word {
            Sort::Obs => self.in_obstructions(),
            Sort::Density => self.passing = Some(Passing::Group),
            _ => self.passing = Some(Passing::Statement),
        }
    }

    /// Opens a pin.
    fn in_pin(&mut self, name: &Word<'a>)
        ensures { self.new ≡ after_macro Sort.Pin (token name.now) self.old }
    {
        self.section = Section::Pin;
        self.pin = Some(OpenPin {
            name: Label::new(name.text),
            power: None,
        });
    }

    fn after_macro(&mut self, first: Sort, name: &Word<'a>)
        ensures { self.new ≡ after_macro first (token name.now) self.old }
    {
        match first {
            Sort::Pin => self.in_pin(name),
            _ => self.section = Section::Top,
        }
    }

    fn after_pin_word(&mut self, word: Sort)
        ensures { self.new ≡ after_pin_word word self.old }
    {
        match word {
            Sort::Port => self.section = Section::Port,
            Sort::Semicolon => self.section = Section::Unfit,
            _ => self.passing = Some(Passing::Statement),
        }
    }

    /// Passes over the rest of a pin, from this word on.
    fn unused(&mut self, word: &Word<'a>)
        ensures { self.new ≡ unused (token word.now) self.old }
    {
        self.passing = Some(section_after(pin_name(&self.pin), word));
        self.section = Section::Macro;
    }

    fn after_other_use(&mut self, known: bool, word: &Word<'a>)
        ensures { self.new ≡ after_other_use known (sort_of (token word.now)) (token word.now) self.old }
    {
        if !known {
            self.unused(word);
            return;
        }
        match sort_of(word) {
            Sort::Semicolon => {}
            _ => self.passing = Some(Passing::Statement),
        }
    }

    /// After `USE POWER` or `USE GROUND`.
    fn after_supply(&mut self, power: bool)
        ensures { self.new ≡ record self.old { section = Section.Supplied; pin = used power self.old.pin } }
    {
        self.section = Section::Supplied;
        self.pin = used(power, self.pin.take());
    }

    fn after_use(&mut self, word: &Word<'a>)
        ensures { self.new ≡ after_use (sort_of (token word.now)) (token word.now) self.old }
    {
        match sort_of(word) {
            Sort::Power => self.after_supply(true),
            Sort::Ground => self.after_supply(false),
            _ => {
                let known = is_known(&self.pin);
                self.after_other_use(known, word);
            }
        }
    }

    fn after_pin(&mut self, first: Sort, word: &Word<'a>)
        ensures { self.new ≡ after_pin first (token word.now) self.old }
    {
        match first {
            Sort::Use => self.after_use(word),
            _ => {
                self.section = if is_own(&self.pin, word) {
                    Section::Macro
                } else {
                    Section::Unfit
                };
            }
        }
    }

    fn after_port_word(&mut self, word: Sort)
        ensures { self.new ≡ after_port_word word self.old }
    {
        match word {
            Sort::End => self.section = around(&self.pin),
            Sort::Semicolon => self.section = Section::Unfit,
            _ => self.passing = Some(Passing::Statement),
        }
    }

    /// After LAYER.
    fn after_layer(&mut self, word: &Word<'a>)
        ensures { self.new ≡ after_port Sort.Layer (sort_of (token word.now)) self.old }
    {
        if is_name(word) {
            self.section = Section::Layered;
            self.passing = Some(Passing::Statement);
        } else {
            self.section = Section::Unfit;
        }
    }

    fn after_port(&mut self, first: Sort, word: &Word<'a>)
        ensures { self.new ≡ after_port first (sort_of (token word.now)) self.old }
    {
        match first {
            Sort::Layer => self.after_layer(word),
            _ => self.section = Section::Unfit,
        }
    }

    fn after_unfit(&mut self, last: Sort, word: &Word<'a>)
        ensures { self.new ≡ after_unfit last (token word.now) self.old }
    {
        match last {
            Sort::End => {
                if is_own(&self.pin, word) {
                    self.section = Section::Macro;
                }
            }
            Sort::Use => self.unused(word),
            _ => {}
        }
    }

    /// Passes over one more word.
    fn pass_over(&mut self, word: &Word<'a>)
        ensures { self.new ≡ after_one Section.Passed (token word.now) self.old }
    {
        self.passing = match self.passing.take() {
            Some(passing) => passing.after(word),
            None => None,
        };
    }

    fn after_one(&mut self, section: Section, word: &Word<'a>)
        ensures { self.new ≡ after_one section (token word.now) self.old }
    {
        match section {
            Section::Top => self.passing = passed_by(word),
            Section::Macro => self.after_macro_word(sort_of(word)),
            Section::Pin => self.after_pin_word(sort_of(word)),
            Section::Supplied => self.section = Section::Pin,
            Section::Port => self.after_port_word(sort_of(word)),
            Section::Layered => self.after_port_word(sort_of(word)),
            Section::Unfit => self.after_unfit(self.last, word),
            Section::Passed => self.pass_over(word),
            Section::Ended => {}
        }
    }

    fn after_two(&mut self, section: Section, first: Sort, second: &Word<'a>)
        ensures { self.new ≡ after_two section first (token second.now) self.old }
    {
        match section {
            Section::Top => self.after_top(first, second),
            Section::Macro => self.after_macro(first, second),
            Section::Pin => self.after_pin(first, second),
            Section::Port => self.after_port(first, second),
            Section::Layered => self.after_port(first, second),
            _ => {}
        }
    }

    fn after_more(&mut self, section: Section, fits: bool)
        ensures { self.new ≡ after_more section fits self.old }
    {
        match section {
            Section::Macro => self.has_origin = true,
            Section::Layered => {
                self.section = if fits {
                    Section::Layered
                } else {
                    Section::Unfit
                };
            }
            _ => {}
        }
    }

    fn after_words(&mut self, section: Section, unit: &[Heard<'a, Value>])
        ensures { self.new ≡ after_words section (map heard_token unit.now) self.old }
    {
        match unit {
            [] => {}
            [word] => self.after_one(section, &word.word),
            [first, second] => self.after_two(section, sort_of(&first.word), &second.word),
            _ => self.after_more(section, is_rect(unit)),
        }
    }

    /// Keeps the sort of the last word.
    fn keep_last(&mut self, unit: &[Heard<'a, Value>])
        ensures { self.new ≡ record self.old { last = last_in Section.Unfit (last_of (map heard_token unit.now)) self.old.last } }
    {
        if let Some(last) = last_heard(unit) {
            self.last = sort_of(&last.word);
        }
    }

    /// Goes on to where one more unit leads.
    pub(crate) fn go_on(&mut self, unit: &[Heard<'a, Value>])
        ensures { self.new ≡ standing_after self.old (map heard_token unit.now) }
    {
        self.after_words(self.section(), unit);
        if let Section::Unfit = self.section() {
            self.keep_last(unit);
        }
    }
}
