//! What a unit does to what is said.
ghost use Rattle.std.specs.Prelude.{◌≡◌, None, map};
ghost use Rattle.macro_blocks.specs.Record.{ends_pin, act_of_pin, ends_port, act_of_one, act_of_two, act_of_more, act_of};
ghost use Rattle.macro_blocks.specs.Standing.{is_own};
ghost use Rattle.macro_blocks.specs.Sort.{sort_of};
ghost use Rattle.reading.specs.Word.{token, heard_token};

use crate::section::Section;
use crate::sort::{Sort, sort_of};
use crate::standing::{OpenPin, is_own};
use crate::value::Value;
use reading::{Heard, Word};

/// What a unit does to what is said.
#[derive(Clone, Copy, Debug)]
pub(crate) enum Act {
    Nothing,
    /// It opens a pin or obstructions.
    Opens,
    /// It names the layer of what follows.
    Layer,
    /// It is a RECT, or its words up to one that cannot stand there.
    Draws,
    /// It ends a pin of power, or one of ground.
    EndsPin(bool),
    /// It ends obstructions.
    EndsObstructions,
    /// It ends a macro.
    EndsMacro,
}

/// The end of a pin with its name, or with another word.
fn ends_pin(power: Option<bool>, is_own: bool) -> Act
    ensures { result ≡ ends_pin power is_own }
{
    match (power, is_own) {
        (Some(power), true) => Act::EndsPin(power),
        _ => Act::Nothing,
    }
}

/// What `END` and this word do in a pin.
fn act_of_pin(pin: &Option<OpenPin<'_>>, word: &Word<'_>) -> Act
    ensures { result ≡ act_of_pin pin.now (token word.now) }
{
    match pin {
        Some(open) => ends_pin(open.power, open.name.is(word)),
        None => Act::Nothing,
    }
}

/// What the `END` of a port or of obstructions does.
fn ends_port(pin: &Option<OpenPin<'_>>) -> Act
    ensures { result ≡ ends_port pin.now }
{
    match pin {
        Some(_) => Act::Nothing,
        None => Act::EndsObstructions,
    }
}

/// What a word does between the statements of a macro.
fn act_of_macro(word: &Word<'_>) -> Act
    ensures { result ≡ act_of_one Section.Macro (sort_of (token word.now)) None }
{
    match sort_of(word) {
        Sort::Obs => Act::Opens,
        _ => Act::Nothing,
    }
}

/// What a word does between the statements of a port or of obstructions.
fn act_of_port(word: &Word<'_>, pin: &Option<OpenPin<'_>>) -> Act
    ensures { result ≡ act_of_one Section.Port (sort_of (token word.now)) pin.now }
{
    match sort_of(word) {
        Sort::End => ends_port(pin),
        _ => Act::Nothing,
    }
}

/// What a unit of one word does.
fn act_of_one(section: Section, word: &Word<'_>, pin: &Option<OpenPin<'_>>) -> Act
    ensures { result ≡ act_of_one section (sort_of (token word.now)) pin.now }
{
    match section {
        Section::Macro => act_of_macro(word),
        Section::Port | Section::Layered => act_of_port(word, pin),
        _ => Act::Nothing,
    }
}

/// What a unit of two words does.
fn act_of_two(section: Section, first: Sort, second: &Word<'_>, pin: &Option<OpenPin<'_>>) -> Act
    ensures { result ≡ act_of_two section first (token second.now) pin.now }
{
    match (section, first) {
        (Section::Macro, Sort::Pin) => Act::Opens,
        (Section::Macro, Sort::End) => Act::EndsMacro,
        (Section::Pin, Sort::End) => act_of_pin(pin, second),
        (Section::Port | Section::Layered, Sort::Layer) => Act::Layer,
        (Section::Layered, Sort::Rect) => Act::Draws,
        _ => Act::Nothing,
    }
}

/// What a longer unit does.
fn act_of_more(section: Section) -> Act
    ensures { result ≡ act_of_more section }
{
    match section {
        Section::Layered => Act::Draws,
        _ => Act::Nothing,
    }
}

/// What a unit does in this section.
pub(crate) fn act_of(section: Section, pin: &Option<OpenPin<'_>>, unit: &[Heard<'_, Value>]) -> Act
    ensures { result ≡ act_of section pin.now (map heard_token unit.now) }
{
    match unit {
        [] => Act::Nothing,
        [word] => act_of_one(section, &word.word, pin),
        [first, second] => act_of_two(section, sort_of(&first.word), &second.word, pin),
        _ => act_of_more(section),
    }
}
