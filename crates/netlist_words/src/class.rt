//! What the lines of a netlist are.
ghost use Rattle.std.specs.Prelude.{◌≡◌, List};
ghost use Rattle.reading.specs.Word.{Token};
ghost use Rattle.netlist_words.specs.Class.{has_card, may_range, names_range, class_of, aside, again, opened_by, opened};
ghost use Rattle.netlist_words.specs.Line.{line_of, words_on};
ghost use Rattle.netlist_words.specs.inside.Left.{BeginsAt};

use crate::letter::{Letter, letter_of};
use crate::line::Line;
use crate::title::begins_with;
use crate::word::LineWords;
use reading::Form;

/// What a line is.
#[derive(Clone, Copy, Debug, PartialEq, Eq)]
pub(crate) enum Class {
    /// A comment, or without words.
    Passed,
    /// It begins a card or a dot line.
    Begins,
    /// It goes on with the card before it.
    GoesOn,
    /// It would go on with a card, and none stands before it.
    Strays,
    /// It has the range of the load before it.
    Ranges,
}

/// What stands before a line.
#[derive(Clone, Copy, Debug, PartialEq, Eq)]
pub(crate) enum Before {
    /// No card, a load with its range, or a `+` line that goes on with no card.
    Nothing,
    /// A card of another kind than a load, or a dot line.
    Card,
    /// A load's card, right before.
    Load,
    /// A load's card, with lines after it that were passed over.
    LoadAside,
}

/// Whether a card stands before.
fn has_card(before: Before) -> bool
    ensures { result ≡ has_card before }
{
    match before {
        Before::Nothing => false,
        Before::Card | Before::Load | Before::LoadAside => true,
    }
}

/// Whether a range line may stand here.
fn may_range(before: Before) -> bool
    ensures { result ≡ may_range before }
{
    match before {
        Before::Load => true,
        Before::Nothing | Before::Card | Before::LoadAside => false,
    }
}

/// Whether the first word of a line is `*range`, where its words begin with these bytes.
fn names_range(line: Line<'_>, front: &[u8]) -> bool
    ensures { BeginsAt (words_on (line_of line.entry)) front.now → result ≡ names_range (words_on (line_of line.entry)) }
{
    if !begins_with(b'*', front) {
        return false;
    }
    match LineWords::new(line, Form::Bare).next() {
        Some(word) => word.text == b"*range".as_slice(),
        None => false,
    }
}

/// What the line is whose words begin with these bytes, by what stands before it.
pub(crate) fn class_of(before: Before, line: Line<'_>, front: &[u8]) -> Class
    ensures { BeginsAt (words_on (line_of line.entry)) front.now → result ≡ class_of before (line_of line.entry) }
{
    if begins_with(b'+', line.bytes) {
        return if has_card(before) {
            Class::GoesOn
        } else {
            Class::Strays
        };
    }
    if may_range(before) && names_range(line, front) {
        return Class::Ranges;
    }
    if begins_with(b'*', line.bytes) || front.is_empty() {
        Class::Passed
    } else {
        Class::Begins
    }
}

/// What stands before the next line, where one is passed over.
pub(crate) fn aside(before: Before) -> Before
    ensures { result ≡ aside before }
{
    match before {
        Before::Load => Before::LoadAside,
        Before::Nothing | Before::Card | Before::LoadAside => before,
    }
}

/// What stands before the next line, where one goes on with the card.
pub(crate) fn again(before: Before) -> Before
    ensures { result ≡ again before }
{
    match before {
        Before::LoadAside => Before::Load,
        Before::Nothing | Before::Card | Before::Load => before,
    }
}

/// What stands before the next line, where one begins a card whose words begin with these bytes.
pub(crate) fn opened(front: &[u8]) -> Before
    ensures { (words : List Token) → BeginsAt words front.now → result ≡ opened words }
{
    if front.is_empty() {
        Before::Nothing
    } else {
        opened_by(letter_of(front))
    }
}

/// What stands before the next line, where one begins a card with this letter.
fn opened_by(letter: Letter) -> Before
    ensures { result ≡ opened_by letter }
{
    match letter {
        Letter::Load => Before::Load,
        Letter::Resistor | Letter::Source | Letter::Capacitor | Letter::Other => Before::Card,
    }
}
