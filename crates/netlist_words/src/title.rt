//! The title.
ghost use Rattle.std.specs.Prelude.{◌≡◌, ◌&&◌, not};
ghost use Rattle.netlist_words.specs.Letter.{may_have_dc, is_dc as dc_text, is_mark as mark_text};
ghost use Rattle.netlist_words.specs.Line.{line_of, words_on};
ghost use Rattle.netlist_words.specs.Title.{begins_with as begins_by, is_dot as dot_words, has_card_form as card_words, is_title as title_line};

use crate::letter::{Letter, is_dc, is_mark, letter_of, may_be_value, may_have_dc};
use crate::line::Line;
use crate::word::LineWords;
use reading::Form;

/// Whether the bytes begin with this one.
pub(crate) fn begins_with(byte: u8, bytes: &[u8]) -> bool
    ensures { result ≡ begins_by byte bytes.now }
{
    match bytes.first() {
        Some(first) => *first == byte,
        None => false,
    }
}

/// Whether the line is a dot line.
fn is_dot(line: Line<'_>) -> bool
    ensures { result ≡ dot_words (words_on (line_of line.entry)) }
{
    match LineWords::new(line, Form::Bare).next() {
        Some(first) => begins_with(b'.', first.text),
        None => false,
    }
}

/// Whether the line has the form of a card.
fn has_card_form(line: Line<'_>) -> bool
    ensures { result ≡ card_words (words_on (line_of line.entry)) }
{
    let mut words = LineWords::new(line, Form::Bare);
    let Some(card) = words.next() else {
        return false;
    };
    let Some(_) = words.next() else {
        return false;
    };
    let Some(_) = words.next() else {
        return false;
    };
    let Some(fourth) = words.next() else {
        return false;
    };
    let letter = letter_of(card.text);
    let Some(fifth) = words.next() else {
        return may_be_value(letter, fourth.text);
    };
    match words.next() {
        Some(_) => false,
        None => has_dc_value(letter, fourth.text, fifth.text),
    }
}

/// Whether a card with this letter may have `DC` and this value.
fn has_dc_value(letter: Letter, dc: &[u8], value: &[u8]) -> bool
    ensures { result ≡ (may_have_dc letter && dc_text dc.now && not (mark_text value.now)) }
{
    may_have_dc(letter) && is_dc(dc) && !is_mark(value)
}

/// Whether the first line of a text is the title.
pub(crate) fn is_title(line: Line<'_>) -> bool
    ensures { result ≡ title_line (line_of line.entry) }
{
    !begins_with(b'*', line.bytes) && !is_dot(line) && !has_card_form(line)
}
