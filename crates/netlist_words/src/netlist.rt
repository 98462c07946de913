//! The words of a netlist.
ghost use Rattle.std.specs.Prelude.{◌≡◌, ◌≤◌, ◌+◌, ◌∷◌, [], List, length, true, false};
ghost use Rattle.outside.specs.declared.place.Place.{Place as PlaceOf};
ghost use Rattle.reading.specs.Word.{token, end_at};
ghost use Rattle.reading.specs.Source.{IsWhole};
ghost use Rattle.netlist_words.specs.Title.{begins_with};
ghost use Rattle.netlist_words.specs.Line.{Line as LineOf, line_of, line_start, line_end, words_on};
ghost use Rattle.netlist_words.specs.Text.{card_end, without_plus, netlist_text, counted};
ghost use Rattle.netlist_words.specs.inside.Left.{lines_in, words_in, owed_place, after, left_of_line, left_with, left_in, IsBlank, CanCountWords, CanCount, TakesWord};

use crate::class::{Before, Class, again, aside, class_of, opened};
use crate::line::{Line, Lines};
use crate::title::is_title;
use crate::word::{LineWords, from_first_word};
use outside::Place;
use reading::{Form, Source, Word};
use std::marker::Model;
use text_lex::LexError;

/// What is left of a line, and what stands before the next one.
#[derive(Clone, Copy)]
pub(crate) struct Given<'a> {
    /// The place of the end of a card that comes first.
    pending: Option<Place>,
    words: LineWords<'a>,
    /// Whether the line ends with itself, as a range line.
    ends: bool,
    before: Before,
    /// Whether the end of a card is owed.
    owed: bool,
}

/// What is left of a netlist.
#[derive(Clone, Copy)]
pub(crate) struct Cards<'a> {
    given: Given<'a>,
    /// The line that was taken last.
    last: Line<'a>,
    lines: Lines<'a>,
    /// Whether the end of the text has been given.
    ended: bool,
}

/// The words of a netlist that are still to come: those of its cards without comments, without the title, and without
/// the `+` of lines that go on with a card. After the words of each card stands its end, a word of the form `Break` and
/// without text, whose place is that of the first word of the next line that counts, or of the end of the text. A range
/// line after a load's card is part of it; there its first word `*range` is such an end. A `+` line with no card before
/// it begins with an end too, whose text begins with the `+`.
#[derive(Drop)]
pub struct NetlistWords<'a> {
    cards: Cards<'a>,
}

impl<'a> Model for NetlistWords<'a> {
    ghost use Rattle.std.specs.Prelude.{None};
    ghost use Rattle.reading.specs.Reading.{Text};
    ghost use Rattle.reading.specs.Word.{Token};
    ghost use Rattle.netlist_words.specs.inside.Left.{left_in, CanCount};

    // The words that are still to come. None is refused for itself.
    ghost Value = { Text Token };

    ghost view = { λ w. record { words = left_in w.cards; refused = None } };

    ghost invariant = { λ w. CanCount w.cards };
}

/// The end of a card.
fn end_of_card(place: Place) -> Word<'static>
    ensures { token result ≡ card_end place }
{
    Word {
        text: &[],
        place,
        form: Form::Break,
    }
}

/// The end of the text.
fn end_of_text(place: Place) -> Word<'static>
    ensures { token result ≡ end_at place }
{
    Word {
        text: &[],
        place,
        form: Form::End,
    }
}

/// The place of the end of a line.
fn end_place(line: Line<'_>) -> Place
    ensures { result ≡ line_end (line_of line.entry) }
{
    let mut words = LineWords::new(line, Form::Bare);
    while let Some(_) = words.next() {}
    words.place
}

/// The place of the first word of a line.
fn start_place(line: Line<'_>) -> Place
    ensures { result ≡ line_start (line_of line.entry) }
{
    Place {
        line: line.number,
        word: 1,
    }
}

/// The end of a card before a line, if it is owed.
fn owed_at(owed: bool, line: Line<'_>) -> Option<Place>
    ensures { result ≡ owed_place owed (line_start (line_of line.entry)) }
{
    if owed { Some(start_place(line)) } else { None }
}

/// The words of a line that begins with `+`, without it.
fn rest_of_plus<'a>(line: Line<'a>) -> LineWords<'a>
    requires { begins_with 43 line.bytes.now ≡ true }
    ensures words { words_in result ≡ without_plus (words_on (line_of line.entry)) }
    ensures counts { CanCountWords result }
{
    let mut words = LineWords::new(line, Form::Bare);
    match words.next() {
        Some(first) if first.text.len() == 1 => words,
        _ => LineWords {
            rest: &line.bytes[1..],
            place: start_place(line),
            form: Form::Bare,
        },
    }
}

/// What one more line gives, and what stands before the line after it.
fn enter<'a>(before: Before, owed: bool, line: Line<'a>) -> Given<'a>
    ensures left { (lines : List LineOf) (end : PlaceOf) →
        after owed (counted before (line_of line.entry ∷ lines)) end ≡ left_with result lines end }
    ensures counts { CanCountWords result.words }
{
    let front = from_first_word(line);
    match class_of(before, line, front) {
        Class::Passed => Given {
            pending: None,
            words: LineWords {
                rest: &[],
                place: start_place(line),
                form: Form::Bare,
            },
            ends: false,
            before: aside(before),
            owed,
        },
        Class::Begins => Given {
            pending: owed_at(owed, line),
            words: LineWords::new(line, Form::Bare),
            ends: false,
            before: opened(front),
            owed: true,
        },
        Class::GoesOn => Given {
            pending: None,
            words: rest_of_plus(line),
            ends: false,
            before: again(before),
            owed: true,
        },
        Class::Strays => Given {
            pending: owed_at(owed, line),
            words: LineWords::new(line, Form::Break),
            ends: false,
            before: Before::Nothing,
            owed: true,
        },
        Class::Ranges => Given {
            pending: None,
            words: LineWords::new(line, Form::Break),
            ends: true,
            before: Before::Nothing,
            owed: false,
        },
    }
}

impl<'a> Given<'a> {
    /// The next word of the line.
    fn next(&mut self) -> Option<Word<'a>>
        requires { CanCountWords self.old.words }
        ensures takes { TakesWord (left_of_line self.old) result (left_of_line self.new) }
        ensures before { self.new.before ≡ self.old.before }
        ensures owed { self.new.owed ≡ self.old.owed }
        ensures counts { CanCountWords self.new.words }
    {
        if let Some(place) = self.pending {
            self.pending = None;
            return Some(end_of_card(place));
        }
        if let Some(word) = self.words.next() {
            return Some(word);
        }
        if self.ends {
            self.ends = false;
            return Some(end_of_card(self.words.place));
        }
        None
    }
}

/// Nothing left of a line, and no card before.
fn nothing_given() -> Given<'static>
    ensures { IsBlank result }
{
    Given {
        pending: None,
        words: LineWords {
            rest: &[],
            place: Place { line: 1, word: 1 },
            form: Form::Bare,
        },
        ends: false,
        before: Before::Nothing,
        owed: false,
    }
}

impl<'a> Cards<'a> {
    /// The lines of a text but its title.
    fn new(text: &'a [u8]) -> Cards<'a>
        ensures left { left_in result ≡ (netlist_text text.now).words }
        ensures counts { CanCount result }
    {
        let all = Lines {
            number: 1,
            rest: text,
            more: true,
        };
        let mut lines = all;
        match lines.next() {
            Some(first) if is_title(first) => Cards {
                given: nothing_given(),
                last: first,
                lines,
                ended: false,
            },
            _ => Cards {
                given: nothing_given(),
                last: Line {
                    number: 1,
                    bytes: &[],
                },
                lines: all,
                ended: false,
            },
        }
    }

    /// The next word where no line is left.
    fn finish(&mut self) -> Word<'a>
        requires going { self.old.ended ≡ false }
        requires spent { left_of_line self.old.given ≡ [] }
        requires lines { lines_in self.old.lines ≡ [] }
        requires counts { CanCount self.old }
        ensures takes { left_in self.old ≡ token result ∷ left_in self.new }
        ensures counts { CanCount self.new }
    {
        let place = end_place(self.last);
        if self.given.owed {
            self.given.owed = false;
            return end_of_card(place);
        }
        self.ended = true;
        end_of_text(place)
    }

    /// The next word where none is left on the line.
    fn turn(&mut self) -> Word<'a>
        requires going { self.old.ended ≡ false }
        requires spent { left_of_line self.old.given ≡ [] }
        requires counts { CanCount self.old }
        ensures takes { left_in self.old ≡ token result ∷ left_in self.new }
        ensures counts { CanCount self.new }
    {
        loop {
            let Some(line) = self.lines.next() else {
                return self.finish();
            };
            self.last = line;
            self.given = enter(self.given.before, self.given.owed, line);
            if let Some(word) = self.given.next() {
                return word;
            }
        }
    }

    /// The next word.
    fn next(&mut self) -> Option<Word<'a>>
        requires { CanCount self.old }
        ensures takes { TakesWord (left_in self.old) result (left_in self.new) }
        ensures counts { CanCount self.new }
    {
        if self.ended {
            return None;
        }
        if let Some(word) = self.given.next() {
            return Some(word);
        }
        Some(self.turn())
    }
}

impl<'a> NetlistWords<'a> {
    /// The words of a netlist.
    pub fn new(text: &'a [u8]) -> NetlistWords<'a>
        ensures words { result ≡ netlist_text text.now }
        ensures whole { IsWhole result }
        ensures few { length result.words ≤ length text.now + 2 }
    {
        NetlistWords {
            cards: Cards::new(text),
        }
    }
}

impl<'a> Source<'a> for NetlistWords<'a> {
    ghost left = { λ words. words };

    fn next(&mut self) -> Result<Option<Word<'a>>, LexError> {
        Ok(self.cards.next())
    }
}
