ghost use Rattle.std.specs.Prelude.{◌≡◌, ◌≢◌, ◌+◌, ◌<◌, ◌≤◌, ◌^◌, length};
ghost use Rattle.text_lex.specs.Bytes.{line_feed, count_of};
ghost use Rattle.text_lex.specs.Split.{Split, IsSplit, NextIs, next_place, place_after};
ghost use Rattle.text_lex.specs.inside.Front.{BeginsWithWord, FeedsAs, after_feeds};
ghost use Rattle.text_lex.specs.Piece.{Item, ends_command as command_ends};
ghost use Rattle.text_lex.specs.inside.Splitting.{CanCount, words_left};

use crate::front::{Front, first_word, gap_len};
use crate::word::{Form, LexError, LexKind, Mode, Word};
use memchr::memchr_iter;
use outside::Place;
use std::marker::Model;

/// The words of a text that are still to come, and how they end: with the text, or with the one word that is refused.
#[derive(Drop)]
pub struct Words<'a> {
    mode: Mode,
    rest: &'a [u8],
    place: Place,
    command_could_begin: bool,
    refusal: Option<LexError>,
}

impl<'a> Model for Words<'a> {
    ghost use Rattle.text_lex.specs.Split.{Split};
    ghost use Rattle.text_lex.specs.inside.Splitting.{words_after, CanCount};

    // The words that are still to come, the place after them, and why the word there is refused, if it is.
    ghost Value = { Split };

    ghost view = { λ w. words_after w.mode w.command_could_begin w.place w.rest.now w.refusal };

    ghost invariant = { λ w. CanCount w.place w.rest.now };
}

/// The place of what stands after a line feed.
fn next_line(place: Place) -> Place
    requires { place.line + 1 < 2 ^ 64 }
    ensures { result ≡ record { line = place.line + 1; word = 1 } }
{
    Place {
        line: place.line + 1,
        word: 1,
    }
}

/// The place of what stands after a word without a line feed.
fn next_word(place: Place) -> Place
    requires { place.word + 1 < 2 ^ 64 }
    ensures { result ≡ record { line = place.line; word = place.word + 1 } }
{
    Place {
        line: place.line,
        word: place.word + 1,
    }
}

/// The place of what stands after a word that may go over lines.
fn after_lines(place: Place, text: &[u8]) -> Place
    requires lines { place.line + length text.now < 2 ^ 64 }
    requires words { place.word + 1 < 2 ^ 64 }
    ensures { result ≡ after_feeds place (count_of line_feed text.now) }
{
    let lines = memchr_iter(b'\n', text).count() as u64;
    if lines == 0 {
        next_word(place)
    } else {
        Place {
            line: place.line + lines,
            word: 1,
        }
    }
}

/// The place of what stands after a word.
fn after(place: Place, form: Form, text: &[u8]) -> Place
    requires lines { place.line + length text.now < 2 ^ 64 }
    requires words { place.word + 1 < 2 ^ 64 }
    requires feeds { FeedsAs form text.now }
    ensures { result ≡ place_after place (Item form text.now) }
{
    match form {
        Form::Bare | Form::Semicolon => next_word(place),
        Form::Break => next_line(place),
        Form::Quoted | Form::Braced => after_lines(place, text),
    }
}

/// Whether a command could begin after a word.
fn ends_command(form: Form) -> bool
    ensures { result ≡ command_ends form }
{
    match form {
        Form::Bare | Form::Quoted | Form::Braced => false,
        Form::Break | Form::Semicolon => true,
    }
}

/// A text from the word in front on, with that word's place.
#[derive(Clone, Copy)]
struct Start<'a> {
    rest: &'a [u8],
    place: Place,
}

/// The text without the gap in front.
fn skip_gap<'a>(mode: Mode, command_could_begin: bool, text: &'a [u8], place: Place) -> Start<'a>
    requires { CanCount place text.now }
    ensures words { words_left mode command_could_begin result.place result.rest.now
        ≡ words_left mode command_could_begin place text.now }
    ensures begins { BeginsWithWord mode command_could_begin result.rest.now }
    ensures counts { CanCount result.place result.rest.now }
{
    let mut rest = text;
    let mut place = place;
    loop {
        let len = gap_len(mode, command_could_begin, rest);
        if len == 0 {
            return Start { rest, place };
        }
        if rest[len - 1] == b'\n' {
            place = next_line(place);
        }
        rest = &rest[len..];
    }
}

impl<'a> Words<'a> {
    /// The words of a text.
    pub fn new(text: &'a [u8], mode: Mode) -> Words<'a>
        ensures words { IsSplit mode text.now result }
        ensures only { (other : Split) → IsSplit mode text.now other → other ≡ result }

        // In lines no word is refused, and in LEF and DEF none for a substitution.
        ensures lines { mode ≡ Mode.Lines → result.refusal ≡ None }
        ensures lef_def { mode ≡ Mode.LefDef → result.refusal ≢ Some LexKind.Substitution }
        ensures count { length result.words ≤ length text.now }
    {
        Words {
            mode,
            rest: text,
            place: Place { line: 1, word: 1 },
            command_could_begin: true,
            refusal: None,
        }
    }

    /// The next word, or None at the end of the text. A refused word is refused again at each later call.
    // Into each caller, whose mode is mostly a constant.
    #[inline(always)]
    pub fn next(&mut self) -> Result<Option<Word<'a>>, LexError>
        ensures { NextIs self.old result self.new }
    {
        if let Some(refusal) = self.refusal {
            return Err(refusal);
        }
        let start = skip_gap(self.mode, self.command_could_begin, self.rest, self.place);
        self.rest = start.rest;
        self.place = start.place;
        match first_word(self.mode, self.rest) {
            Front::End => Ok(None),
            Front::Refused(kind) => {
                let refusal = LexError {
                    place: self.place,
                    kind,
                };
                self.refusal = Some(refusal);
                Err(refusal)
            }
            Front::Word { form, text, rest } => {
                let place = self.place;
                self.rest = rest;
                self.place = after(place, form, text);
                self.command_could_begin = ends_command(form);
                Ok(Some(Word { text, place, form }))
            }
        }
    }

    /// The place of what comes next: of the next word, of the refused word, or of the end of the text.
    pub fn place(&self) -> Place
        ensures { result ≡ next_place self.now }
    {
        match self.refusal {
            Some(refusal) => refusal.place,
            None => skip_gap(self.mode, self.command_could_begin, self.rest, self.place).place,
        }
    }
}
