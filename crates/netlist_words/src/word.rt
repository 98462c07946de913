//! The words of a line.
ghost use Rattle.std.specs.Prelude.{◌≡◌, ◌<◌, ◌^◌, length};
ghost use Rattle.text_lex.specs.Bytes.{is_white as white_byte};
ghost use Rattle.text_lex.specs.declared.word.Mode.TheVariants.{Lines as lines_mode};
ghost use Rattle.netlist_words.specs.Line.{line_of, words_on, line_end};
ghost use Rattle.netlist_words.specs.Text.{with_form};
ghost use Rattle.netlist_words.specs.inside.Left.{words_in, words_end, IsRun, BeginsAt, CanCountWords, TakesWord};

use crate::line::Line;
use outside::Place;
use reading::{Form, Word};

/// The words of a line that are still to come.
#[derive(Clone, Copy)]
pub(crate) struct LineWords<'a> {
    pub(crate) rest: &'a [u8],
    /// The place of the next one.
    pub(crate) place: Place,
    /// Its form; those after it are bare.
    pub(crate) form: Form,
}

/// Blank, tab or carriage return.
fn is_white(byte: u8) -> bool
    ensures { result ≡ white_byte lines_mode byte }
{
    byte == b' ' || byte == b'\t' || byte == b'\r'
}

/// How many white bytes stand in front, or how many others.
fn run_len(text: &[u8], white: bool) -> usize
    ensures { IsRun white text.now result }
{
    for (i, byte) in text.iter().enumerate() {
        if is_white(*byte) != white {
            return i;
        }
    }
    text.len()
}

/// The bytes of a line from its first word on. A line without words has none.
pub(crate) fn from_first_word<'a>(line: Line<'a>) -> &'a [u8]
    ensures { BeginsAt (words_on (line_of line.entry)) result.now }
{
    &line.bytes[run_len(line.bytes, true)..]
}

impl<'a> LineWords<'a> {
    /// The words of a line, the first of which has this form.
    pub(crate) fn new(line: Line<'a>, form: Form) -> LineWords<'a>
        ensures words { words_in result ≡ with_form form (words_on (line_of line.entry)) }
        ensures end { words_end result ≡ line_end (line_of line.entry) }
        ensures counts { CanCountWords result }
    {
        LineWords {
            rest: line.bytes,
            place: Place {
                line: line.number,
                word: 1,
            },
            form,
        }
    }

    /// The next word.
    pub(crate) fn next(&mut self) -> Option<Word<'a>>
        requires { CanCountWords self.old }
        ensures takes { TakesWord (words_in self.old) result (words_in self.new) }
        ensures end { words_end self.new ≡ words_end self.old }
        ensures counts { CanCountWords self.new }
    {
        let rest = &self.rest[run_len(self.rest, true)..];
        let len = run_len(rest, false);
        self.rest = &rest[len..];
        if len == 0 {
            return None;
        }
        let place = self.place;
        let form = self.form;
        self.place = Place {
            line: place.line,
            word: place.word + 1,
        };
        self.form = Form::Bare;
        Some(Word {
            text: &rest[..len],
            place,
            form,
        })
    }
}
