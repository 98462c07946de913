//! The words of the bytes of a text as a format sees them.
ghost use Rattle.std.specs.Prelude.{◌≡◌, [], List, ℕ, IfErr};
ghost use Rattle.reading.specs.Reading.{Text};
ghost use Rattle.reading.specs.Word.{Token, token, form_of, end_at as end_token, word_of};
ghost use Rattle.reading.specs.inside.Items.{words_to_come};
ghost use Rattle.reading.specs.Source.{Steps};
ghost use Rattle.reading.specs.Outcome.{Reads, FitsMode};
ghost use Rattle.reading.specs.Error.{ReadsRecord};
ghost use Rattle.text_lex.specs.Split.{token_of};

use crate::engine::read_words;
use crate::error::{ErrorKind, ReadError};
use crate::grammar::Grammar;
use crate::reader::{Reader, read_by_hand};
use crate::refusal::Refusal;
use crate::source::Source;
use crate::word::{Form, Word};
use outside::Place;
use std::alloc::Global;
use text_lex::{LexError, Mode, Words};

/// The words that the splitter gives, and then the end of the text.
#[derive(Drop)]
struct Items<'a> {
    words: Words<'a>,
    ended: bool,
}

fn form_of(form: text_lex::Form) -> Form
    ensures { result ≡ form_of form }
{
    match form {
        text_lex::Form::Bare => Form::Bare,
        text_lex::Form::Quoted => Form::Quoted,
        text_lex::Form::Braced => Form::Braced,
        text_lex::Form::Break => Form::Break,
        text_lex::Form::Semicolon => Form::Semicolon,
    }
}

fn seen(word: text_lex::Word<'_>) -> Word<'_>
    ensures { token result ≡ word_of (token_of word.entry) }
{
    Word {
        text: word.text,
        place: word.place,
        form: form_of(word.form),
    }
}

/// The end of the text, as a word.
fn end_at(place: Place) -> Word<'static>
    ensures { token result ≡ end_token place }
{
    Word {
        text: &[],
        place,
        form: Form::End,
    }
}

impl<'a> Source<'a> for Items<'a> {
    ghost left = { λ i. words_to_come i.ended i.words };

    // Into each reader of a program, whose mode it then knows.
    #[inline(always)]
    fn next(&mut self) -> Result<Option<Word<'a>>, LexError> {
        if self.ended {
            return Ok(None);
        }
        match self.words.next() {
            Ok(Some(word)) => Ok(Some(seen(word))),
            Ok(None) => {
                self.ended = true;
                Ok(Some(end_at(self.words.place())))
            }
            Err(error) => Err(error),
        }
    }
}

/// Reads a text into the record of the units that it is, or says at which word it is refused,
/// and why.
/// Of the text's words it keeps those of the open unit alone.
pub fn read_text<'a, G: Grammar<'a>>(
    alloc: Global,
    grammar: &G,
    said: &mut G::Record,
    text: &'a [u8],
    mode: Mode,
) -> Result<(), Refusal<G::Kind>>
where
    G::Sort: 'a,
    G::Value: 'a,
    requires { G.holds grammar.now said.old [] }
    ensures reads { Reads mode text.now (G.format grammar.now) (G.holds grammar.now said.new) result }

    // In lines no word is refused for itself, and in LEF and DEF none for a substitution.
    ensures lex { IfErr result (λ refusal. FitsMode mode refusal) }
{
    let mut items = Items {
        words: Words::new(text, mode),
        ended: false,
    };
    read_words(alloc, grammar, said, &mut items)
}

/// Reads a text into the record of the units that it is. The error has the place and the kind of the text's one
/// refusal.
pub fn read_into<'a, G: Grammar<'a>>(
    alloc: Global,
    grammar: &G,
    said: &mut G::Record,
    text: &'a [u8],
    mode: Mode,
) -> Result<(), ReadError<G::Kind>>
where
    G::Sort: 'a,
    G::Value: 'a,
    G::Kind: ErrorKind,
    requires { G.holds grammar.now said.old [] }
    ensures { ReadsRecord G.Kind.kinds mode text.now (G.format grammar.now)
        (λ units told. G.holds grammar.now said.new units) result }
{
    match read_text(alloc, grammar, said, text, mode) {
        Ok(()) => Ok(()),
        Err(refusal) => Err(ReadError::of(refusal)),
    }
}

/// Reads a text by a reader that is written by hand, or says at which word it is refused, and why.
pub fn read_text_by_hand<'a, R: Reader<'a>>(
    reader: &mut R,
    text: &'a [u8],
    mode: Mode,
) -> Result<(), Refusal<R::Kind>>
    requires { R.stands reader.old [] [] }
    ensures reads { Reads mode text.now R.format (λ units. R.stands reader.new units []) result }

    // In lines no word is refused for itself, and in LEF and DEF none for a substitution.
    ensures lex { IfErr result (λ refusal. FitsMode mode refusal) }
{
    let mut items = Items {
        words: Words::new(text, mode),
        ended: false,
    };
    read_by_hand(reader, &mut items)
}
