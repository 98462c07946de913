//! A format for the tests of the engine, over words that no splitter made: a pattern with a repetition, whose units have any length.
ghost use Rattle.std.specs.Prelude.{◌≡◌, [], ◌∷◌, ◌++◌, List, drop, map, cond, None};
ghost use Rattle.reading.specs.Grammar.{IsRegular};
ghost use Rattle.reading.specs.Word.{Token, token, end_at};
ghost use Rattle.reading_tests.specs.Trial.{sort_number, all_sorts, sort_of, listed, few, pattern_of, trial_format};

use outside::Place;
use reading::Rule::{self, Many, One, Or, Then};
use reading::{Form, Found, Grammar, Heard, Numbered, Source, Word};
use std::alloc::AllocError;
use text_lex::LexError;

/// The sorts of the words: the forms that they have.
#[derive(Clone, Copy, Debug)]
pub enum Sort {
    First,
    Middle,
    Last,
    Other,
    End,
}

impl Numbered for Sort {
    ghost number = { sort_number };

    ghost all = { all_sorts };

    fn number(self) -> usize {
        self as usize
    }

    ghost listed = { listed };

    ghost few = { few };
}

fn sort_of(form: Form) -> Sort
    ensures { result ≡ sort_of form }
{
    match form {
        Form::Quoted => Sort::First,
        Form::Bare => Sort::Middle,
        Form::Braced => Sort::Last,
        Form::Break | Form::Semicolon => Sort::Other,
        Form::End => Sort::End,
    }
}

const FIRST: Rule<'static, Sort> = One(&[Sort::First]);

const LAST: Rule<'static, Sort> = One(&[Sort::Last]);

const END: Rule<'static, Sort> = One(&[Sort::End]);

const MIDDLE: Rule<'static, Sort> = One(&[Sort::Middle]);

/// Any number of words.
const MIDDLES: Rule<'static, Sort> = Many(&MIDDLE);
/// Any number of words and a last one.
const REST: Rule<'static, Sort> = Then(&MIDDLES, &LAST);
/// A first word, any number of others and a last one.
const LIST: Rule<'static, Sort> = Then(&FIRST, &REST);
/// A list or the end of the text.
const UNIT: Rule<'static, Sort> = Or(&LIST, &END);

/// Lists of any number of words between one in quotes and one in braces. The record has the number of words of the
/// longest one.
pub struct Lists;

impl<'a> Grammar<'a> for Lists {
    type Sort = Sort;

    type Section = Sort;

    type Record = usize;

    type Kind = u8;

    type Value = ();

    ghost format = { λ _. trial_format };

    ghost pattern = { pattern_of };

    ghost says = { λ _ units part value. Unit {0} };

    ghost holds = { λ _ said units. Unit {0} };

    fn sort(&self, _: &usize, word: &Word<'a>) -> Sort {
        sort_of(word.form)
    }

    fn section(&self, _: &usize) -> Sort {
        Sort::Middle
    }

    fn rule(_: Sort) -> Rule<'a, Sort> {
        UNIT
    }

    fn hear(&self, _: &usize, _: &[Heard<'a, ()>], _: &Word<'a>, _: Sort) -> Result<(), Found<u8>> {
        Ok(())
    }

    fn ends(&self, _: &usize) -> bool {
        false
    }

    fn take(&self, said: &mut usize, unit: &[Heard<'a, ()>]) -> Result<(), AllocError> {
        *said = (*said).max(unit.len());
        Ok(())
    }

    fn regular(&self)
        ensures { IsRegular all_sorts pattern_of trial_format }
    {}
}

/// Words that stand in a list, and after them the end of the text.
#[derive(Drop)]
pub struct Listed<'a> {
    pub words: &'a [Word<'a>],
    pub told: usize,
    pub ended: bool,
}

impl<'a> Source<'a> for Listed<'a> {
    ghost left = { λ s. cond s.ended
        (record { words = []; refused = None })
        (record { words = map token (drop s.told s.words.now) ++ end_at (record { line = 2; word = 1 }) ∷ []; refused = None }) };

    fn next(&mut self) -> Result<Option<Word<'a>>, LexError> {
        if self.ended {
            return Ok(None);
        }
        let Some(word) = self.words.get(self.told) else {
            self.ended = true;
            return Ok(Some(Word {
                text: &[],
                place: Place { line: 2, word: 1 },
                form: Form::End,
            }));
        };
        self.told += 1;
        Ok(Some(*word))
    }
}
