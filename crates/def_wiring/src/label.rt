//! Words of the text that are kept: the bytes of one, and those of the entry that is open.
ghost use Rattle.std.specs.Prelude.{◌≡◌, ◌∷◌, ◌++◌, [], length, OnOk};
ghost use Rattle.def_wiring.specs.Words.{text_at, text_or_one};
ghost use Rattle.reading.specs.Word.{token};

use reading::Word;
use std::alloc::{AllocError, Global};
use std::marker::Model;

/// The bytes of a word: a slice of the text.
///
/// A contract sees it as its bytes.
#[derive(Debug, Drop)]
pub(crate) struct Label<'a> {
    text: &'a [u8],
}

impl<'a> Model for Label<'a> {
    ghost use Rattle.std.specs.Prelude.{ℕ, List};

    ghost Value = { List ℕ };

    ghost view = { λ label. label.text.now };
}

impl<'a> Label<'a> {
    pub(crate) fn new(text: &'a [u8]) -> Label<'a>
        ensures { result ≡ text.now }
    {
        Label { text }
    }

    pub(crate) fn bytes(&self) -> &'a [u8]
        ensures { result.now ≡ self.now }
    {
        self.text
    }

    /// The same bytes once more.
    pub(crate) fn copy(&self) -> Label<'a>
        ensures { result ≡ self.now }
    {
        Label { text: self.text }
    }
}

/// The words of an entry of VIAS, as far as they are those of a generated via: 27 at most.
///
/// A contract sees them as a list.
#[derive(Debug, Drop)]
pub(crate) struct Words<'a> {
    words: Vec<Word<'a>>,
}

impl<'a> Model for Words<'a> {
    ghost use Rattle.std.specs.Prelude.{List, map};
    ghost use Rattle.reading.specs.Word.{Token, token};

    ghost Value = { List Token };

    ghost view = { λ kept. map token kept.words.items };
}

impl<'a> Words<'a> {
    pub(crate) fn new(alloc: Global) -> Words<'a>
        ensures { result ≡ [] }
    {
        Words {
            words: Vec::new(alloc),
        }
    }

    /// How many they are.
    pub(crate) fn len(&self) -> usize
        ensures { result ≡ length self.now }
    {
        self.words.len()
    }

    /// Begins another entry.
    pub(crate) fn clear(&mut self)
        ensures { self.new ≡ [] }
    {
        self.words.clear();
    }

    pub(crate) fn push(&mut self, word: &Word<'a>) -> Result<(), AllocError>
        ensures { OnOk result (self.new ≡ self.old ++ token word.now ∷ []) }
    {
        self.words.push(*word)?;
        Ok(())
    }

    /// The bytes of the word that has n words before it.
    pub(crate) fn text_at(&self, n: usize) -> &'a [u8]
        ensures { result.now ≡ text_at n self.now }
    {
        match self.words.get(n) {
            Some(word) => word.text,
            None => b"",
        }
    }

    /// The same, or 1 where there is no such word.
    pub(crate) fn text_or_one(&self, n: usize) -> &'a [u8]
        ensures { result.now ≡ text_or_one n self.now }
    {
        match self.words.get(n) {
            Some(word) => word.text,
            None => b"1",
        }
    }
}
