//! Names in the text.
ghost use Rattle.std.specs.Prelude.{◌≡◌};
ghost use Rattle.lef_statements.specs.Word.{is_word};
ghost use Rattle.reading.specs.Word.{token};

use lef_statements::is_word;
use reading::Word;
use std::marker::Model;

/// A name of the text: a slice of it.
///
/// A contract sees it as its bytes.
#[derive(Debug, Drop)]
pub(crate) struct Label<'a> {
    text: &'a [u8],
}

impl<'a> Model for Label<'a> {
    ghost use Rattle.std.specs.Prelude.{ℕ, List};

    ghost Value = { List ℕ };

    ghost view = { λ name. name.text.now };
}

impl<'a> Label<'a> {
    /// The name of these bytes.
    pub(crate) fn new(text: &'a [u8]) -> Label<'a>
        ensures { result ≡ text.now }
    {
        Label { text }
    }

    /// The bytes of the name.
    pub(crate) fn bytes(&self) -> &'a [u8]
        ensures { result.now ≡ self.now }
    {
        self.text
    }

    /// Whether the word is this name: a bare word of these bytes.
    pub(crate) fn is(&self, word: &Word<'_>) -> bool
        ensures { result ≡ is_word self.now (token word.now) }
    {
        is_word(self.text, word)
    }
}
