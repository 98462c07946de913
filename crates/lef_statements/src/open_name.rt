ghost use Rattle.std.specs.Prelude.{◌≡◌};
ghost use Rattle.lef_statements.specs.Word.{is_word};
ghost use Rattle.reading.specs.Word.{token};

use crate::word::is_word;
use reading::Word;
use std::marker::Model;

/// The name of a section, with which it ends: a slice of the text.
///
/// A contract sees it as its bytes.
#[derive(Debug, Drop)]
pub struct OpenName<'a> {
    text: &'a [u8],
}

impl<'a> Model for OpenName<'a> {
    ghost use Rattle.std.specs.Prelude.{ℕ, List};

    ghost Value = { List ℕ };

    ghost view = { λ name. name.text.now };
}

impl<'a> OpenName<'a> {
    /// The name of these bytes.
    pub fn new(text: &'a [u8]) -> OpenName<'a>
        ensures { result ≡ text.now }
    {
        OpenName { text }
    }

    /// Whether the word is this name: a bare word of these bytes.
    pub fn is(&self, word: &Word<'_>) -> bool
        ensures { result ≡ is_word self.now (token word.now) }
    {
        is_word(self.text, word)
    }
}
