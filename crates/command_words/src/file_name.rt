//! The names of files.
ghost use Rattle.std.specs.Prelude.{◌≡◌, ℕ, List, IfOk, IfErr, string_bytes};

use crate::command::WordsError;
use std::alloc::{AllocError, Global};
use std::marker::Model;

/// The name of a file, as it stands in the words. Contracts see its bytes.
#[derive(Drop)]
pub struct FileName {
    text: String,
}

impl Model for FileName {
    ghost Value = { List ℕ };

    ghost view = { λ name. string_bytes name.text };
}

impl FileName {
    /// A copy of the word.
    pub fn new(alloc: Global, word: &str) -> Result<FileName, AllocError>
        ensures { IfOk result (λ name. name ≡ word.now) }
    {
        let text = String::from_str(alloc, word)?;
        Ok(FileName { text })
    }

    /// A copy of the word, in a command.
    pub(crate) fn of(alloc: Global, word: &str) -> Result<FileName, WordsError>
        ensures name { IfOk result (λ name. name ≡ word.now) }
        ensures want { IfErr result (λ error. error ≡ WordsError.Want) }
    {
        match FileName::new(alloc, word) {
            Ok(name) => Ok(name),
            Err(_) => Err(WordsError::Want),
        }
    }

    /// The name as text.
    pub fn as_str(&self) -> &str
        ensures { result.now ≡ self.now }
    {
        self.text.as_str()
    }
}
