// The words of a command line.
ghost use Rattle.std.specs.Prelude.{◌≡◌, ◌<◌, ◌++◌, [], ◌∷◌, ℕ, List, map, length, slice_index_or, string_bytes, IfOk, OnOk, OnErr};

use std::alloc::{AllocError, Global};
use std::marker::Model;

/// The words of a command line, each a text, without the program's name.
#[derive(Debug, Drop)]
pub struct Argv {
    alloc: Global,
    words: Vec<String>,
}

impl Model for Argv {
    ghost Value = { List (List ℕ) };

    ghost view = { λ argv. map string_bytes argv.words.items };
}

impl Argv {
    /// No words. It fails only for want of memory.
    pub fn new(alloc: Global) -> Result<Argv, AllocError>
        ensures { IfOk result (λ argv. argv ≡ []) }
    {
        Ok(Argv {
            alloc,
            words: Vec::new(alloc),
        })
    }

    /// Adds a word at the end. It fails only for want of memory, and then leaves the words as they were.
    pub fn push(&mut self, word: &str) -> Result<(), AllocError>
        ensures added { OnOk result (self.new ≡ self.old ++ word.now ∷ []) }
        ensures kept { OnErr result (self.new ≡ self.old) }
    {
        let owned = String::from_str(self.alloc, word)?;
        self.words.push(owned)?;
        Ok(())
    }

    /// How many words there are.
    pub fn count(&self) -> usize
        ensures { result ≡ length self.now }
    {
        self.words.len()
    }

    /// The word at a place, counted from 0.
    pub fn word(&self, at: usize) -> &str
        requires { at < length self.now }
        ensures { result.now ≡ slice_index_or self.now at [] }
    {
        self.words[at].as_str()
    }
}
