ghost use Rattle.std.specs.Prelude.{◌≡◌};
ghost use Rattle.reading.specs.Fault.{told_at};

use outside::Place;
use text_lex::LexKind;

/// A fault that the words of a unit show.
#[derive(Clone, Copy, Debug, PartialEq, Eq)]
pub struct Found<K> {
    /// How many words of the unit stand before the one that is refused.
    pub at: usize,
    /// What is wrong with it.
    pub kind: K,
}

/// Why a text is refused at a word.
#[derive(Clone, Copy, Debug, PartialEq, Eq)]
pub enum Cause<K> {
    /// With this word the words so far are no start of a text.
    Syntax,
    /// The splitter refuses the word for itself.
    Lex(LexKind),
    /// A kind of the format's own.
    Fault(K),
}

/// Why a text has no record.
#[derive(Clone, Copy, Debug, PartialEq, Eq)]
pub enum Refusal<K> {
    /// There was not enough memory.
    Want,
    /// The text is refused at the word that begins here.
    At(Place, Cause<K>),
}

/// What the word says that has so many words of its unit before it, or its fault of this kind.
pub fn told_at<V: Copy, K>(at: usize, told: Result<V, K>) -> Result<V, Found<K>>
    ensures { result ≡ told_at at told }
{
    match told {
        Ok(value) => Ok(value),
        Err(kind) => Err(Found { at, kind }),
    }
}
