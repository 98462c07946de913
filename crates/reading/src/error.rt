//! The error of a format: a place and a kind of its own.
ghost use Rattle.std.specs.Prelude.{◌≡◌};
ghost use Rattle.reading.specs.Error.{Kinds, kind_of, error_of, want_error};

use crate::refusal::{Cause, Refusal};
use outside::Place;
use text_lex::LexKind;

/// Why a text has no record, and at which word.
#[derive(Clone, Copy, Debug, PartialEq, Eq)]
pub struct ReadError<K> {
    /// The word that is refused. At want of memory it says nothing.
    pub place: Place,
    /// What is wrong with it.
    pub kind: K,
}

/// The kinds of a format's errors, with those that the engine finds.
pub trait ErrorKind: Drop {
    ghost kinds: { Kinds Self };

    /// With this word the words so far are no start of a text.
    fn syntax() -> Self
        ensures { result ≡ kinds.syntax };

    /// There was not enough memory.
    fn want() -> Self
        ensures { result ≡ kinds.want };

    /// The splitter refuses the word for itself.
    fn word(kind: LexKind) -> Self
        ensures { result ≡ kinds.word kind };
}

/// The kind of a cause.
fn kind_of<K: ErrorKind>(cause: Cause<K>) -> K
    ensures { result ≡ kind_of K.kinds cause }
{
    match cause {
        Cause::Syntax => K::syntax(),
        Cause::Lex(kind) => K::word(kind),
        Cause::Fault(kind) => kind,
    }
}

impl<K: ErrorKind> ReadError<K> {
    /// Want of memory, which has no place.
    pub fn want() -> ReadError<K>
        ensures { result ≡ want_error K.kinds }
    {
        ReadError {
            place: Place { line: 1, word: 1 },
            kind: K::want(),
        }
    }

    /// The error of a refusal.
    pub(crate) fn of(refusal: Refusal<K>) -> ReadError<K>
        ensures { result ≡ error_of K.kinds refusal }
    {
        match refusal {
            Refusal::Want => ReadError::want(),
            Refusal::At(place, cause) => ReadError {
                place,
                kind: kind_of(cause),
            },
        }
    }
}
