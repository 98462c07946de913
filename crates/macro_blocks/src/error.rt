ghost use Rattle.std.specs.Prelude.{◌≡◌};
ghost use Rattle.macro_blocks.specs.Format.{kinds, public_kind, public_error};

use crate::number::Bad;
use fixed_decimal::DecimalError;
use reading::{ErrorKind, ReadError};
use text_lex::LexKind;

/// Why the text of blocks is refused, and at which word.
pub type BlocksError = ReadError<BlocksKind>;

/// What is wrong with the word. Of two kinds at one word the one that stands earlier here is told.
#[derive(Clone, Copy, Debug, PartialEq, Eq)]
pub enum BlocksKind {
    /// With this word the words so far begin no LEF library, or it stands after `END` and is not the name of the section
    /// that is open. Where the use of a pin stands after a word that cannot stand in a pin of power or ground, it is the
    /// word POWER or GROUND that tells the use.
    Syntax,
    /// A `"` is not closed by the end of the text.
    BadString,
    /// The word is no number, a number other than 0 that rounds to 0, or one beyond the limit.
    Number(DecimalError),
    /// It is a number other than 0, of the first ORIGIN of a macro.
    Origin,
    /// There was not enough memory.
    Want,
}

/// What the word shows that is the last one read: a kind of its own, or that a word before it is refused.
#[derive(Clone, Copy, Debug, PartialEq, Eq)]
pub(crate) enum Shown {
    Syntax,
    BadString,
    Number(DecimalError),
    Origin,
    /// The word tells that the pin is one of power or ground, and a number that stands in it before is refused.
    Earlier(Bad),
    Want,
}

impl ErrorKind for Shown {
    ghost kinds = { kinds };

    fn syntax() -> Shown {
        Shown::Syntax
    }

    fn want() -> Shown {
        Shown::Want
    }

    fn word(_kind: LexKind) -> Shown {
        Shown::BadString
    }
}

/// The kind of the refusal.
fn public_kind(shown: Shown) -> BlocksKind
    ensures { result ≡ public_kind shown }
{
    match shown {
        Shown::Syntax => BlocksKind::Syntax,
        Shown::BadString => BlocksKind::BadString,
        Shown::Number(error) => BlocksKind::Number(error),
        Shown::Origin => BlocksKind::Origin,
        Shown::Earlier(bad) => BlocksKind::Number(bad.error),
        Shown::Want => BlocksKind::Want,
    }
}

/// The refusal, at the word that it stands at.
pub(crate) fn public_error(shown: ReadError<Shown>) -> BlocksError
    ensures { result ≡ public_error shown }
{
    let kind = public_kind(shown.kind);
    match shown.kind {
        Shown::Earlier(bad) => ReadError {
            place: bad.place,
            kind,
        },
        _ => ReadError {
            place: shown.place,
            kind,
        },
    }
}
