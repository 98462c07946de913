ghost use Rattle.std.specs.Prelude.{◌≡◌};
ghost use Rattle.def_wiring.specs.Format.{kinds, public_kind, public_error};

use fixed_decimal::DecimalError;
use outside::Place;
use reading::{ErrorKind, ReadError};
use text_lex::LexKind;

/// Why the text of a design's wiring is refused, and at which word.
pub type WiresError = ReadError<WiresKind>;

/// What is wrong with the word. Of two kinds at one word the one that stands earlier here is told.
#[derive(Clone, Copy, Debug, PartialEq, Eq)]
pub enum WiresKind {
    /// With this word the words so far begin no design, or it is a number that may not stand there for its sign. In a
    /// generated via that stands at its `;`, or at the part of it that is not read. Where the use of a net stands after a
    /// word that cannot stand in one of power or ground, it is the word POWER or GROUND that tells the use.
    Syntax,
    /// A `"` is not closed by the end of the text.
    BadString,
    /// The word is no whole number, or one beyond the limit.
    Number(DecimalError),
    /// It is the name of an entry of VIAS, or of one of SPECIALNETS, before.
    Twice,
    /// It is the name of no generated via before.
    UnknownVia,
    /// It begins metal that is not read: RECT, POLYGON, SHIELD, VIRTUAL, STYLE, MASK or VIA; or with it a segment is
    /// slanted; or it is a point after a via.
    WireForm,
    /// It turns or repeats a via, or is ORIGIN, OFFSET or PATTERN of a generated via.
    ViaForm,
    /// There was not enough memory.
    Want,
}

/// A word that is refused where its entry counts, and where it stands.
#[derive(Clone, Copy, Debug, PartialEq, Eq)]
pub(crate) struct Late {
    pub(crate) place: Place,
    pub(crate) kind: WiresKind,
}

/// What the word shows that is the last one read: a kind of its own, or that a word before it is refused.
#[derive(Clone, Copy, Debug, PartialEq, Eq)]
pub(crate) enum Shown {
    Here(WiresKind),
    Earlier(Late),
}

impl ErrorKind for Shown {
    ghost kinds = { kinds };

    fn syntax() -> Shown {
        Shown::Here(WiresKind::Syntax)
    }

    fn want() -> Shown {
        Shown::Here(WiresKind::Want)
    }

    fn word(_kind: LexKind) -> Shown {
        Shown::Here(WiresKind::BadString)
    }
}

/// The kind of the refusal.
fn public_kind(shown: Shown) -> WiresKind
    ensures { result ≡ public_kind shown }
{
    match shown {
        Shown::Here(kind) => kind,
        Shown::Earlier(late) => late.kind,
    }
}

/// The refusal, at the word that it stands at.
pub(crate) fn public_error(shown: ReadError<Shown>) -> WiresError
    ensures { result ≡ public_error shown }
{
    let kind = public_kind(shown.kind);
    match shown.kind {
        Shown::Earlier(late) => ReadError {
            place: late.place,
            kind,
        },
        Shown::Here(_) => ReadError {
            place: shown.place,
            kind,
        },
    }
}
