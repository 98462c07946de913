ghost use Rattle.certificate_file.specs.Format.{kinds};

use fixed_decimal::DecimalError;
use reading::{ErrorKind, ReadError};
use text_lex::LexKind;

/// Why a certificate is refused, and at which word.
pub type CertError = ReadError<CertKind>;

/// What is wrong with the word. Of two kinds at one word the one that stands earlier here is told.
#[derive(Clone, Copy, Debug, PartialEq, Eq)]
pub enum CertKind {
    /// With this word the words so far begin no certificate of so many nodes.
    Syntax,
    /// The line's name is not that of the node in its place.
    WrongNode,
    /// The word is no whole number, or one beyond 10^37 in magnitude.
    Number(DecimalError),
    /// There was not enough memory.
    Want,
}

impl ErrorKind for CertKind {
    ghost kinds = { kinds };

    fn syntax() -> CertKind {
        CertKind::Syntax
    }

    fn want() -> CertKind {
        CertKind::Want
    }

    // In lines no word is refused for itself.
    fn word(_kind: LexKind) -> CertKind {
        CertKind::Syntax
    }
}
