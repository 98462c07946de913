ghost use Rattle.std.specs.Prelude.{◌≡◌, IfOk, length};
ghost use Rattle.certificate_file.specs.Format.{ReadsCertificate};

use crate::error::CertError;
use crate::format::CertificateFormat;
use crate::held::Held;
use crate::lists::Lists;
use entry_list::Entries;
use outside::Name;
use reading::{ReadError, read_into};
use std::alloc::Global;
use text_lex::Mode;

/// Reads the certificate of the nodes with these names.
///
/// A number is a `-` or none and digits, of yV, at most 10^37 in magnitude.
///
/// Errors: the refusal at the earliest word, and there of the first kind, as `CertKind` lists them; `Want` for want of
/// memory.
pub fn read_certificate(alloc: Global, text: &[u8], names: &[Name]) -> Result<Lists, CertError>
    ensures reads { ReadsCertificate names.now text.now result }
    ensures high_count { IfOk result (λ lists. length lists.high ≡ length names.now) }
    ensures low_count { IfOk result (λ lists. length lists.low ≡ length names.now) }
{
    let Ok(mut held) = Held::new(alloc, names.len()) else {
        return Err(ReadError::want());
    };
    match read_into(
        alloc,
        &CertificateFormat { names },
        &mut held,
        text,
        Mode::Lines,
    ) {
        Ok(()) => Ok(Lists {
            high: Entries::new(held.high),
            low: Entries::new(held.low),
        }),
        Err(error) => Err(error),
    }
}
