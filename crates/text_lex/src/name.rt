ghost use Rattle.std.specs.Prelude.{◌↔◌, IsTrue};
ghost use Rattle.text_lex.specs.Name.{IsName};

use crate::front::plain_len;
use crate::word::Mode;

/// Whether the bytes are a name of LEF, DEF and scripts: one bare word of LEF and DEF, other than `;`.
/// So they are not empty, have no white space, and begin with neither `#` nor `"`.
pub fn is_name(text: &[u8]) -> bool
    ensures { IsTrue result ↔ IsName text.now }
{
    if text.is_empty() || text == b";".as_slice() || text[0] == b'#' || text[0] == b'"' {
        return false;
    }
    plain_len(Mode::LefDef, text) == text.len()
}
