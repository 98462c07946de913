//! Lines of words.
ghost use Rattle.std.specs.Prelude.{◌≡◌, ◌++◌, OnOk, map};
ghost use Rattle.std.specs.Fmt.{signed_decimal};
ghost use Rattle.def_writer.specs.Line.{line_of};
ghost use Rattle.def_writer.specs.inside.Line.{spaced};

use itoa::Buffer;
use std::alloc::AllocError;

// Appends a line of these words.
pub(crate) fn append_line(out: &mut Vec<u8>, words: &[&[u8]]) -> Result<(), AllocError>
    ensures { OnOk result (out.new.items ≡ out.old.items ++ line_of (map (λ word. word.now) words.now)) }
{
    append_words(out, words)?;
    out.push(b'\n')?;
    Ok(())
}

// Appends the words with a blank between them.
pub(crate) fn append_words(out: &mut Vec<u8>, words: &[&[u8]]) -> Result<(), AllocError>
    ensures { OnOk result (out.new.items ≡ out.old.items ++ spaced (map (λ word. word.now) words.now)) }
{
    let mut first = true;
    for word in words {
        if !first {
            out.push(b' ')?;
        }
        out.extend_from_slice(word)?;
        first = false;
    }
    Ok(())
}

// The digits of a number, with a minus where it is below 0.
pub(crate) fn digits(buffer: &mut Buffer, number: i64) -> &[u8]
    ensures { result.now ≡ signed_decimal number }
{
    buffer.format(number).as_bytes()
}
