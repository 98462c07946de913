//! The parts of a line of words.
ghost use Rattle.std.specs.Prelude.{◌≡◌, ◌++◌, IfOk, OnOk, codes, decimal};
ghost use Rattle.std.specs.Fmt.{signed_decimal};
ghost use Rattle.refusal_words.specs.Words.{point_words, rect_words};

use geom_rect::Rect;
use itoa::Buffer;
use std::alloc::{AllocError, Global};

/// Words with a name behind them.
pub(crate) fn named(alloc: Global, before: &[u8], name: &[u8]) -> Result<Vec<u8>, AllocError>
    ensures { IfOk result (λ words. words.items ≡ before.now ++ name.now) }
{
    let mut words = Vec::from_slice(alloc, before)?;
    words.extend_from_slice(name)?;
    Ok(words)
}

/// Words with a whole number behind them.
pub(crate) fn numbered(alloc: Global, before: &[u8], number: u64) -> Result<Vec<u8>, AllocError>
    ensures { IfOk result (λ words. words.items ≡ before.now ++ decimal number) }
{
    let mut buffer = Buffer::new();
    named(alloc, before, buffer.format(number).as_bytes())
}

/// Appends words and a name.
pub(crate) fn append_named(
    words: &mut Vec<u8>,
    before: &[u8],
    name: &[u8],
) -> Result<(), AllocError>
    ensures { OnOk result (words.new.items ≡ words.old.items ++ (before.now ++ name.now)) }
{
    words.extend_from_slice(before)?;
    words.extend_from_slice(name)?;
    Ok(())
}

/// Appends a point behind a blank.
pub(crate) fn append_point(words: &mut Vec<u8>, x: i64, y: i64) -> Result<(), AllocError>
    ensures { OnOk result (words.new.items ≡ words.old.items ++ codes " " ++ point_words x y) }
{
    append_number(words, x)?;
    append_number(words, y)?;
    Ok(())
}

/// Appends a whole number behind a blank.
pub(crate) fn append_number(words: &mut Vec<u8>, number: i64) -> Result<(), AllocError>
    ensures { OnOk result (words.new.items ≡ words.old.items ++ codes " " ++ signed_decimal number) }
{
    let mut buffer = Buffer::new();
    words.push(b' ')?;
    words.extend_from_slice(buffer.format(number).as_bytes())?;
    Ok(())
}

/// Appends a count.
pub(crate) fn append_whole(words: &mut Vec<u8>, number: u64) -> Result<(), AllocError>
    ensures { OnOk result (words.new.items ≡ words.old.items ++ decimal number) }
{
    let mut buffer = Buffer::new();
    words.extend_from_slice(buffer.format(number).as_bytes())?;
    Ok(())
}

/// Appends a rectangle behind a blank.
pub(crate) fn append_rect(words: &mut Vec<u8>, rect: Rect) -> Result<(), AllocError>
    ensures { OnOk result (words.new.items ≡ words.old.items ++ codes " " ++ rect_words rect) }
{
    append_point(words, rect.x1, rect.y1)?;
    append_point(words, rect.x2, rect.y2)?;
    Ok(())
}
