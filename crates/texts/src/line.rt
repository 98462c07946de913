//! Lines of words with single blanks.
use crate::{Printed, REFUSED};
use fixed_decimal::{DecimalError, print};
use outside::Place;
use std::alloc::{AllocError, Global};

/// One more word of the line, after a blank.
pub(crate) fn add_word(out: &mut Vec<u8>, word: &[u8]) -> Result<(), AllocError> {
    out.push(b' ')?;
    out.extend_from_slice(word)
}

/// One more number of the line, after a blank.
pub(crate) fn add_number(out: &mut Vec<u8>, value: i128) -> Result<(), AllocError> {
    out.push(b' ')?;
    print(out, value, 0)
}

/// The first word of a line.
pub(crate) fn begin(out: &mut Vec<u8>, word: &[u8]) -> Result<(), AllocError> {
    out.extend_from_slice(word)
}

/// The end of the line.
pub(crate) fn end(out: &mut Vec<u8>) -> Result<(), AllocError> {
    out.push(b'\n')?;
    Ok(())
}

/// The kind of a number that is refused, as a refusal prints it.
pub(crate) fn number_kind(error: DecimalError) -> &'static [u8] {
    match error {
        DecimalError::NotNumber => b"Number NotNumber",
        DecimalError::Vanishes => b"Number Vanishes",
        DecimalError::Range => b"Number Range",
    }
}

/// The line of a refusal.
pub(crate) fn refusal(
    alloc: Global,
    place: Place,
    kind: Option<&[u8]>,
) -> Result<Printed, AllocError> {
    let Some(kind) = kind else {
        return Err(AllocError);
    };
    let mut text = Vec::new(alloc);
    print(&mut text, i128::from(place.line), 0)?;
    text.push(b':')?;
    print(&mut text, i128::from(place.word), 0)?;
    text.push(b':')?;
    add_word(&mut text, kind)?;
    end(&mut text)?;
    Ok(Printed {
        text,
        status: REFUSED,
    })
}
