//! Wave files. The first line of the text has the names of the groups, with single blanks between them, and the wave file
//! follows it; a refusal counts lines from the next one. `change STEP NODE LOW HIGH`.
use crate::line::{add_number, begin, end, number_kind, refusal};
use crate::{Printed, RECORD};
use outside::Name;
use std::alloc::{AllocError, Global};
use wave_file::{Change, Waves, WavesKind, read_group_waves};

/// The kind of a refusal, as it is printed. Want of memory is no kind.
fn kind_text(kind: WavesKind) -> Option<&'static [u8]> {
    match kind {
        WavesKind::Syntax => Some(b"Syntax"),
        WavesKind::Number(error) => Some(number_kind(error)),
        WavesKind::UnknownNode => Some(b"UnknownNode"),
        WavesKind::Twice => Some(b"Twice"),
        WavesKind::Falling => Some(b"Falling"),
        WavesKind::Want => None,
    }
}

fn add_change(out: &mut Vec<u8>, change: &Change) -> Result<(), AllocError> {
    begin(out, b"change")?;
    add_number(out, i128::from(change.step))?;
    add_number(out, i128::from(change.node))?;
    add_number(out, i128::from(change.low))?;
    add_number(out, i128::from(change.high))?;
    end(out)
}

fn record(alloc: Global, waves: &Waves) -> Result<Vec<u8>, AllocError> {
    let mut out = Vec::new(alloc);
    for change in waves.changes.as_slice() {
        add_change(&mut out, change)?;
    }
    Ok(out)
}

/// The names on a line.
fn names_on(alloc: Global, line: &[u8]) -> Result<Vec<Name>, AllocError> {
    let mut names = Vec::new(alloc);
    for name in line.split(|byte| *byte == b' ') {
        names.push(Name::new(alloc, name)?)?;
    }
    Ok(names)
}

/// The first line of a text, and what follows it.
fn first_line(text: &[u8]) -> (&[u8], &[u8]) {
    let mut lines = text.splitn(2, |byte| *byte == b'\n');
    let first = lines.next().unwrap_or(b"");
    (first, lines.next().unwrap_or(b""))
}

/// What is printed of a wave file.
pub(crate) fn told(alloc: Global, text: &[u8]) -> Result<Printed, AllocError> {
    let (line, text) = first_line(text);
    let names = names_on(alloc, line)?;
    match read_group_waves(alloc, text, &names) {
        Ok(waves) => Ok(Printed {
            text: record(alloc, &waves)?,
            status: RECORD,
        }),
        Err(error) => refusal(alloc, error.place, kind_text(error.kind)),
    }
}
