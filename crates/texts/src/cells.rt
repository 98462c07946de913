//! The cells of a LEF library: `site NAME WIDTH HEIGHT`, then `macro NAME block|other WIDTH HEIGHT`.
use crate::line::{add_number, add_word, begin, end, number_kind, refusal};
use crate::{Printed, RECORD};
use lef_cells::{Cells, CellsKind, MacroCell, Site, read_cells};
use std::alloc::{AllocError, Global};

/// The kind of a refusal, as it is printed. Want of memory is no kind.
fn kind_text(kind: CellsKind) -> Option<&'static [u8]> {
    match kind {
        CellsKind::Syntax => Some(b"Syntax"),
        CellsKind::BadString => Some(b"BadString"),
        CellsKind::Number(error) => Some(number_kind(error)),
        CellsKind::Twice => Some(b"Twice"),
        CellsKind::Want => None,
    }
}

fn add_site(out: &mut Vec<u8>, site: &Site) -> Result<(), AllocError> {
    begin(out, b"site")?;
    add_word(out, site.name.bytes())?;
    add_number(out, i128::from(site.width))?;
    add_number(out, i128::from(site.height))?;
    end(out)
}

fn add_macro(out: &mut Vec<u8>, cell: &MacroCell) -> Result<(), AllocError> {
    begin(out, b"macro")?;
    add_word(out, cell.name.bytes())?;
    add_word(out, if cell.block { b"block" } else { b"other" })?;
    add_number(out, i128::from(cell.width))?;
    add_number(out, i128::from(cell.height))?;
    end(out)
}

fn record(alloc: Global, cells: &Cells) -> Result<Vec<u8>, AllocError> {
    let mut out = Vec::new(alloc);
    for site in cells.sites.as_slice() {
        add_site(&mut out, site)?;
    }
    for cell in cells.macros.as_slice() {
        add_macro(&mut out, cell)?;
    }
    Ok(out)
}

/// What is printed of the text of cells.
pub(crate) fn told(alloc: Global, text: &[u8]) -> Result<Printed, AllocError> {
    match read_cells(alloc, text) {
        Ok(cells) => Ok(Printed {
            text: record(alloc, &cells)?,
            status: RECORD,
        }),
        Err(error) => refusal(alloc, error.place, kind_text(error.kind)),
    }
}
