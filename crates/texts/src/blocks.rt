//! The blocks of a LEF library: `macro NAME`, then for each pin `pin NAME POWER|GROUND` and its `rect LAYER X1 Y1 X2 Y2`, then
//! `obs LAYER X1 Y1 X2 Y2`.
use crate::line::{add_number, add_word, begin, end, number_kind, refusal};
use crate::{Printed, RECORD};
use macro_blocks::{BlockMacro, BlockPin, BlockRect, Blocks, BlocksKind, read_blocks};
use std::alloc::{AllocError, Global};

/// The kind of a refusal, as it is printed. Want of memory is no kind.
fn kind_text(kind: BlocksKind) -> Option<&'static [u8]> {
    match kind {
        BlocksKind::Syntax => Some(b"Syntax"),
        BlocksKind::BadString => Some(b"BadString"),
        BlocksKind::Number(error) => Some(number_kind(error)),
        BlocksKind::Origin => Some(b"Origin"),
        BlocksKind::Want => None,
    }
}

fn add_rect(out: &mut Vec<u8>, first: &[u8], rect: &BlockRect) -> Result<(), AllocError> {
    begin(out, first)?;
    add_word(out, rect.layer.bytes())?;
    add_number(out, i128::from(rect.x1))?;
    add_number(out, i128::from(rect.y1))?;
    add_number(out, i128::from(rect.x2))?;
    add_number(out, i128::from(rect.y2))?;
    end(out)
}

fn add_pin(out: &mut Vec<u8>, pin: &BlockPin) -> Result<(), AllocError> {
    begin(out, b"pin")?;
    add_word(out, pin.name.bytes())?;
    add_word(out, if pin.power { b"POWER" } else { b"GROUND" })?;
    end(out)?;
    for rect in pin.rects.as_slice() {
        add_rect(out, b"rect", rect)?;
    }
    Ok(())
}

fn add_macro(out: &mut Vec<u8>, cell: &BlockMacro) -> Result<(), AllocError> {
    begin(out, b"macro")?;
    add_word(out, cell.name.bytes())?;
    end(out)?;
    for pin in cell.pins.as_slice() {
        add_pin(out, pin)?;
    }
    for rect in cell.obstructions.as_slice() {
        add_rect(out, b"obs", rect)?;
    }
    Ok(())
}

fn record(alloc: Global, blocks: &Blocks) -> Result<Vec<u8>, AllocError> {
    let mut out = Vec::new(alloc);
    for cell in blocks.macros.as_slice() {
        add_macro(&mut out, cell)?;
    }
    Ok(out)
}

/// What is printed of the text of blocks.
pub(crate) fn told(alloc: Global, text: &[u8]) -> Result<Printed, AllocError> {
    match read_blocks(alloc, text) {
        Ok(blocks) => Ok(Printed {
            text: record(alloc, &blocks)?,
            status: RECORD,
        }),
        Err(error) => refusal(alloc, error.place, kind_text(error.kind)),
    }
}
