//! A placed design: its name, units and die, then `row NAME SITE X Y ORIENT COUNT STEP`, `component NAME CELL X Y
//! ORIENT`, `blockage LAYER SPACING X1 Y1 X2 Y2`, and `region NAME` with its rectangles. An absent value is `none`.
use crate::line::{add_number, add_word, begin, end, number_kind, refusal};
use crate::{Printed, RECORD};
use def_design::{
    Blockage, Component, DefError, DefKind, Design, Fence, Item, Row, read_design, read_placed,
};
use geom_rect::{Orient, Rect};
use std::alloc::{AllocError, Global};

/// The kind of a refusal, as it is printed. Want of memory is no kind.
fn kind_text(kind: DefKind) -> Option<&'static [u8]> {
    match kind {
        DefKind::Syntax => Some(b"Syntax"),
        DefKind::BadString => Some(b"BadString"),
        DefKind::Number(error) => Some(number_kind(error)),
        DefKind::Twice => Some(b"Twice"),
        DefKind::Polygon => Some(b"Polygon"),
        DefKind::RowForm => Some(b"RowForm"),
        DefKind::AlreadyRouted => Some(b"AlreadyRouted"),
        DefKind::Missing(Item::Design) => Some(b"Missing Design"),
        DefKind::Missing(Item::Units) => Some(b"Missing Units"),
        DefKind::Missing(Item::DieArea) => Some(b"Missing DieArea"),
        DefKind::Want => None,
    }
}

fn orient_text(orient: Orient) -> &'static [u8] {
    match orient {
        Orient::N => b"N",
        Orient::S => b"S",
        Orient::W => b"W",
        Orient::E => b"E",
        Orient::FN => b"FN",
        Orient::FS => b"FS",
        Orient::FW => b"FW",
        Orient::FE => b"FE",
    }
}

fn add_rect(out: &mut Vec<u8>, rect: Rect) -> Result<(), AllocError> {
    for value in [rect.x1, rect.y1, rect.x2, rect.y2] {
        add_number(out, i128::from(value))?;
    }
    Ok(())
}

fn add_option(out: &mut Vec<u8>, value: Option<i64>) -> Result<(), AllocError> {
    match value {
        Some(value) => add_number(out, i128::from(value)),
        None => add_word(out, b"none"),
    }
}

fn add_head(out: &mut Vec<u8>, design: &Design) -> Result<(), AllocError> {
    begin(out, b"design")?;
    add_word(out, design.name.bytes())?;
    end(out)?;
    begin(out, b"units")?;
    add_number(out, i128::from(design.units))?;
    end(out)?;
    begin(out, b"die")?;
    add_rect(out, design.die)?;
    end(out)
}

fn add_row(out: &mut Vec<u8>, row: &Row) -> Result<(), AllocError> {
    begin(out, b"row")?;
    add_word(out, row.name.bytes())?;
    add_word(out, row.site.bytes())?;
    add_number(out, i128::from(row.x))?;
    add_number(out, i128::from(row.y))?;
    add_word(out, orient_text(row.orient))?;
    add_number(out, i128::from(row.count))?;
    add_option(out, row.step)?;
    end(out)
}

fn add_component(out: &mut Vec<u8>, component: &Component) -> Result<(), AllocError> {
    begin(out, b"component")?;
    add_word(out, component.name.bytes())?;
    add_word(out, component.cell.bytes())?;
    match component.place {
        None => add_word(out, b"none")?,
        Some((x, y, orient)) => {
            add_number(out, i128::from(x))?;
            add_number(out, i128::from(y))?;
            add_word(out, orient_text(orient))?;
        }
    }
    end(out)
}

fn add_blockage(out: &mut Vec<u8>, blockage: &Blockage) -> Result<(), AllocError> {
    begin(out, b"blockage")?;
    add_word(out, blockage.layer.bytes())?;
    add_option(out, blockage.spacing)?;
    add_rect(out, blockage.rect)?;
    end(out)
}

fn add_region(out: &mut Vec<u8>, region: &Fence) -> Result<(), AllocError> {
    begin(out, b"region")?;
    add_word(out, region.name.bytes())?;
    for rect in region.rects.as_slice() {
        add_word(out, b"(")?;
        add_rect(out, *rect)?;
        add_word(out, b")")?;
    }
    end(out)
}

fn record(alloc: Global, design: &Design) -> Result<Vec<u8>, AllocError> {
    let mut out = Vec::new(alloc);
    add_head(&mut out, design)?;
    for row in design.rows.as_slice() {
        add_row(&mut out, row)?;
    }
    for component in design.components.as_slice() {
        add_component(&mut out, component)?;
    }
    for blockage in design.blockages.as_slice() {
        add_blockage(&mut out, blockage)?;
    }
    for region in design.regions.as_slice() {
        add_region(&mut out, region)?;
    }
    Ok(out)
}

/// What is printed of a design, or of the refusal of its text.
fn printed(alloc: Global, read: Result<Design, DefError>) -> Result<Printed, AllocError> {
    match read {
        Ok(design) => Ok(Printed {
            text: record(alloc, &design)?,
            status: RECORD,
        }),
        Err(error) => refusal(alloc, error.place, kind_text(error.kind)),
    }
}

/// What is printed of the text of a design without wires.
pub(crate) fn told(alloc: Global, text: &[u8]) -> Result<Printed, AllocError> {
    printed(alloc, read_design(alloc, text))
}

/// What is printed of the text of a design that may have wires.
pub(crate) fn placed(alloc: Global, text: &[u8]) -> Result<Printed, AllocError> {
    printed(alloc, read_placed(alloc, text))
}
