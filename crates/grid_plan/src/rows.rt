//! The boxes of the rows.
ghost use Rattle.std.specs.Prelude.{◌≡◌, ◌+ℤ◌, ◌-ℤ◌, ◌*ℤ◌, IfOk, IfSome, pos};
ghost use Rattle.grid_plan.specs.Planning.{boxes_in};
ghost use Rattle.grid_plan.specs.Rows.{site_width, site_height, box_of, row_box, is_flipped};
ghost use Rattle.grid_plan.specs.inside.Tables.{names_in};

use crate::tables::{Tables, place_in};
use crate::units::{fit, length_of, plus};
use def_design::{Design, Row};
use geom_rect::{Orient, Rect};
use lef_cells::Cells;
use rail_layout::RowBox;
use std::alloc::{AllocError, Global};

pub(crate) fn boxes<'a>(
    alloc: Global,
    cells: &Cells,
    tables: &Tables<'a>,
    design: &'a Design,
) -> Result<Vec<RowBox>, AllocError>
    ensures { IfOk result (λ boxes. boxes.items ≡ boxes_in cells.now (names_in tables.now) design.now) }
{
    let mut boxes = Vec::new(alloc);
    for row in design.rows.as_slice() {
        boxes.push(row_box(cells, tables, design.units, row)?)?;
    }
    Ok(boxes)
}

fn row_box<'a>(
    cells: &Cells,
    tables: &Tables<'a>,
    units: u32,
    row: &'a Row,
) -> Result<RowBox, AllocError>
    ensures { IfOk result (λ at. at ≡ row_box cells.now (names_in tables.now) units row.now) }
{
    let (width, height) = site_size(cells, tables, row);
    box_of(row, length_of(units, width)?, length_of(units, height)?)
}

// The width and the height of the site of a row, in pm.
pub(crate) fn site_size<'a>(cells: &Cells, tables: &Tables<'a>, row: &'a Row) -> (u64, u64)
    ensures width { result.0 ≡ site_width cells.now (names_in tables.now) row.now }
    ensures height { result.1 ≡ site_height cells.now (names_in tables.now) row.now }
{
    match cells
        .sites
        .as_slice()
        .get(place_in(&tables.sites, &row.site))
    {
        Some(site) => (site.width, site.height),
        None => (0, 0),
    }
}

fn box_of(row: &Row, width: i64, height: i64) -> Result<RowBox, AllocError>
    ensures { IfOk result (λ at. at ≡ box_of row.now width height) }
{
    Ok(RowBox {
        rect: Rect {
            x1: row.x,
            y1: row.y,
            x2: fit(right_of(row.x, row.count, row.step.unwrap_or(width), width))?,
            y2: plus(row.y, height)?,
        },
        flipped: is_flipped(row.orient),
    })
}

// The right end of a row from `x` on: a step for each site but the last, and the width of a site.
fn right_of(x: i64, count: i64, step: i64, width: i64) -> Option<i64>
    ensures { IfSome result (λ z. z ≡ x +ℤ (count -ℤ pos 1) *ℤ step +ℤ width) }
{
    let steps = count.checked_sub(1)?;
    let far = steps.checked_mul(step)?;
    let last = x.checked_add(far)?;
    last.checked_add(width)
}

fn is_flipped(orient: Orient) -> bool
    ensures { result ≡ is_flipped orient }
{
    matches!(orient, Orient::S | Orient::FS)
}
