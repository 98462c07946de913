//! A design with no component in a place.
ghost use Rattle.std.specs.Prelude.{◌≡◌, IfOk, map};
ghost use Rattle.macro_grid.specs.Drawing.{unplaced, without_places};

use crate::copies::copied_name;
use def_design::{Blockage, Component, Design, Fence, Row};
use entry_list::Entries;
use geom_rect::Rect;
use std::alloc::{AllocError, Global};

// A design, but for the places of its components.
pub(crate) fn without_places(alloc: Global, design: &Design) -> Result<Design, AllocError>
    ensures { IfOk result (λ bare. bare ≡ without_places design.now) }
{
    Ok(Design {
        name: copied_name(alloc, &design.name)?,
        units: design.units,
        die: design.die,
        rows: Entries::new(copied_rows(alloc, design.rows.as_slice())?),
        components: Entries::new(unplaced_components(alloc, design.components.as_slice())?),
        blockages: Entries::new(copied_blockages(alloc, design.blockages.as_slice())?),
        regions: Entries::new(copied_regions(alloc, design.regions.as_slice())?),
    })
}

fn copied_rows(alloc: Global, rows: &[Row]) -> Result<Vec<Row>, AllocError>
    ensures { IfOk result (λ copies. copies.items ≡ rows.now) }
{
    let mut copies = Vec::new(alloc);
    for row in rows {
        copies.push(copied_row(alloc, row)?)?;
    }
    Ok(copies)
}

fn copied_row(alloc: Global, row: &Row) -> Result<Row, AllocError>
    ensures { IfOk result (λ copy. copy ≡ row.now) }
{
    Ok(Row {
        name: copied_name(alloc, &row.name)?,
        site: copied_name(alloc, &row.site)?,
        x: row.x,
        y: row.y,
        orient: row.orient,
        count: row.count,
        step: row.step,
    })
}

fn unplaced_components(
    alloc: Global,
    components: &[Component],
) -> Result<Vec<Component>, AllocError>
    ensures { IfOk result (λ copies. copies.items ≡ map unplaced components.now) }
{
    let mut copies = Vec::with_capacity(alloc, components.len())?;
    for component in components {
        copies.push(unplaced(alloc, component)?)?;
    }
    Ok(copies)
}

fn unplaced(alloc: Global, component: &Component) -> Result<Component, AllocError>
    ensures { IfOk result (λ copy. copy ≡ unplaced component.now) }
{
    Ok(Component {
        name: copied_name(alloc, &component.name)?,
        cell: copied_name(alloc, &component.cell)?,
        place: None,
    })
}

fn copied_blockages(alloc: Global, blockages: &[Blockage]) -> Result<Vec<Blockage>, AllocError>
    ensures { IfOk result (λ copies. copies.items ≡ blockages.now) }
{
    let mut copies = Vec::new(alloc);
    for blockage in blockages {
        copies.push(copied_blockage(alloc, blockage)?)?;
    }
    Ok(copies)
}

fn copied_blockage(alloc: Global, blockage: &Blockage) -> Result<Blockage, AllocError>
    ensures { IfOk result (λ copy. copy ≡ blockage.now) }
{
    Ok(Blockage {
        layer: copied_name(alloc, &blockage.layer)?,
        spacing: blockage.spacing,
        rect: blockage.rect,
    })
}

fn copied_regions(alloc: Global, regions: &[Fence]) -> Result<Vec<Fence>, AllocError>
    ensures { IfOk result (λ copies. copies.items ≡ regions.now) }
{
    let mut copies = Vec::new(alloc);
    for region in regions {
        copies.push(copied_region(alloc, region)?)?;
    }
    Ok(copies)
}

fn copied_region(alloc: Global, region: &Fence) -> Result<Fence, AllocError>
    ensures { IfOk result (λ copy. copy ≡ region.now) }
{
    Ok(Fence {
        name: copied_name(alloc, &region.name)?,
        rects: Entries::new(copied_rects(alloc, region.rects.as_slice())?),
    })
}

fn copied_rects(alloc: Global, rects: &[Rect]) -> Result<Vec<Rect>, AllocError>
    ensures { IfOk result (λ copies. copies.items ≡ rects.now) }
{
    rects.iter().copied().collect(alloc)
}
