//! The blockages.
ghost use Rattle.std.specs.Prelude.{◌≡◌, IfOk};
ghost use Rattle.std.specs.List.{filter_map};
ghost use Rattle.geom_rect.specs.Rect.{grown_by};
ghost use Rattle.grid_plan.specs.Resolved.{layer_spacing, blocked_layer, block_at, block_of};
ghost use Rattle.grid_plan.specs.inside.Tables.{names_in};

use crate::commands::spacing_of;
use crate::tables::Tables;
use crate::units::{minus, number, plus};
use def_design::{Blockage, Design};
use geom_rect::Rect;
use grid_pieces::Block;
use lef_tech::{LayerRef, Tech};
use outside::Name;
use std::alloc::{AllocError, Global};

// The blockages of layers of the technology.
#[tactic(auto, using(crate::proofs::Stepped::kept_more, crate::proofs::Stepped::kept_none))]
pub(crate) fn blocks<'a>(
    alloc: Global,
    tech: &Tech,
    tables: &Tables<'a>,
    design: &'a Design,
) -> Result<Vec<Block>, AllocError>
    ensures { IfOk result (λ blocks. blocks.items
        ≡ filter_map (block_of tech.now (names_in tables.now) design.now.units) design.now.blockages) }
{
    let mut blocks = Vec::new(alloc);
    for blockage in design.blockages.as_slice() {
        if let Some(block) = block_of(tech, tables, design.units, blockage)? {
            blocks.push(block)?;
        }
    }
    Ok(blocks)
}

fn block_of<'a>(
    tech: &Tech,
    tables: &Tables<'a>,
    units: u32,
    blockage: &'a Blockage,
) -> Result<Option<Block>, AllocError>
    ensures { IfOk result (λ block. block ≡ block_of tech.now (names_in tables.now) units blockage.now) }
{
    match blocked_layer(tables, &blockage.layer)? {
        Some(layer) => Ok(Some(block_at(tech, units, blockage, layer)?)),
        None => Ok(None),
    }
}

fn blocked_layer<'a>(tables: &Tables<'a>, name: &'a Name) -> Result<Option<LayerRef>, AllocError>
    ensures { IfOk result (λ layer. layer ≡ blocked_layer (names_in tables.now) name.now) }
{
    if let Some(layer) = tables.layers.place(name.bytes()) {
        return Ok(Some(LayerRef::Routing(number(layer)?)));
    }
    if let Some(layer) = tables.cuts.place(name.bytes()) {
        return Ok(Some(LayerRef::Cut(number(layer)?)));
    }
    Ok(None)
}

fn block_at(
    tech: &Tech,
    units: u32,
    blockage: &Blockage,
    layer: LayerRef,
) -> Result<Block, AllocError>
    ensures { IfOk result (λ block. block ≡ block_at tech.now units blockage.now layer) }
{
    let by = match blockage.spacing {
        Some(spacing) => spacing,
        None => layer_spacing(tech, units, layer)?,
    };
    Ok(Block {
        layer,
        plain: blockage.rect,
        grown: grown_by(blockage.rect, by)?,
    })
}

// The rectangle with each edge further out.
fn grown_by(rect: Rect, by: i64) -> Result<Rect, AllocError>
    ensures { IfOk result (λ grown. grown ≡ grown_by rect by) }
{
    Ok(Rect {
        x1: minus(rect.x1, by)?,
        y1: minus(rect.y1, by)?,
        x2: plus(rect.x2, by)?,
        y2: plus(rect.y2, by)?,
    })
}

fn layer_spacing(tech: &Tech, units: u32, layer: LayerRef) -> Result<i64, AllocError>
    ensures { IfOk result (λ z. z ≡ layer_spacing tech.now units layer) }
{
    match layer {
        LayerRef::Routing(layer) => spacing_of(tech, units, layer as usize),
        LayerRef::Cut(_) => Ok(0),
    }
}
