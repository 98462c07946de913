//! What blocks straps, rails and rings.
ghost use Rattle.std.specs.Prelude.{◌≡◌, ◌++◌, IfOk, OnOk, map};
ghost use Rattle.macro_grid.specs.Drawing.{obstruction_block, obstruction_blocks, all_blocks};

use crate::lengths::{grown_by, layer_spacing};
use block_rects::Obstruction;
use grid_pieces::Block;
use grid_plan::Plan;
use lef_tech::Tech;
use placed_blocks::PlacedBlock;
use std::alloc::{AllocError, Global};

// The blockages of the plan, and the obstructions of the blocks.
pub(crate) fn all_blocks(
    alloc: Global,
    tech: &Tech,
    plan: &Plan,
    placed: &[PlacedBlock],
) -> Result<Vec<Block>, AllocError>
    ensures { IfOk result (λ blocks. blocks.items ≡ all_blocks tech.now plan.now placed.now) }
{
    let mut blocks = copied_blocks(alloc, plan.blocks.as_slice())?;
    add_blocks(tech, plan.units, placed, &mut blocks)?;
    Ok(blocks)
}

fn copied_blocks(alloc: Global, blocks: &[Block]) -> Result<Vec<Block>, AllocError>
    ensures { IfOk result (λ copies. copies.items ≡ blocks.now) }
{
    blocks.iter().copied().collect(alloc)
}

// Adds the obstructions of all blocks, block after block.
fn add_blocks(
    tech: &Tech,
    units: u32,
    placed: &[PlacedBlock],
    blocks: &mut Vec<Block>,
) -> Result<(), AllocError>
    ensures { OnOk result (blocks.new.items ≡ blocks.old.items ++ obstruction_blocks tech.now units placed.now) }
{
    for block in placed {
        add_obstructions(tech, units, block.obstructions.as_slice(), blocks)?;
    }
    Ok(())
}

// Adds the obstructions of a block.
fn add_obstructions(
    tech: &Tech,
    units: u32,
    obstructions: &[Obstruction],
    blocks: &mut Vec<Block>,
) -> Result<(), AllocError>
    ensures { OnOk result (blocks.new.items ≡ blocks.old.items ++ map (obstruction_block tech.now units) obstructions.now) }
{
    for obstruction in obstructions {
        blocks.push(obstruction_block(tech, units, *obstruction)?)?;
    }
    Ok(())
}

// An obstruction as a blockage, grown by the spacing of its layer.
fn obstruction_block(tech: &Tech, units: u32, obstruction: Obstruction) -> Result<Block, AllocError>
    ensures { IfOk result (λ block. block ≡ obstruction_block tech.now units obstruction) }
{
    let spacing = layer_spacing(tech, units, obstruction.layer)?;
    let grown = grown_by(obstruction.rect, spacing)?;
    Ok(Block {
        layer: obstruction.layer,
        plain: obstruction.rect,
        grown,
    })
}
