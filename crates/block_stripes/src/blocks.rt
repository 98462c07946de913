//! The boxes of blocks, and the shapes of a grid.
ghost use Rattle.std.specs.Prelude.{◌≡◌, ◌<◌, ◌++◌, length, IfOk, OnOk, All};
ghost use Rattle.grid_shapes.specs.Site.{grid_of};
ghost use Rattle.placed_blocks.specs.Limits.{BlockKeeps};
ghost use Rattle.block_stripes.specs.Blocks.{box_of, boxes_in, BoxKeeps, boxes_of, of_grid};

use geom_rect::{Drawn, Rect};
use grid_plan::Plan;
use halo_cuts::GridShape;
use lef_tech::Tech;
use placed_blocks::PlacedBlock;
use std::alloc::{AllocError, Global};

/// A block that has a grid over macros, in units of the drawing.
#[derive(Clone, Copy, Debug, PartialEq, Eq)]
pub struct BlockBox {
    /// The grid, by its place from 0 in the script.
    pub grid: u32,
    /// The box of its macro in its place.
    pub outline: Rect,
}

/// The boxes of the blocks that have a grid, in their order.
///
/// Error: want of memory.
pub fn block_boxes(
    alloc: Global,
    tech: &Tech,
    blocks: &[PlacedBlock],
) -> Result<Vec<BlockBox>, AllocError>
    requires { All (BlockKeeps tech.now) blocks.now }
    ensures boxes { IfOk result (λ boxes. boxes.items ≡ boxes_in blocks.now) }
    ensures keep { IfOk result (λ boxes. All BoxKeeps boxes.items) }
{
    let boxes = boxes_in(alloc, blocks)?;
    Ok(boxes)
}

fn boxes_in(alloc: Global, blocks: &[PlacedBlock]) -> Result<Vec<BlockBox>, AllocError>
    ensures { IfOk result (λ boxes. boxes.items ≡ boxes_in blocks.now) }
{
    blocks
        .iter()
        .filter_map(|block| box_of(block))
        .collect(alloc)
}

fn box_of(block: &PlacedBlock) -> Option<BlockBox>
    ensures { result ≡ box_of block.now }
{
    match block.grid {
        Some(grid) => Some(BlockBox {
            grid,
            outline: block.outline,
        }),
        None => None,
    }
}

// A command draws no more lines than this, over all blocks together.
pub(crate) const MOST_LINES: usize = 1_000_000;

// The boxes of the blocks that have a grid.
pub(crate) fn boxes_of(
    alloc: Global,
    boxes: &[BlockBox],
    grid: u32,
) -> Result<Vec<Rect>, AllocError>
    ensures { IfOk result (λ own. own.items ≡ boxes_of boxes.now grid) }
{
    let mut own = Vec::new(alloc);
    for block in boxes {
        if block.grid == grid {
            own.push(block.outline)?;
        }
    }
    Ok(own)
}

// Whether a grid is one over macros.
pub(crate) fn is_over_macros(plan: &Plan, grid: u32) -> bool
    requires { grid < length plan.now.grids }
    ensures { result ≡ (grid_of plan.now grid).over_macros }
{
    plan.grids.as_slice()[grid as usize].over_macros
}

// Adds lines that a grid draws.
pub(crate) fn add_lines(
    shapes: &mut Vec<GridShape>,
    grid: u32,
    lines: &[Drawn],
) -> Result<(), AllocError>
    ensures { OnOk result (shapes.new.items ≡ shapes.old.items ++ of_grid grid lines.now) }
{
    for line in lines {
        shapes.push(GridShape { grid, shape: *line })?;
    }
    Ok(())
}
