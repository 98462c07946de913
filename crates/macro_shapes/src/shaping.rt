//! The shapes.
ghost use Rattle.std.specs.Prelude.{◌≡◌, ◌⊎◌, ◌↔◌, IsTrue, ◌++◌, IfOk, IfErr, OnOk, All};
ghost use Rattle.grid_pieces.specs.Limits.{OneAxis};
ghost use Rattle.grid_pieces.specs.declared.error.Counted.TheVariants.{Lines};
ghost use Rattle.grid_pieces.specs.declared.error.DrawError.TheVariants.{TooMany, Want};
ghost use Rattle.grid_plan.specs.Keeping.{PlanKeeps};
ghost use Rattle.grid_shapes.specs.inside.Sites.{ShapeKeeps};
ghost use Rattle.placed_blocks.specs.Limits.{BlockKeeps};
ghost use Rattle.block_stripes.specs.Blocks.{of_grid};
ghost use Rattle.macro_shapes.specs.Shapes.{no_grid, IsOther, AreMacroShapes, MacroLinesAreMany};

use block_stripes::{block_boxes, block_rings, block_straps};
use geom_rect::Drawn;
use grid_pieces::DrawError;
use grid_plan::Plan;
use grid_shapes::shapes;
use halo_cuts::{GridShape, cut_shapes, cuts_leave_parts};
use lef_tech::Tech;
use placed_blocks::PlacedBlock;
use std::alloc::{AllocError, Global};

/// The shapes of all grids over a design with blocks (OpenROAD PDN manual, define_pdn_grid: -macro, -halo): those of the grids that are
/// not over macros, then the straps of grids over macros, then their rings, each cut at the halos of the blocks that have another grid.
///
/// Error: one command draws more than 10^6 lines, a command of a grid over macros over all blocks together; want of memory, which is
/// answered too where a block has the grid with the greatest number of 32 bits.
pub fn macro_shapes(
    alloc: Global,
    tech: &Tech,
    plan: &Plan,
    blocks: &[PlacedBlock],
) -> Result<Vec<Drawn>, DrawError>
    requires plan { PlanKeeps tech.now plan.now }
    requires blocks { All (BlockKeeps tech.now) blocks.now }
    ensures shapes { IfOk result (λ shapes. AreMacroShapes plan.now blocks.now shapes.items) }
    ensures keep { IfOk result (λ shapes. All (ShapeKeeps tech.now plan.now) shapes.items) }
    ensures one_axis { IfOk result (λ shapes. OneAxis shapes.items) }
    ensures refused { IfErr result (λ error. (error ≡ Want) ⊎ ((error ≡ TooMany Lines) × MacroLinesAreMany plan.now blocks.now)) }
{
    if !are_others(blocks) {
        return Err(DrawError::Want);
    }
    let plain = shapes(alloc, tech, plan)?;
    let boxes = block_boxes(alloc, tech, blocks)?;
    let straps = block_straps(alloc, tech, plan, &boxes)?;
    let rings = block_rings(alloc, tech, plan, &boxes)?;
    let mut whole = Vec::new(alloc);
    add_plain(&mut whole, &plain)?;
    whole.extend_from_slice(&straps)?;
    whole.extend_from_slice(&rings)?;
    cuts_leave_parts();
    let left = cut_shapes(alloc, blocks, &whole)?;
    Ok(left)
}

// The number that stands in place of the grid of a shape that no grid over macros draws.
const NO_GRID: u32 = u32::MAX;

// No block has it as its grid. So many grids stand in no memory.
fn are_others(blocks: &[PlacedBlock]) -> bool
    ensures { IsTrue result ↔ All IsOther blocks.now }
{
    blocks.iter().all(|block| is_other(block))
}

fn is_other(block: &PlacedBlock) -> bool
    ensures { IsTrue result ↔ IsOther block.now }
{
    match block.grid {
        Some(grid) => grid != NO_GRID,
        None => true,
    }
}

// Adds the shapes of the grids that are not over macros.
fn add_plain(whole: &mut Vec<GridShape>, plain: &[Drawn]) -> Result<(), AllocError>
    ensures { OnOk result (whole.new.items ≡ whole.old.items ++ of_grid no_grid plain.now) }
{
    for shape in plain {
        whole.push(GridShape {
            grid: NO_GRID,
            shape: *shape,
        })?;
    }
    Ok(())
}
