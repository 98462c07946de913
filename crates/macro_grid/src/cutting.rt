//! The pieces.
ghost use Rattle.std.specs.Prelude.{◌≡◌, ◌⊎◌, IfOk, IfErr, All, AllPairs};
ghost use Rattle.grid_pieces.specs.Limits.{PieceKeeps};
ghost use Rattle.grid_pieces.specs.Piece.{ArePieces};
ghost use Rattle.grid_pieces.specs.declared.error.Counted.TheVariants.{Lines};
ghost use Rattle.grid_pieces.specs.declared.error.DrawError.TheVariants.{TooMany, Want};
ghost use Rattle.grid_stacks.specs.Stacking.{LieApart};
ghost use Rattle.grid_plan.specs.Keeping.{PlanKeeps};
ghost use Rattle.grid_shapes.specs.inside.Facts.{PieceFacts};
ghost use Rattle.placed_blocks.specs.Limits.{BlockKeeps};
ghost use Rattle.macro_shapes.specs.Shapes.{MacroLinesAreMany};
ghost use Rattle.pin_shapes.specs.Pins.{pin_shapes};
ghost use Rattle.macro_grid.specs.inside.Cutting.{AreStraps, IsCut};

use crate::merging::merged;
use crate::obstructed::all_blocks;
use grid_pieces::{Block, DrawError, Piece, pieces};
use grid_plan::Plan;
use lef_tech::Tech;
use macro_shapes::macro_shapes;
use pin_shapes::pin_shapes;
use placed_blocks::PlacedBlock;
use std::alloc::{AllocError, Global};

// The blockages, the pieces of straps, rails and rings, those of the pins, and all pieces.
#[derive(Debug, Drop)]
pub(crate) struct Cut {
    pub(crate) blocks: Vec<Block>,
    pub(crate) straps: Vec<Piece>,
    pub(crate) pins: Vec<Piece>,
    pub(crate) pieces: Vec<Piece>,
}

pub(crate) fn cut_pieces(
    alloc: Global,
    tech: &Tech,
    plan: &Plan,
    placed: &[PlacedBlock],
) -> Result<Cut, DrawError>
    requires plan { PlanKeeps tech.now plan.now }
    requires placed { All (BlockKeeps tech.now) placed.now }
    ensures cut { IfOk result (IsCut tech.now plan.now placed.now) }
    ensures keep { IfOk result (λ cut. All PieceKeeps cut.pieces.items) }
    ensures facts { IfOk result (λ cut. All (PieceFacts tech.now plan.now) cut.pieces.items) }
    ensures refused { IfErr result (λ error. (error ≡ Want) ⊎ ((error ≡ TooMany Lines) × MacroLinesAreMany plan.now placed.now)) }
{
    let blocks = all_blocks(alloc, tech, plan, placed)?;
    let straps = straps_of(alloc, tech, plan, placed, &blocks)?;
    let pins = pins_of(alloc, tech, plan, placed)?;
    let pieces = merged(alloc, &straps, &pins)?;
    Ok(Cut {
        blocks,
        straps,
        pins,
        pieces,
    })
}

// The pieces into which these blockages cut straps, rails and rings.
fn straps_of(
    alloc: Global,
    tech: &Tech,
    plan: &Plan,
    placed: &[PlacedBlock],
    blocks: &[Block],
) -> Result<Vec<Piece>, DrawError>
    requires plan { PlanKeeps tech.now plan.now }
    requires placed { All (BlockKeeps tech.now) placed.now }
    ensures straps { IfOk result (λ straps. AreStraps plan.now placed.now blocks.now straps.items) }
    ensures keep { IfOk result (λ straps. All PieceKeeps straps.items) }
    ensures facts { IfOk result (λ straps. All (PieceFacts tech.now plan.now) straps.items) }
    ensures apart { IfOk result (λ straps. AllPairs LieApart straps.items) }
    ensures refused { IfErr result (λ error. (error ≡ Want) ⊎ ((error ≡ TooMany Lines) × MacroLinesAreMany plan.now placed.now)) }
{
    let shapes = macro_shapes(alloc, tech, plan, placed)?;
    let straps = pieces(alloc, &shapes, blocks)?;
    Ok(straps)
}

// The pieces into which the blockages of the design cut the pins of blocks.
fn pins_of(
    alloc: Global,
    tech: &Tech,
    plan: &Plan,
    placed: &[PlacedBlock],
) -> Result<Vec<Piece>, AllocError>
    requires plan { PlanKeeps tech.now plan.now }
    requires placed { All (BlockKeeps tech.now) placed.now }
    ensures pins { IfOk result (λ pins. ArePieces (pin_shapes tech.now plan.now.domains placed.now) plan.now.blocks pins.items) }
    ensures keep { IfOk result (λ pins. All PieceKeeps pins.items) }
    ensures facts { IfOk result (λ pins. All (PieceFacts tech.now plan.now) pins.items) }
    ensures apart { IfOk result (λ pins. AllPairs LieApart pins.items) }
{
    let shapes = pin_shapes(alloc, tech, plan, placed)?;
    let blocks = plan.blocks.as_slice();
    let pins = pieces(alloc, &shapes, blocks)?;
    Ok(pins)
}
