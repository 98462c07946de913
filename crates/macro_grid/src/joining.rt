//! The stacks.
ghost use Rattle.std.specs.Prelude.{◌≡◌, ◌++◌, IfOk, IfErr, OnOk, MatchResult, All, AllPairs};
ghost use Rattle.std.specs.List.Sorted.{IsPermutation};
ghost use Rattle.lef_tech.specs.Limits.{TechKeeps};
ghost use Rattle.grid_pieces.specs.Limits.{PieceKeeps, StackKeeps};
ghost use Rattle.grid_stacks.specs.Crossing.{Stands};
ghost use Rattle.grid_stacks.specs.Stacking.{AreStacks, AreRefused, LieApart};
ghost use Rattle.grid_plan.specs.Keeping.{PlanKeeps};
ghost use Rattle.grid_shapes.specs.Drawing.{NothingTouches};
ghost use Rattle.grid_shapes.specs.inside.Facts.{PieceFacts, StackFacts, IsTouchRefused};
ghost use Rattle.macro_grid.specs.Drawing.{AreMacroStacks};
ghost use Rattle.macro_grid.specs.inside.Cutting.{IsCut};
ghost use Rattle.macro_grid.specs.inside.Refused.{IsUnjoined};

use crate::cutting::Cut;
use grid_pieces::{Block, DrawError, Piece, StackAt, first_touch};
use grid_plan::Plan;
use lef_tech::Tech;
use macro_stacks::stacks_of_both;
use placed_blocks::PlacedBlock;
use std::alloc::Global;

// The stacks of all pieces, where nothing touches.
pub(crate) fn joined(
    alloc: Global,
    tech: &Tech,
    plan: &Plan,
    placed: &[PlacedBlock],
    cut: &Cut,
) -> Result<Vec<StackAt>, DrawError>
    requires tech { TechKeeps tech.now }
    requires plan { PlanKeeps tech.now plan.now }
    requires cut { IsCut tech.now plan.now placed.now cut.now }
    requires keep { All PieceKeeps cut.now.pieces.items }
    requires facts { All (PieceFacts tech.now plan.now) cut.now.pieces.items }
    ensures stacks { MatchResult result
        (λ stacks. AreMacroStacks tech.now plan.now placed.now cut.now.pieces.items stacks.items)
        (IsUnjoined tech.now plan.now placed.now cut.now.pieces.items) }
    ensures facts { IfOk result (λ stacks. All (StackFacts tech.now plan.now) stacks.items) }
    ensures apart { IfOk result (λ stacks. NothingTouches cut.now.pieces.items stacks.items) }
{
    let stacks = stacks_of(
        alloc,
        tech,
        plan,
        &cut.blocks,
        &cut.straps,
        &cut.pins,
        &cut.pieces,
    )?;
    check_touch(alloc, &cut.pieces, &stacks)?;
    Ok(stacks)
}

// The stacks at the crossings of pieces that come in two lists.
fn stacks_of(
    alloc: Global,
    tech: &Tech,
    plan: &Plan,
    blocks: &[Block],
    straps: &[Piece],
    pins: &[Piece],
    pieces: &[Piece],
) -> Result<Vec<StackAt>, DrawError>
    requires tech { TechKeeps tech.now }
    requires plan { PlanKeeps tech.now plan.now }
    requires keep { All PieceKeeps pieces.now }
    requires facts { All (PieceFacts tech.now plan.now) pieces.now }
    requires both { IsPermutation (straps.now ++ pins.now) pieces.now }
    requires straps { AllPairs LieApart straps.now }
    requires pins { AllPairs LieApart pins.now }
    ensures stacks { MatchResult result
        (λ stacks. AreStacks (Stands tech.now pieces.now plan.now.connects blocks.now) tech.now plan.now.units pieces.now stacks.items)
        (AreRefused (Stands tech.now pieces.now plan.now.connects blocks.now) tech.now plan.now.units pieces.now) }
    ensures facts { IfOk result (λ stacks. All (StackFacts tech.now plan.now) stacks.items) }
{
    let connects = plan.connects.as_slice();
    let stacks = stacks_of_both(
        alloc, tech, pieces, straps, pins, connects, blocks, plan.units,
    )?;
    Ok(stacks)
}

// Refuses metal that touches.
fn check_touch(alloc: Global, pieces: &[Piece], stacks: &[StackAt]) -> Result<(), DrawError>
    requires pieces { All PieceKeeps pieces.now }
    requires stacks { All StackKeeps stacks.now }
    ensures apart { OnOk result (NothingTouches pieces.now stacks.now) }
    ensures refused { IfErr result (IsTouchRefused pieces.now stacks.now) }
{
    match first_touch(alloc, pieces, stacks)? {
        Some(touching) => Err(DrawError::Touch(touching)),
        None => Ok(()),
    }
}
