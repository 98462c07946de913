//! The whole grid.
ghost use Rattle.std.specs.Prelude.{◌≡◌, ◌≤◌, ◌⊎◌, IfOk, IfErr, OnOk, MatchResult, All, AllPairs, length};
ghost use Rattle.lef_tech.specs.Limits.{TechKeeps};
ghost use Rattle.lef_cells.specs.Limits.{CellsKeep};
ghost use Rattle.def_design.specs.Limits.{DesignKeeps};
ghost use Rattle.pdn_script.specs.Limits.{ScriptKeeps};
ghost use Rattle.grid_pieces.specs.Limits.{PieceKeeps, StackKeeps};
ghost use Rattle.grid_pieces.specs.declared.error.Counted.TheVariants.{Lines};
ghost use Rattle.grid_pieces.specs.declared.error.DrawError.TheVariants.{TooMany, Want};
ghost use Rattle.grid_stacks.specs.Crossing.{Stands};
ghost use Rattle.grid_stacks.specs.Stacking.{AreRefused, LieApart};
ghost use Rattle.grid_plan.specs.Keeping.{PlanKeeps};
ghost use Rattle.grid_shapes.specs.Drawing.{IsDrawingOf, IsDrawRefused, PieceStands, StackStands, AreStacksOf, NothingTouches};
ghost use Rattle.grid_shapes.specs.Shapes.{LinesAreMany};
ghost use Rattle.grid_shapes.specs.inside.Facts.{ArePiecesOf, PieceFacts, StackFacts, IsTouchRefused};

use crate::shaping::shapes;
use def_design::Design;
use entry_list::Entries;
use grid_pieces::{DrawError, Grid, Piece, StackAt, first_touch, pieces};
use grid_plan::{Plan, plan};
use grid_stacks::stacks;
use lef_cells::Cells;
use lef_tech::Tech;
use pdn_script::Script;
use std::alloc::Global;

/// The power grid that a script draws over a design, with this technology and these cells.
///
/// Errors: why there is none, of several causes the first; want of memory.
pub fn draw(
    alloc: Global,
    tech: &Tech,
    cells: &Cells,
    design: &Design,
    script: &Script,
) -> Result<Grid, DrawError>
    requires tech { TechKeeps tech.now }
    requires cells { CellsKeep cells.now }
    requires design { DesignKeeps design.now }
    requires script { ScriptKeeps script.now }
    ensures drawing { MatchResult result (IsDrawingOf tech.now cells.now design.now script.now)
        (IsDrawRefused tech.now cells.now design.now script.now) }
    ensures pieces { IfOk result (λ grid. All (PieceStands tech.now grid) grid.pieces) }
    ensures stacks { IfOk result (λ grid. All (StackStands tech.now grid) grid.stacks) }
    ensures counts { IfOk result (λ grid. (length grid.pieces ≤ 4000000) × (length grid.stacks ≤ 1000000)) }
{
    let plan = plan(alloc, tech, cells, design, script)?;
    let pieces = pieces_of(alloc, tech, &plan)?;
    let stacks = stacks_of(alloc, tech, &plan, &pieces)?;
    check_touch(alloc, &pieces, &stacks)?;
    Ok(grid_with(plan, pieces, stacks))
}

// The pieces into which blockages cut the shapes of a plan.
fn pieces_of(alloc: Global, tech: &Tech, plan: &Plan) -> Result<Vec<Piece>, DrawError>
    requires { PlanKeeps tech.now plan.now }
    ensures pieces { IfOk result (λ pieces. ArePiecesOf plan.now pieces.items) }
    ensures keep { IfOk result (λ pieces. All PieceKeeps pieces.items) }
    ensures facts { IfOk result (λ pieces. All (PieceFacts tech.now plan.now) pieces.items) }
    ensures apart { IfOk result (λ pieces. AllPairs LieApart pieces.items) }
    ensures refused { IfErr result (λ error. (error ≡ Want) ⊎ ((error ≡ TooMany Lines) × LinesAreMany plan.now)) }
{
    let shapes = shapes(alloc, tech, plan)?;
    let blocks = plan.blocks.as_slice();
    let pieces = pieces(alloc, &shapes, blocks)?;
    Ok(pieces)
}

// The stacks at the crossings of the pieces of a plan.
fn stacks_of(
    alloc: Global,
    tech: &Tech,
    plan: &Plan,
    pieces: &[Piece],
) -> Result<Vec<StackAt>, DrawError>
    requires tech { TechKeeps tech.now }
    requires plan { PlanKeeps tech.now plan.now }
    requires keep { All PieceKeeps pieces.now }
    requires facts { All (PieceFacts tech.now plan.now) pieces.now }
    requires apart { AllPairs LieApart pieces.now }
    ensures stacks { MatchResult result (λ stacks. AreStacksOf tech.now plan.now pieces.now stacks.items)
        (AreRefused (Stands tech.now pieces.now plan.now.connects plan.now.blocks) tech.now plan.now.units pieces.now) }
    ensures facts { IfOk result (λ stacks. All (StackFacts tech.now plan.now) stacks.items) }
{
    let connects = plan.connects.as_slice();
    let blocks = plan.blocks.as_slice();
    let stacks = stacks(alloc, tech, pieces, connects, blocks, plan.units)?;
    Ok(stacks)
}

// Refuses metal that touches.
fn check_touch(alloc: Global, pieces: &[Piece], stacks: &[StackAt]) -> Result<(), DrawError>
    requires pieces { All PieceKeeps pieces.now }
    requires stacks { All StackKeeps stacks.now }
    ensures apart { OnOk result (NothingTouches pieces.now stacks.now) }
    ensures refused { IfErr result (IsTouchRefused pieces.now stacks.now) }
{
    match first_touch(alloc, pieces, stacks)? {
        Some(touching) => Err(DrawError::Touch(touching)),
        None => Ok(()),
    }
}

// The grid of a plan with these pieces and stacks.
fn grid_with(plan: Plan, pieces: Vec<Piece>, stacks: Vec<StackAt>) -> Grid
    ensures units { result.units ≡ plan.units }
    ensures nets { result.nets ≡ plan.nets }
    ensures power { result.power ≡ plan.power }
    ensures domains { result.domains ≡ plan.domains }
    ensures pieces { result.pieces ≡ pieces.items }
    ensures stacks { result.stacks ≡ stacks.items }
{
    let Plan {
        units,
        nets,
        power,
        domains,
        ..
    } = plan;
    Grid {
        units,
        nets,
        power,
        domains,
        pieces: Entries::new(pieces),
        stacks: Entries::new(stacks),
    }
}
