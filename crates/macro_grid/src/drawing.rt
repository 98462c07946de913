//! The whole grid.
ghost use Rattle.std.specs.Prelude.{◌≡◌, ◌≤◌, IfOk, MatchResult, All, length};
ghost use Rattle.lef_tech.specs.Limits.{TechKeeps};
ghost use Rattle.lef_cells.specs.Limits.{CellsKeep};
ghost use Rattle.def_design.specs.Limits.{DesignKeeps};
ghost use Rattle.macro_blocks.specs.Limits.{BlocksKeep};
ghost use Rattle.pdn_script.specs.Limits.{ScriptKeeps};
ghost use Rattle.grid_pieces.specs.Limits.{PieceKeeps};
ghost use Rattle.grid_plan.specs.Keeping.{PlanKeeps};
ghost use Rattle.grid_shapes.specs.Drawing.{PieceStands, StackStands};
ghost use Rattle.placed_blocks.specs.Limits.{BlockKeeps};
ghost use Rattle.pin_pieces.specs.Pins.{ArePinPieces};
ghost use Rattle.macro_grid.specs.Drawing.{IsMacroDrawing, IsMacroRefused};
ghost use Rattle.macro_grid.specs.inside.Drawn.{IsGridWith, IsDrawn};
ghost use Rattle.macro_grid.specs.inside.Refused.{IsUndrawn};

use crate::copies::{copied_domains, copied_flags, copied_names, copied_stacks};
use crate::cutting::{Cut, cut_pieces};
use crate::error::MacroError;
use crate::joining::joined;
use crate::laying::{Laid, lay};
use crate::record::MacroGrid;
use def_design::Design;
use entry_list::Entries;
use grid_pieces::{DrawError, Grid, Piece, StackAt};
use grid_plan::Plan;
use lef_cells::Cells;
use lef_tech::Tech;
use macro_blocks::Blocks;
use pdn_script::Script;
use pin_pieces::pin_pieces;
use placed_blocks::PlacedBlock;
use std::alloc::{AllocError, Global};

/// The power grid that a script with grids over macros draws over a design, with this technology, these cells and these pins and
/// obstructions of macros.
///
/// Errors: the first grid over macros with a halo that is none; then why nothing is drawn, of several causes the first; want of
/// memory.
pub fn macro_draw(
    alloc: Global,
    tech: &Tech,
    cells: &Cells,
    blocks: &Blocks,
    design: &Design,
    script: &Script,
) -> Result<MacroGrid, MacroError>
    requires tech { TechKeeps tech.now }
    requires cells { CellsKeep cells.now }
    requires blocks { BlocksKeep blocks.now }
    requires design { DesignKeeps design.now }
    requires script { ScriptKeeps script.now }
    ensures drawing { MatchResult result (IsMacroDrawing tech.now cells.now blocks.now design.now script.now)
        (IsMacroRefused tech.now cells.now blocks.now design.now script.now) }
    ensures pieces { IfOk result (λ drawn. All (PieceStands tech.now drawn.grid) drawn.grid.pieces) }
    ensures stacks { IfOk result (λ drawn. All (StackStands tech.now drawn.grid) drawn.grid.stacks) }
    ensures counts { IfOk result (λ drawn. (length drawn.grid.pieces ≤ 4000000) × (length drawn.grid.stacks ≤ 1000000)) }
{
    let laid = lay(alloc, tech, cells, blocks, design, script)?;
    let Laid { plan, placed } = laid;
    let drawn = drawn(alloc, tech, plan, &placed)?;
    Ok(drawn)
}

// The grid over a plan and blocks in their places.
fn drawn(
    alloc: Global,
    tech: &Tech,
    plan: Plan,
    placed: &[PlacedBlock],
) -> Result<MacroGrid, DrawError>
    requires tech { TechKeeps tech.now }
    requires plan { PlanKeeps tech.now plan }
    requires placed { All (BlockKeeps tech.now) placed.now }
    ensures drawn { MatchResult result (IsDrawn tech.now plan placed.now) (IsUndrawn tech.now plan placed.now) }
    ensures pieces { IfOk result (λ drawn. All (PieceStands tech.now drawn.grid) drawn.grid.pieces) }
    ensures stacks { IfOk result (λ drawn. All (StackStands tech.now drawn.grid) drawn.grid.stacks) }
    ensures counts { IfOk result (λ drawn. (length drawn.grid.pieces ≤ 4000000) × (length drawn.grid.stacks ≤ 1000000)) }
{
    let cut = cut_pieces(alloc, tech, &plan, placed)?;
    let stacks = joined(alloc, tech, &plan, placed, &cut)?;
    let drawn = put_together(alloc, tech, plan, placed, cut, stacks)?;
    Ok(drawn)
}

// The grid with these pieces and stacks, and the pieces that have metal of pins.
fn put_together(
    alloc: Global,
    tech: &Tech,
    plan: Plan,
    placed: &[PlacedBlock],
    cut: Cut,
    stacks: Vec<StackAt>,
) -> Result<MacroGrid, AllocError>
    requires placed { All (BlockKeeps tech.now) placed.now }
    requires keep { All PieceKeeps cut.pieces.items }
    requires few { length cut.pieces.items ≤ 4000000 }
    ensures grid { IfOk result (λ drawn. IsGridWith plan cut.pieces.items stacks.items drawn.grid) }
    ensures written { IfOk result (λ drawn. IsGridWith plan cut.straps.items stacks.items drawn.written) }
    ensures pins { IfOk result (λ drawn. ArePinPieces tech.now plan.domains placed.now cut.pieces.items drawn.pins) }
{
    let Cut { straps, pieces, .. } = cut;
    let domains = plan.domains.as_slice();
    let pins = pin_pieces(alloc, tech, domains, placed, &pieces)?;
    let copies = copied_stacks(alloc, &stacks)?;
    let written = copied_grid(alloc, &plan, straps, copies)?;
    Ok(MacroGrid {
        grid: grid_with(plan, pieces, stacks),
        written,
        pins: Entries::new(pins),
    })
}

// The grid of a plan with these pieces and stacks, where the plan is needed further on.
fn copied_grid(
    alloc: Global,
    plan: &Plan,
    pieces: Vec<Piece>,
    stacks: Vec<StackAt>,
) -> Result<Grid, AllocError>
    ensures { IfOk result (IsGridWith plan.now pieces.items stacks.items) }
{
    Ok(Grid {
        units: plan.units,
        nets: Entries::new(copied_names(alloc, plan.nets.as_slice())?),
        power: Entries::new(copied_flags(alloc, plan.power.as_slice())?),
        domains: Entries::new(copied_domains(alloc, plan.domains.as_slice())?),
        pieces: Entries::new(pieces),
        stacks: Entries::new(stacks),
    })
}

// The same of a plan that is not.
fn grid_with(plan: Plan, pieces: Vec<Piece>, stacks: Vec<StackAt>) -> Grid
    ensures { IsGridWith plan pieces.items stacks.items result }
{
    let Plan {
        units,
        nets,
        power,
        domains,
        ..
    } = plan;
    Grid {
        units,
        nets,
        power,
        domains,
        pieces: Entries::new(pieces),
        stacks: Entries::new(stacks),
    }
}
