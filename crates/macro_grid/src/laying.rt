//! The plan of the grids, and the blocks of the design in their places.
ghost use Rattle.std.specs.Prelude.{◌≡◌, IfOk, IfErr, OnOk, MatchResult, All, None, map};
ghost use Rattle.entry_list.specs.InTurn.{InTurn};
ghost use Rattle.lef_tech.specs.Limits.{TechKeeps};
ghost use Rattle.lef_cells.specs.Limits.{CellsKeep};
ghost use Rattle.def_design.specs.Limits.{DesignKeeps};
ghost use Rattle.macro_blocks.specs.Limits.{BlocksKeep};
ghost use Rattle.pdn_script.specs.Limits.{ScriptKeeps};
ghost use Rattle.grid_pieces.specs.declared.grid.DomainAt.{DomainAt};
ghost use Rattle.grid_plan.specs.Keeping.{PlanKeeps, plan_regions};
ghost use Rattle.grid_plan.specs.Planning.{IsPlanOf, IsPlanRefused};
ghost use Rattle.block_grids.specs.Halo.{HasHalo, first_bad};
ghost use Rattle.placed_blocks.specs.Limits.{BlockKeeps};
ghost use Rattle.placed_blocks.specs.Placed.{ArePlacedBlocks};
ghost use Rattle.macro_grid.specs.Drawing.{Lays, without_places};
ghost use Rattle.macro_grid.specs.inside.Refused.{IsHaloRefused, IsUnlaid};

use crate::bare::without_places;
use crate::error::MacroError;
use block_grids::{Halo, HaloError, halos_of};
use def_design::Design;
use geom_rect::Rect;
use grid_pieces::{DomainAt, DrawError};
use grid_plan::{Plan, plan};
use lef_cells::Cells;
use lef_tech::Tech;
use macro_blocks::Blocks;
use pdn_script::Script;
use placed_blocks::{PlacedBlock, placed_blocks};
use std::alloc::{AllocError, Global};

// A plan, and blocks in their places.
#[derive(Debug, Drop)]
pub(crate) struct Laid {
    pub(crate) plan: Plan,
    pub(crate) placed: Vec<PlacedBlock>,
}

pub(crate) fn lay(
    alloc: Global,
    tech: &Tech,
    cells: &Cells,
    blocks: &Blocks,
    design: &Design,
    script: &Script,
) -> Result<Laid, MacroError>
    requires tech { TechKeeps tech.now }
    requires cells { CellsKeep cells.now }
    requires blocks { BlocksKeep blocks.now }
    requires design { DesignKeeps design.now }
    requires script { ScriptKeeps script.now }
    ensures lays { MatchResult result
        (λ laid. Lays tech.now cells.now blocks.now design.now script.now laid.plan laid.placed.items)
        (IsUnlaid tech.now cells.now design.now script.now) }
    ensures plan { IfOk result (λ laid. PlanKeeps tech.now laid.plan) }
    ensures placed { IfOk result (λ laid. All (BlockKeeps tech.now) laid.placed.items) }
{
    let halos = halos_in(alloc, script, design.units)?;
    let plan = bare_plan(alloc, tech, cells, design, script)?;
    let placed = placed_in(alloc, tech, cells, blocks, design, script, &halos, &plan)?;
    Ok(Laid { plan, placed })
}

// The halos of the grids.
fn halos_in(alloc: Global, script: &Script, units: u32) -> Result<Vec<Halo>, MacroError>
    ensures halos { IfOk result (λ halos. InTurn (HasHalo units) script.now.grids halos.items) }
    ensures none { OnOk result (first_bad units script.now ≡ None) }
    ensures refused { IfErr result (IsHaloRefused units script.now) }
{
    match halos_of(alloc, script, units) {
        Ok(halos) => Ok(halos),
        Err(HaloError::Halo(grid)) => Err(MacroError::Halo(grid)),
        Err(HaloError::Want) => Err(MacroError::Draw(DrawError::Want)),
    }
}

// The plan over the design with no component in a place.
fn bare_plan(
    alloc: Global,
    tech: &Tech,
    cells: &Cells,
    design: &Design,
    script: &Script,
) -> Result<Plan, DrawError>
    requires tech { TechKeeps tech.now }
    requires cells { CellsKeep cells.now }
    requires design { DesignKeeps design.now }
    requires script { ScriptKeeps script.now }
    ensures plan { MatchResult result (IsPlanOf tech.now cells.now (without_places design.now) script.now)
        (IsPlanRefused tech.now cells.now (without_places design.now) script.now) }
    ensures keeps { IfOk result (PlanKeeps tech.now) }
{
    let bare = without_places(alloc, design)?;
    plan(alloc, tech, cells, &bare, script)
}

// The blocks, which the domains of the plan own.
fn placed_in(
    alloc: Global,
    tech: &Tech,
    cells: &Cells,
    blocks: &Blocks,
    design: &Design,
    script: &Script,
    halos: &[Halo],
    plan: &Plan,
) -> Result<Vec<PlacedBlock>, AllocError>
    requires cells { CellsKeep cells.now }
    requires blocks { BlocksKeep blocks.now }
    requires design { DesignKeeps design.now }
    requires script { ScriptKeeps script.now }
    requires halos { InTurn (HasHalo design.now.units) script.now.grids halos.now }
    ensures blocks { IfOk result (λ placed.
        ArePlacedBlocks tech.now cells.now blocks.now design.now script.now (plan_regions plan.now) placed.items) }
    ensures keep { IfOk result (λ placed. All (BlockKeeps tech.now) placed.items) }
{
    let regions = regions_of(alloc, plan.domains.as_slice())?;
    let placed = placed_blocks(alloc, tech, cells, blocks, design, script, halos, &regions)?;
    Ok(placed)
}

fn regions_of(alloc: Global, domains: &[DomainAt]) -> Result<Vec<Option<Rect>>, AllocError>
    ensures { IfOk result (λ regions. regions.items ≡ map (λ (d : DomainAt). d.region) domains.now) }
{
    domains.iter().map(|domain| domain.region).collect(alloc)
}
