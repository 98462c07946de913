//! The plan.
ghost use Rattle.std.specs.Prelude.{◌≡◌, IfOk, MatchResult, None};
ghost use Rattle.lef_tech.specs.Limits.{TechKeeps};
ghost use Rattle.lef_cells.specs.Limits.{CellsKeep};
ghost use Rattle.def_design.specs.Limits.{DesignKeeps};
ghost use Rattle.pdn_script.specs.Limits.{ScriptKeeps};
ghost use Rattle.grid_plan.specs.Keeping.{PlanKeeps};
ghost use Rattle.grid_plan.specs.Names.{AreNets};
ghost use Rattle.grid_plan.specs.Planning.{IsPlanOf, IsPlanRefused, Plans, name_refusal, length_refusal, region_refusal};
ghost use Rattle.grid_plan.specs.inside.Answers.{Tells};
ghost use Rattle.grid_plan.specs.inside.Plans.{IsPlanSo, IsRefusedSo, IsFitting, IsUnfitting};
ghost use Rattle.grid_plan.specs.inside.Tables.{names_in};

use crate::blocks::blocks;
use crate::commands::{connects, rails, rings, straps};
use crate::domains::{domains, grids, regions};
use crate::lengths::check_lengths;
use crate::nets::{copied, nets, powers};
use crate::record::Plan;
use crate::regions::check_regions;
use crate::resolve::first_unknown;
use crate::rows::boxes;
use crate::tables::{Tables, tables_of};
use crate::turned::check_layers;
use def_design::Design;
use entry_list::Entries;
use grid_pieces::DrawError;
use lef_cells::Cells;
use lef_tech::Tech;
use name_places::NamePlaces;
use pdn_script::Script;
use std::alloc::{AllocError, Global};

/// The plan of what a script draws over a design.
///
/// Errors: what refuses it, of several causes the first; want of memory.
pub fn plan(
    alloc: Global,
    tech: &Tech,
    cells: &Cells,
    design: &Design,
    script: &Script,
) -> Result<Plan, DrawError>
    requires tech { TechKeeps tech.now }
    requires cells { CellsKeep cells.now }
    requires design { DesignKeeps design.now }
    requires script { ScriptKeeps script.now }
    ensures plan { MatchResult result (IsPlanOf tech.now cells.now design.now script.now)
        (IsPlanRefused tech.now cells.now design.now script.now) }
    ensures keeps { IfOk result (PlanKeeps tech.now) }
{
    found(alloc, tech, cells, design, script)
}

// The same, of which it is not known yet what it keeps.
fn found(
    alloc: Global,
    tech: &Tech,
    cells: &Cells,
    design: &Design,
    script: &Script,
) -> Result<Plan, DrawError>
    ensures { MatchResult result (IsPlanOf tech.now cells.now design.now script.now)
        (IsPlanRefused tech.now cells.now design.now script.now) }
{
    let tables = tables_of(alloc, tech, cells, design, script)?;
    plan_of(alloc, tech, cells, &tables, design, script)
}

// The plan over tables of the names.
fn plan_of<'a>(
    alloc: Global,
    tech: &Tech,
    cells: &Cells,
    tables: &Tables<'a>,
    design: &'a Design,
    script: &'a Script,
) -> Result<Plan, DrawError>
    ensures { MatchResult result (IsPlanSo tech.now cells.now (names_in tables.now) design.now script.now)
        (IsRefusedSo tech.now cells.now (names_in tables.now) design.now script.now) }
{
    match check_names(alloc, tech, tables, design, script) {
        Ok(()) => plan_of_names(alloc, tech, cells, tables, design, script),
        Err(error) => Err(error),
    }
}

// The same where names and layers are right.
fn plan_of_names<'a>(
    alloc: Global,
    tech: &Tech,
    cells: &Cells,
    tables: &Tables<'a>,
    design: &'a Design,
    script: &'a Script,
) -> Result<Plan, DrawError>
    requires { name_refusal tech.now (names_in tables.now) design.now script.now ≡ None }
    ensures { MatchResult result (IsPlanSo tech.now cells.now (names_in tables.now) design.now script.now)
        (IsRefusedSo tech.now cells.now (names_in tables.now) design.now script.now) }
{
    match check_lengths(cells, tables, design, script) {
        Ok(()) => plan_of_lengths(alloc, tech, cells, tables, design, script),
        Err(error) => Err(error),
    }
}

// The same where lengths are right too.
fn plan_of_lengths<'a>(
    alloc: Global,
    tech: &Tech,
    cells: &Cells,
    tables: &Tables<'a>,
    design: &'a Design,
    script: &'a Script,
) -> Result<Plan, DrawError>
    requires names { name_refusal tech.now (names_in tables.now) design.now script.now ≡ None }
    requires lengths { length_refusal cells.now (names_in tables.now) design.now script.now ≡ None }
    ensures { MatchResult result (IsPlanSo tech.now cells.now (names_in tables.now) design.now script.now)
        (IsRefusedSo tech.now cells.now (names_in tables.now) design.now script.now) }
{
    match checked_plan(alloc, tech, cells, tables, design, script) {
        Ok(plan) => Ok(plan),
        Err(error) => Err(error),
    }
}

// The plan where regions, rows and grids fit each other.
fn checked_plan<'a>(
    alloc: Global,
    tech: &Tech,
    cells: &Cells,
    tables: &Tables<'a>,
    design: &'a Design,
    script: &'a Script,
) -> Result<Plan, DrawError>
    ensures { MatchResult result (IsFitting tech.now cells.now (names_in tables.now) design.now script.now)
        (IsUnfitting cells.now (names_in tables.now) design.now script.now) }
{
    let nets = nets(alloc, script)?;
    plan_with(alloc, tech, cells, tables, &nets, design, script)
}

// The same with these nets.
fn plan_with<'a>(
    alloc: Global,
    tech: &Tech,
    cells: &Cells,
    tables: &Tables<'a>,
    nets: &NamePlaces<'a>,
    design: &'a Design,
    script: &'a Script,
) -> Result<Plan, DrawError>
    requires { AreNets script.now nets.now }
    ensures { MatchResult result (IsFitting tech.now cells.now (names_in tables.now) design.now script.now)
        (IsUnfitting cells.now (names_in tables.now) design.now script.now) }
{
    let plan = planned(alloc, tech, cells, tables, nets, design, script)?;
    match check_plan(alloc, tech, cells, tables, design, script, &plan) {
        Ok(()) => Ok(plan),
        Err(error) => Err(error),
    }
}

// Refuses names that are not known and layers with the wrong directions.
fn check_names<'a>(
    alloc: Global,
    tech: &Tech,
    tables: &Tables<'a>,
    design: &'a Design,
    script: &'a Script,
) -> Result<(), DrawError>
    ensures { Tells (name_refusal tech.now (names_in tables.now) design.now script.now) result }
{
    if let Some(name) = first_unknown(alloc, tables, design, script)? {
        return Err(DrawError::UnknownName(name));
    }
    check_layers(tech, tables, script)
}

// The regions, rows and grids of the plan are tested.
#[tactic(auto, using(crate::proofs::Stepped::regions_turn))]
fn check_plan<'a>(
    alloc: Global,
    tech: &Tech,
    cells: &Cells,
    tables: &Tables<'a>,
    design: &'a Design,
    script: &'a Script,
    plan: &Plan,
) -> Result<(), DrawError>
    requires { Plans tech.now cells.now (names_in tables.now) design.now script.now plan.now }
    ensures { Tells (region_refusal cells.now (names_in tables.now) design.now script.now) result }
{
    let regions = regions(alloc, plan.domains.as_slice())?;
    check_regions(
        alloc,
        cells,
        tables,
        design,
        script,
        &regions,
        plan.rows.as_slice(),
        plan.grids.as_slice(),
    )
}

// The plan with these nets.
fn planned<'a>(
    alloc: Global,
    tech: &Tech,
    cells: &Cells,
    tables: &Tables<'a>,
    nets: &NamePlaces<'a>,
    design: &'a Design,
    script: &'a Script,
) -> Result<Plan, AllocError>
    requires { AreNets script.now nets.now }
    ensures { IfOk result (Plans tech.now cells.now (names_in tables.now) design.now script.now) }
{
    let units = design.units;
    Ok(Plan {
        units,
        die: design.die,
        nets: Entries::new(copied(alloc, nets)?),
        power: Entries::new(powers(alloc, script, nets)?),
        domains: Entries::new(domains(alloc, tables, nets, design, script)?),
        grids: Entries::new(grids(alloc, tables, script)?),
        rows: Entries::new(boxes(alloc, cells, tables, design)?),
        straps: Entries::new(straps(alloc, tech, tables, nets, script, units)?),
        rails: Entries::new(rails(alloc, tech, tables, script, units)?),
        rings: Entries::new(rings(alloc, tech, tables, nets, script, units)?),
        connects: Entries::new(connects(alloc, tables, script)?),
        blocks: Entries::new(blocks(alloc, tech, tables, design)?),
    })
}
