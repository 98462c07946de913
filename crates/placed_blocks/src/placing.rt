//! The blocks of a design in their places.
ghost use Rattle.std.specs.Prelude.{◌≡◌, IfOk, All};
ghost use Rattle.block_grids.specs.Halo.{HasHalo};
ghost use Rattle.block_rects.specs.Layers.{HasNamesOf};
ghost use Rattle.def_design.specs.Limits.{DesignKeeps};
ghost use Rattle.entry_list.specs.InTurn.{InTurn};
ghost use Rattle.lef_cells.specs.Limits.{CellsKeep};
ghost use Rattle.macro_blocks.specs.Limits.{BlocksKeep};
ghost use Rattle.pdn_script.specs.Limits.{ScriptKeeps};
ghost use Rattle.via_arrays.specs.Lengths.{IsUnits};
ghost use Rattle.placed_blocks.specs.Limits.{BlockKeeps};
ghost use Rattle.placed_blocks.specs.Placed.{block_names, halos_of, IsOwner, IsPlacedBlock, ArePlacedBlocks};
ghost use Rattle.placed_blocks.specs.inside.Near.{AtKeeps, HaloKeeps};

use crate::block::PlacedBlock;
use crate::cutting::cuts_of;
use crate::outline::{grown_by, halo_at, outline_of, placed_at};
use crate::parts::{block_names, macro_place, obstructions_at, pins_of};
use block_grids::{BlockAt, Halo, blocks_of};
use block_rects::{LayerNames, layer_names};
use def_design::Design;
use entry_list::Entries;
use geom_rect::Rect;
use grid_cores::domain_at;
use lef_cells::Cells;
use lef_tech::Tech;
use macro_blocks::Blocks;
use name_places::NamePlaces;
use pdn_script::Script;
use std::alloc::{AllocError, Global};

/// The blocks of a design in their places, in the order of its components: placed components whose macros are of CLASS BLOCK (LEF/DEF
/// 5.8 Language Reference, "MACRO" and "COMPONENTS"). Lengths are units of the design. `halos` has the halos of the grids of the
/// script (OpenROAD PDN manual, define_pdn_grid: -halo), and `regions` the regions of all voltage domains.
///
/// Error: want of memory.
pub fn placed_blocks(
    alloc: Global,
    tech: &Tech,
    cells: &Cells,
    blocks: &Blocks,
    design: &Design,
    script: &Script,
    halos: &[Halo],
    regions: &[Option<Rect>],
) -> Result<Vec<PlacedBlock>, AllocError>
    requires cells { CellsKeep cells.now }
    requires blocks { BlocksKeep blocks.now }
    requires design { DesignKeeps design.now }
    requires script { ScriptKeeps script.now }
    requires halos { InTurn (HasHalo design.now.units) script.now.grids halos.now }
    ensures blocks { IfOk result (λ placed. ArePlacedBlocks tech.now cells.now blocks.now design.now script.now regions.now placed.items) }
    ensures keep { IfOk result (λ placed. All (BlockKeeps tech.now) placed.items) }
{
    let ats = blocks_of(alloc, cells, design, script)?;
    let layers = layer_names(alloc, tech)?;
    let names = block_names(alloc, blocks)?;
    place_all(
        alloc,
        tech,
        cells,
        blocks,
        script,
        design.units,
        halos,
        regions,
        &layers,
        &names,
        &ats,
    )
}

fn place_all<'a>(
    alloc: Global,
    tech: &Tech,
    cells: &'a Cells,
    blocks: &'a Blocks,
    script: &Script,
    units: u32,
    halos: &[Halo],
    regions: &[Option<Rect>],
    layers: &LayerNames<'a>,
    names: &NamePlaces<'a>,
    ats: &[BlockAt],
) -> Result<Vec<PlacedBlock>, AllocError>
    requires cells { CellsKeep cells.now }
    requires blocks { BlocksKeep blocks.now }
    requires units { IsUnits units }
    requires halos { halos.now ≡ halos_of units script.now.grids }
    requires small { All HaloKeeps halos.now }
    requires layers { HasNamesOf tech.now layers.now }
    requires names { names.now ≡ block_names blocks.now }
    requires ats { All AtKeeps ats.now }
    ensures blocks { IfOk result (λ placed. InTurn (IsPlacedBlock tech.now cells.now blocks.now script.now units regions.now) ats.now placed.items) }
    ensures keep { IfOk result (λ placed. All (BlockKeeps tech.now) placed.items) }
{
    let mut placed = Vec::new(alloc);
    for at in ats {
        let block = place_one(
            alloc, tech, cells, blocks, script, units, halos, regions, layers, names, *at,
        )?;
        placed.push(block)?;
    }
    Ok(placed)
}

fn place_one<'a>(
    alloc: Global,
    tech: &Tech,
    cells: &'a Cells,
    blocks: &'a Blocks,
    script: &Script,
    units: u32,
    halos: &[Halo],
    regions: &[Option<Rect>],
    layers: &LayerNames<'a>,
    names: &NamePlaces<'a>,
    at: BlockAt,
) -> Result<PlacedBlock, AllocError>
    requires cells { CellsKeep cells.now }
    requires blocks { BlocksKeep blocks.now }
    requires units { IsUnits units }
    requires halos { halos.now ≡ halos_of units script.now.grids }
    requires small { All HaloKeeps halos.now }
    requires layers { HasNamesOf tech.now layers.now }
    requires names { names.now ≡ block_names blocks.now }
    requires at { AtKeeps at }
    ensures block { IfOk result (IsPlacedBlock tech.now cells.now blocks.now script.now units regions.now at) }
    ensures keeps { IfOk result (BlockKeeps tech.now) }
{
    let placed = placed_at(cells, units, at);
    let outline = outline_of(placed);
    let macros = blocks.macros.as_slice();
    let place = macro_place(cells, names, at.cell);
    let pins = pins_of(alloc, tech, layers, units, placed, macros, place)?;
    let obstructions = obstructions_at(alloc, tech, layers, units, placed, macros, place)?;
    let cuts = cuts_of(alloc, tech, script, at.grid, &pins, &obstructions)?;
    Ok(PlacedBlock {
        component: at.component,
        outline,
        grown: grown_by(halo_at(halos, at.grid), outline),
        domain: owner_of(regions, at)?,
        grid: at.grid,
        pins: Entries::new(pins),
        obstructions: Entries::new(obstructions),
        cuts: Entries::new(cuts),
    })
}

// The first domain that owns the place of a block.
fn owner_of(regions: &[Option<Rect>], at: BlockAt) -> Result<Option<u32>, AllocError>
    ensures { IfOk result (IsOwner regions.now (at.x, at.y)) }
{
    match domain_at(regions, at.x, at.y) {
        Some(domain) => Ok(Some(number(domain)?)),
        None => Ok(None),
    }
}

// A place as a number of 32 bits. More are want of memory.
fn number(place: usize) -> Result<u32, AllocError>
    ensures { IfOk result (λ number. number ≡ place) }
{
    match u32::try_from(place) {
        Ok(number) => Ok(number),
        Err(_) => Err(AllocError),
    }
}
