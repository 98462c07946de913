//! The taps of all components.
ghost use Rattle.std.specs.Prelude.{◌≡◌, IfOk, IsTrue, MatchResult, OnOk};
ghost use Rattle.bias_file.specs.Limits.{BiasKeeps};
ghost use Rattle.lef_cells.specs.Limits.{CellsKeep};
ghost use Rattle.def_design.specs.Limits.{DesignKeeps, ComponentKeeps};
ghost use Rattle.block_grids.specs.Blocks.{is_block};
ghost use Rattle.grid_taps.specs.Tables.{AreTablesOf};
ghost use Rattle.pin_taps.specs.Keeping.{MacroGridKeeps};
ghost use Rattle.pin_taps.specs.Refusals.{MacroTapsStand, AreMacroTapsRefused};
ghost use Rattle.pin_taps.specs.inside.Tapping.{AddsTaps, AreAllTapped, IsTapRefused, AreBlockTables};

use crate::blocks::add_block;
use crate::feeding::feeding_of;
use bias_file::Bias;
use block_grids::{is_block, macros};
use def_design::{Component, Design};
use grid_network::{ExtractError, Tap};
use grid_taps::{TapTables, add_taps, range_in, seat_of, tables_of, without_cell};
use lef_cells::Cells;
use load_shares::Share;
use macro_grid::MacroGrid;
use name_places::NamePlaces;
use rect_index::RectIndex;
use std::alloc::{AllocError, Global};

/// The load taps of the components of a design with blocks, in the order of the components. A block that draws a current has them on
/// the pieces with metal of its pins that a stack has an end on, at the middle of each: those of the power net of the domain that owns
/// it share the range of the block, and those of the net of ground share what it gives back. Every other component has its taps on
/// rails.
///
/// It is refused where a cell line names no macro or an instance line no component, and where a component that draws a current has no
/// taps: a block that no domain owns, or of which a net of its domain has no such piece, and another component as without blocks. Of
/// one kind the earliest line or component is named.
pub fn macro_taps(
    alloc: Global,
    drawn: &MacroGrid,
    cells: &Cells,
    design: &Design,
    bias: &Bias,
) -> Result<Vec<Tap>, ExtractError>
    requires drawn { MacroGridKeeps drawn.now }
    requires cells { CellsKeep cells.now }
    requires design { DesignKeeps design.now }
    requires bias { BiasKeeps bias.now }
    ensures { MatchResult result (λ taps. MacroTapsStand drawn.now cells.now design.now bias.now taps.items)
        (AreMacroTapsRefused drawn.now cells.now design.now bias.now) }
{
    if let Some(line) = without_cell(alloc, cells, design, bias)? {
        return Err(ExtractError::UnknownName(line));
    }
    let mut tables = block_tables_of(alloc, drawn, cells, bias)?;
    tap_all(alloc, drawn, cells, design, bias, &mut tables)
}

// What the taps of a component are found by: the tables of taps on rails, the names of the macros, and the pieces that feed blocks.
#[derive(Drop)]
struct BlockTables<'a> {
    rails: TapTables<'a>,
    macros: NamePlaces<'a>,
    feeding: RectIndex<u32>,
}

fn block_tables_of<'a>(
    alloc: Global,
    drawn: &MacroGrid,
    cells: &'a Cells,
    bias: &'a Bias,
) -> Result<BlockTables<'a>, AllocError>
    requires drawn { MacroGridKeeps drawn.now }
    requires cells { CellsKeep cells.now }
    requires bias { BiasKeeps bias.now }
    ensures { IfOk result (AreBlockTables drawn.now cells.now bias.now) }
{
    Ok(BlockTables {
        rails: tables_of(alloc, &drawn.grid, cells, bias)?,
        macros: macros(alloc, cells)?,
        feeding: feeding_of(alloc, drawn)?,
    })
}

// The taps of all components, or the first that has none.
fn tap_all<'a>(
    alloc: Global,
    drawn: &MacroGrid,
    cells: &Cells,
    design: &'a Design,
    bias: &Bias,
    tables: &mut BlockTables<'a>,
) -> Result<Vec<Tap>, ExtractError>
    requires drawn { MacroGridKeeps drawn.now }
    requires cells { CellsKeep cells.now }
    requires design { DesignKeeps design.now }
    requires bias { BiasKeeps bias.now }
    requires tables { AreBlockTables drawn.now cells.now bias.now tables.old }
    ensures { MatchResult result
        (λ taps. AreAllTapped drawn.now cells.now bias.now design.now.components taps.items)
        (IsTapRefused drawn.now cells.now bias.now design.now.components) }
{
    let components = design.components.as_slice();
    if components.len() > u32::MAX as usize {
        return Err(ExtractError::Want);
    }
    let mut taps = Vec::new(alloc);
    for (place, component) in components.iter().enumerate() {
        let number = place as u32;
        if !tap_one(
            alloc, drawn, cells, bias, tables, number, component, &mut taps,
        )? {
            return Err(ExtractError::LoadOff(number));
        }
    }
    Ok(taps)
}

// Adds the taps of the component with this number, and tells whether it has those that it needs.
fn tap_one<'a>(
    alloc: Global,
    drawn: &MacroGrid,
    cells: &Cells,
    bias: &Bias,
    tables: &mut BlockTables<'a>,
    number: u32,
    component: &'a Component,
    taps: &mut Vec<Tap>,
) -> Result<bool, AllocError>
    requires drawn { MacroGridKeeps drawn.now }
    requires cells { CellsKeep cells.now }
    requires bias { BiasKeeps bias.now }
    requires component { ComponentKeeps component.now }
    requires tables { AreBlockTables drawn.now cells.now bias.now tables.old }
    ensures taps { IfOk result (AddsTaps drawn.now cells.now bias.now number component.now taps.old.items taps.new.items) }
    ensures same { OnOk result (tables.new ≡ tables.old) }
{
    if is_block(cells, &tables.macros, component) {
        tap_block(alloc, drawn, cells, bias, tables, number, component, taps)
    } else {
        add_taps(&drawn.grid, cells, bias, &mut tables.rails, component, taps)
    }
}

// The same of a block.
fn tap_block<'a>(
    alloc: Global,
    drawn: &MacroGrid,
    cells: &Cells,
    bias: &Bias,
    tables: &mut BlockTables<'a>,
    number: u32,
    component: &'a Component,
    taps: &mut Vec<Tap>,
) -> Result<bool, AllocError>
    requires drawn { MacroGridKeeps drawn.now }
    requires cells { CellsKeep cells.now }
    requires bias { BiasKeeps bias.now }
    requires component { ComponentKeeps component.now }
    requires tables { AreBlockTables drawn.now cells.now bias.now tables.old }
    requires block { IsTrue (is_block cells.now component.now) }
    ensures taps { IfOk result (AddsTaps drawn.now cells.now bias.now number component.now taps.old.items taps.new.items) }
    ensures same { OnOk result (tables.new ≡ tables.old) }
{
    let range = range_in(&mut tables.rails, bias, component);
    if range.high == 0 {
        return Ok(true);
    }
    let Some(seat) = seat_of(&drawn.grid, cells, &mut tables.rails, component) else {
        return Ok(false);
    };
    let load = Share {
        low: range.low,
        high: range.high,
    };
    add_block(
        alloc,
        drawn,
        &tables.feeding,
        number,
        seat.domain,
        load,
        taps,
    )
}
