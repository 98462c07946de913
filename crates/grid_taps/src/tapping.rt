ghost use Rattle.std.specs.Prelude.{◌≡◌, ◌<◌, ◌≤◌, ◌^◌, IfOk, MatchOption, MatchResult, OnErr, OnOk, length, map, [], ◌∷◌};
ghost use Rattle.via_arrays.specs.Lengths.{IsUnits, in_units};
ghost use Rattle.bias_file.specs.Limits.{BiasKeeps};
ghost use Rattle.lef_cells.specs.Limits.{CellsKeep, MacroKeeps};
ghost use Rattle.def_design.specs.Limits.{DesignKeeps, ComponentKeeps, IsNear};
ghost use Rattle.grid_pieces.specs.declared.grid.DomainAt.{DomainAt};
ghost use Rattle.grid_taps.specs.Naming.{macro_names, amps_names};
ghost use Rattle.grid_taps.specs.Taps.{is_turned, column_of, regions_of, IsPlaced, IsRange, AreTapsOf, HasNoTaps};
ghost use Rattle.grid_taps.specs.Refusals.{TapsStand, AreTapsRefused};
ghost use Rattle.grid_taps.specs.inside.Rails.{AreRailEntries};
ghost use Rattle.grid_taps.specs.Tables.{AreTablesOf, AddsTaps, HasNoSeat};
ghost use Rattle.grid_taps.specs.inside.Tapping.{AreAllTapped, IsTapRefused, AmpsRange};

use crate::column::Column;
use crate::line::without_cell;
use crate::named::{place_of, table_of};
use crate::rail::{lowest, rails_of};
use crate::range::{Range, range_of};
use bias_file::Bias;
use def_design::{Component, Design};
use geom_rect::{Orient, Rect};
use grid_cores::domain_at;
use grid_network::{ExtractError, Tap};
use grid_pieces::{DomainAt, Grid};
use lef_cells::{Cells, MacroCell};
use name_table::NameTable;
use rect_index::RectIndex;
use std::alloc::{AllocError, Global};
use via_arrays::PICOMETRES;

/// The load taps of the components of a design on the rails of a drawn grid, in the order of the components: those of a
/// component that draws a current stand at half of its width, on the lowest rail over it of the power net and of the
/// ground net of the domain that owns it. The power tap draws the range of the component, the ground tap gives it back.
///
/// It is refused where a cell line names no macro or an instance line no component, and where a component that draws a
/// current is not placed, is of no macro, is owned by no domain, or lacks a rail, in this order. Of one kind the
/// earliest line or component is named.
pub fn taps(
    alloc: Global,
    grid: &Grid,
    cells: &Cells,
    design: &Design,
    bias: &Bias,
) -> Result<Vec<Tap>, ExtractError>
    requires units { IsUnits grid.now.units }
    requires few_pieces { length grid.now.pieces < 2 ^ 32 }
    requires cells { CellsKeep cells.now }
    requires design { DesignKeeps design.now }
    requires bias { BiasKeeps bias.now }
    ensures { MatchResult result (λ taps. TapsStand grid.now cells.now design.now bias.now taps.items)
        (AreTapsRefused grid.now cells.now design.now bias.now) }
{
    if let Some(line) = without_cell(alloc, cells, design, bias)? {
        return Err(ExtractError::UnknownName(line));
    }
    let mut tables = tables_of(alloc, grid, cells, bias)?;
    tap_all(alloc, grid, cells, design, bias, &mut tables)
}

/// What the taps of a component are found by: the rails, the regions of the domains, and the names of macros, of
/// instance lines and of cell lines.
#[derive(Drop)]
pub struct TapTables<'a> {
    rails: RectIndex<u32>,
    regions: Vec<Option<Rect>>,
    macros: NameTable<'a>,
    instances: NameTable<'a>,
    cells: NameTable<'a>,
}

/// What the taps of the components on a grid are found by.
///
/// Error: want of memory.
pub fn tables_of<'a>(
    alloc: Global,
    grid: &Grid,
    cells: &'a Cells,
    bias: &'a Bias,
) -> Result<TapTables<'a>, AllocError>
    requires few_pieces { length grid.now.pieces < 2 ^ 32 }
    requires cells { CellsKeep cells.now }
    requires bias { BiasKeeps bias.now }
    ensures { IfOk result (AreTablesOf grid.now cells.now bias.now) }
{
    let rails = rails_of(alloc, grid)?;
    let regions = regions_of(alloc, grid.domains.as_slice())?;
    let macros = table_of(alloc, cells.macros.as_slice())?;
    let instances = table_of(alloc, bias.instances.as_slice())?;
    let cells = table_of(alloc, bias.cells.as_slice())?;
    Ok(TapTables {
        rails,
        regions,
        macros,
        instances,
        cells,
    })
}

fn regions_of(alloc: Global, domains: &[DomainAt]) -> Result<Vec<Option<Rect>>, AllocError>
    ensures { IfOk result (λ regions. regions.items ≡ map (λ (d : DomainAt). d.region) domains.now) }
{
    domains.iter().map(|domain| domain.region).collect(alloc)
}

// The taps of all components, or the first that has none.
fn tap_all<'a>(
    alloc: Global,
    grid: &Grid,
    cells: &Cells,
    design: &'a Design,
    bias: &Bias,
    tables: &mut TapTables<'a>,
) -> Result<Vec<Tap>, ExtractError>
    requires units { IsUnits grid.now.units }
    requires cells { CellsKeep cells.now }
    requires design { DesignKeeps design.now }
    requires bias { BiasKeeps bias.now }
    requires tables { AreTablesOf grid.now cells.now bias.now tables.old }
    ensures { MatchResult result
        (λ taps. AreAllTapped grid.now cells.now bias.now design.now.components taps.items)
        (IsTapRefused grid.now cells.now bias.now design.now.components) }
{
    let components = design.components.as_slice();
    if components.len() > u32::MAX as usize {
        return Err(ExtractError::Want);
    }
    let mut taps = Vec::new(alloc);
    for (number, component) in components.iter().enumerate() {
        if !add_taps(grid, cells, bias, tables, component, &mut taps)? {
            return Err(ExtractError::LoadOff(number as u32));
        }
    }
    Ok(taps)
}

/// Adds the taps of a component on the rails of a grid, and tells whether it has those that it needs: one that draws a
/// current and has no place, no macro, no owner or no rail has not.
///
/// Error: want of memory, which leaves the taps as they were.
pub fn add_taps<'a>(
    grid: &Grid,
    cells: &Cells,
    bias: &Bias,
    tables: &mut TapTables<'a>,
    component: &'a Component,
    taps: &mut Vec<Tap>,
) -> Result<bool, AllocError>
    requires units { IsUnits grid.now.units }
    requires cells { CellsKeep cells.now }
    requires bias { BiasKeeps bias.now }
    requires component { ComponentKeeps component.now }
    requires tables { AreTablesOf grid.now cells.now bias.now tables.old }
    ensures taps { IfOk result (AddsTaps grid.now cells.now bias.now component.now taps.old.items taps.new.items) }
    ensures left { OnErr result (taps.new.items ≡ taps.old.items) }
    ensures same { OnOk result (tables.new ≡ tables.old) }
{
    let range = range_in(tables, bias, component);
    if range.high == 0 {
        return Ok(true);
    }
    match pair_of(grid, cells, tables, component, range) {
        Some(pair) => {
            taps.extend_from_slice(&[pair.power, pair.ground])?;
            Ok(true)
        }
        None => Ok(false),
    }
}

/// The range of the current of a component: that of its own line, else that of its cell's, else from 0 to 0.
pub fn range_in<'a>(tables: &mut TapTables<'a>, bias: &Bias, component: &'a Component) -> Range
    requires instances { tables.old.instances ≡ amps_names bias.now.instances }
    requires cells { tables.old.cells ≡ amps_names bias.now.cells }
    ensures range { IsRange bias.now component.now result.low result.high }
    ensures same { tables.new ≡ tables.old }
{
    range_of(&mut tables.instances, &mut tables.cells, bias, component)
}

// The two taps of a component.
#[derive(Clone, Copy, Debug, PartialEq, Eq)]
struct Pair {
    power: Tap,
    ground: Tap,
}

fn pair_of<'a>(
    grid: &Grid,
    cells: &Cells,
    tables: &mut TapTables<'a>,
    component: &'a Component,
    range: Range,
) -> Option<Pair>
    requires units { IsUnits grid.now.units }
    requires cells { CellsKeep cells.now }
    requires component { ComponentKeeps component.now }
    requires macros { tables.old.macros ≡ macro_names cells.now }
    requires regions { tables.old.regions.items ≡ regions_of grid.now }
    requires rails { AreRailEntries grid.now.pieces tables.old.rails }
    requires range { AmpsRange range.low range.high }
    ensures pair { MatchOption result (HasNoTaps grid.now cells.now component.now)
        (λ pair. AreTapsOf grid.now cells.now component.now range.low range.high (pair.power ∷ pair.ground ∷ [])) }
    ensures same { tables.new ≡ tables.old }
{
    let seat = seat_of(grid, cells, tables, component)?;
    let power = lowest(grid, &tables.rails, seat.domain.power, seat.column)?;
    let ground = lowest(grid, &tables.rails, seat.domain.ground, seat.column)?;
    Some(Pair {
        power: Tap {
            piece: power,
            along: seat.column.x,
            low: range.low,
            high: range.high,
        },
        ground: Tap {
            piece: ground,
            along: seat.column.x,
            low: -range.high,
            high: -range.low,
        },
    })
}

/// The column over a component, and the domain that owns it.
#[derive(Clone, Copy, Debug, PartialEq, Eq)]
pub struct Seat {
    pub column: Column,
    pub domain: DomainAt,
}

/// Where a component stands. None where it is not placed, its cell is no macro, or no domain owns it.
pub fn seat_of<'a>(
    grid: &Grid,
    cells: &Cells,
    tables: &mut TapTables<'a>,
    component: &'a Component,
) -> Option<Seat>
    requires units { IsUnits grid.now.units }
    requires cells { CellsKeep cells.now }
    requires component { ComponentKeeps component.now }
    requires macros { tables.old.macros ≡ macro_names cells.now }
    requires regions { tables.old.regions.items ≡ regions_of grid.now }
    ensures seat { MatchOption result (HasNoSeat grid.now cells.now component.now)
        (λ seat. IsPlaced grid.now cells.now component.now seat.column seat.domain) }
    ensures same { tables.new ≡ tables.old }
{
    let (x, y, orient) = component.place?;
    let place = place_of(&mut tables.macros, component.cell.bytes())?;
    let owner = domain_at(&tables.regions, x, y)?;
    let cell = &cells.macros.as_slice()[place as usize];
    Some(Seat {
        column: column_of(cell, grid.units, x, y, orient),
        domain: grid.domains.as_slice()[owner],
    })
}

// The column over a component of the macro that is placed there.
fn column_of(cell: &MacroCell, units: u32, x: i64, y: i64, orient: Orient) -> Column
    requires cell { MacroKeeps cell.now }
    requires units { IsUnits units }
    requires x { IsNear x }
    requires y { IsNear y }
    ensures { result ≡ column_of units cell.now (x, y, orient) }
{
    let (width, height) = if is_turned(orient) {
        (cell.height, cell.width)
    } else {
        (cell.width, cell.height)
    };
    Column {
        x: x + (in_units(width, units) / 2) as i64,
        lower: y,
        upper: y + in_units(height, units) as i64,
    }
}

fn is_turned(orient: Orient) -> bool
    ensures { result ≡ is_turned orient }
{
    match orient {
        Orient::W | Orient::E | Orient::FW | Orient::FE => true,
        Orient::N | Orient::S | Orient::FN | Orient::FS => false,
    }
}

// A length in units, rounded down.
fn in_units(length: u64, units: u32) -> u64
    requires length { length ≤ 10 ^ 11 }
    requires units { IsUnits units }
    ensures value { result ≡ in_units units length }
    ensures most { result < 2 ^ 32 }
{
    length * u64::from(units) / PICOMETRES
}
