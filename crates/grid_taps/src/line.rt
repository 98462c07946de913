ghost use Rattle.std.specs.Prelude.{◌≡◌, ℕ, IfOk, map, Some};
ghost use Rattle.lef_tech.specs.declared.tech.Tech.{Tech};
ghost use Rattle.bias_file.specs.declared.record.PadAt.{PadAt};
ghost use Rattle.grid_taps.specs.Naming.{NamesNone, NamesNoNet, NamesNoCell, IsFirst};
ghost use Rattle.grid_taps.specs.inside.Steps.{lesser};

use crate::named::{Named, table_of};
use bias_file::{Amps, Bias, DropLimit, PadAt, Supply};
use def_design::Design;
use grid_pieces::Grid;
use lef_cells::Cells;
use lef_tech::Tech;
use name_table::NameTable;
use std::alloc::{AllocError, Global};

// A line of a bias file, and what it names.
pub(crate) trait Line: Named {
    ghost line_of: { Self → ℕ };

    fn line(&self) -> u64
        ensures { result ≡ line_of self.now };
}

impl Line for Supply {
    ghost line_of = { λ supply. supply.line };

    fn line(&self) -> u64 {
        self.line
    }
}

impl Line for DropLimit {
    ghost line_of = { λ limit. limit.line };

    fn line(&self) -> u64 {
        self.line
    }
}

impl Line for PadAt {
    ghost line_of = { λ pad. pad.line };

    fn line(&self) -> u64 {
        self.line
    }
}

impl Line for Amps {
    ghost line_of = { λ amps. amps.line };

    fn line(&self) -> u64 {
        self.line
    }
}

// The lesser of two numbers that may be there.
pub(crate) fn lesser(a: Option<u64>, b: Option<u64>) -> Option<u64>
    ensures { result ≡ lesser a b }
{
    match (a, b) {
        (None, b) => b,
        (Some(a), None) => Some(a),
        (Some(a), Some(b)) => Some(a.min(b)),
    }
}

// The first supply, droplimit or pad line that names no net of the grid, or no routing layer.
pub(crate) fn without_net(
    alloc: Global,
    grid: &Grid,
    tech: &Tech,
    bias: &Bias,
) -> Result<Option<u64>, AllocError>
    ensures { IfOk result (IsFirst (NamesNoNet grid.now tech.now bias.now)) }
{
    let nets = table_of(alloc, grid.nets.as_slice())?;
    let layers = table_of(alloc, tech.routing.as_slice())?;
    let supply = first_unknown(&nets, bias.supplies.as_slice());
    let drop = first_unknown(&nets, bias.drops.as_slice());
    let pad = first_unknown(&nets, bias.pads.as_slice());
    let layer = first_without_layer(&layers, bias.pads.as_slice());
    Ok(lesser(supply, lesser(drop, lesser(pad, layer))))
}

/// The first cell line that names no macro, or instance line that names no component.
///
/// Error: want of memory.
pub fn without_cell(
    alloc: Global,
    cells: &Cells,
    design: &Design,
    bias: &Bias,
) -> Result<Option<u64>, AllocError>
    ensures { IfOk result (IsFirst (NamesNoCell cells.now design.now bias.now)) }
{
    let cell = first_naming_none(alloc, cells.macros.as_slice(), bias.cells.as_slice())?;
    let instance = first_naming_none(
        alloc,
        design.components.as_slice(),
        bias.instances.as_slice(),
    )?;
    Ok(lesser(cell, instance))
}

// The least line of these that names none of the items. Only where there is a line are the names put into a table.
fn first_naming_none<N: Named, T: Line>(
    alloc: Global,
    items: &[N],
    lines: &[T],
) -> Result<Option<u64>, AllocError>
    ensures { IfOk result (IsFirst (NamesNone T.line_of T.name_of (map N.name_of items.now) lines.now)) }
{
    if lines.is_empty() {
        return Ok(None);
    }
    let names = table_of(alloc, items)?;
    Ok(first_unknown(&names, lines))
}

// The least line of these that names none of the names.
fn first_unknown<'a, T: Line>(names: &NameTable<'a>, lines: &'a [T]) -> Option<u64>
    ensures { IsFirst (NamesNone T.line_of T.name_of names.now lines.now) result }
{
    let mut first = None;
    for line in lines {
        if !names.contains(line.name()) {
            first = lesser(first, Some(line.line()));
        }
    }
    first
}

// The least pad line that names none of the layers.
fn first_without_layer<'a>(layers: &NameTable<'a>, pads: &'a [PadAt]) -> Option<u64>
    ensures { IsFirst (NamesNone (λ (p : PadAt). p.line) (λ (p : PadAt). p.layer) layers.now pads.now) result }
{
    let mut first = None;
    for pad in pads {
        if !layers.contains(pad.layer.bytes()) {
            first = lesser(first, Some(pad.line));
        }
    }
    first
}
