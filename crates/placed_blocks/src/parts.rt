//! The pins and the obstructions of a block.
ghost use Rattle.std.specs.Prelude.{◌≡◌, IfOk, All, map};
ghost use Rattle.block_rects.specs.Layers.{HasNamesOf};
ghost use Rattle.block_rects.specs.Limits.{PartKeeps, ObstructionKeeps};
ghost use Rattle.macro_blocks.specs.Limits.{MacroKeeps};
ghost use Rattle.macro_blocks.specs.declared.record.BlockMacro.{BlockMacro};
ghost use Rattle.macro_turns.specs.Limits.{PlacedKeeps};
ghost use Rattle.via_arrays.specs.Lengths.{IsUnits};
ghost use Rattle.placed_blocks.specs.Placed.{block_names, name_at, macro_place, macro_at, pins_of, obstructions_at};

use block_rects::{LayerNames, Obstruction, PinPart, obstructions_of, parts_of};
use lef_cells::Cells;
use lef_tech::Tech;
use macro_blocks::{BlockMacro, Blocks};
use macro_turns::Placed;
use name_places::NamePlaces;
use std::alloc::{AllocError, Global};

// The names of the macros of blocks.
pub(crate) fn block_names<'a>(
    alloc: Global,
    blocks: &'a Blocks,
) -> Result<NamePlaces<'a>, AllocError>
    ensures { IfOk result (λ names. names ≡ block_names blocks.now) }
{
    let mut names: Vec<&'a [u8]> = Vec::new(alloc);
    for cell in blocks.macros.as_slice() {
        names.push(cell.name.bytes())?;
    }
    NamePlaces::new(alloc, names)
}

// The place among these names of that of a macro.
pub(crate) fn macro_place<'a>(cells: &'a Cells, names: &NamePlaces<'a>, cell: u32) -> Option<usize>
    ensures { result ≡ macro_place names.now (name_at cells.now cell) }
{
    match cells.macros.as_slice().get(cell as usize) {
        Some(cell) => names.place(cell.name.bytes()),
        None => None,
    }
}

// The parts of the pins of the macro at a place.
pub(crate) fn pins_of<'a>(
    alloc: Global,
    tech: &Tech,
    layers: &LayerNames<'a>,
    units: u32,
    placed: Placed,
    macros: &'a [BlockMacro],
    place: Option<usize>,
) -> Result<Vec<PinPart>, AllocError>
    requires layers { HasNamesOf tech.now layers.now }
    requires units { IsUnits units }
    requires placed { PlacedKeeps placed }
    requires macros { All MacroKeeps macros.now }
    ensures pins { IfOk result (λ pins. pins.items ≡ pins_of tech.now units placed (macro_at macros.now place)) }
    ensures keep { IfOk result (λ pins. All (PartKeeps tech.now) pins.items) }
{
    let Some(place) = place else {
        return Ok(Vec::new(alloc));
    };
    match macros.get(place) {
        Some(cell) => parts_of(alloc, tech, layers, units, placed, cell),
        None => Ok(Vec::new(alloc)),
    }
}

// Its obstructions.
pub(crate) fn obstructions_at<'a>(
    alloc: Global,
    tech: &Tech,
    layers: &LayerNames<'a>,
    units: u32,
    placed: Placed,
    macros: &'a [BlockMacro],
    place: Option<usize>,
) -> Result<Vec<Obstruction>, AllocError>
    requires layers { HasNamesOf tech.now layers.now }
    requires units { IsUnits units }
    requires placed { PlacedKeeps placed }
    requires macros { All MacroKeeps macros.now }
    ensures obstructions { IfOk result (λ all. all.items ≡ obstructions_at tech.now units placed (macro_at macros.now place)) }
    ensures keep { IfOk result (λ all. All ObstructionKeeps all.items) }
{
    let Some(place) = place else {
        return Ok(Vec::new(alloc));
    };
    match macros.get(place) {
        Some(cell) => obstructions_of(alloc, tech, layers, units, placed, cell),
        None => Ok(Vec::new(alloc)),
    }
}
