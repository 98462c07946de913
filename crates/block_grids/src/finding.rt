//! The blocks of a design.
ghost use Rattle.std.specs.Prelude.{◌≡◌, ◌++◌, IfOk, OnOk, map, false, slice_index_or};
ghost use Rattle.std.specs.List.{list_any, filter_map};
ghost use Rattle.std.specs.Option.{option_to_list};
ghost use Rattle.lef_cells.specs.declared.record.MacroCell.{MacroCell};
ghost use Rattle.pdn_script.specs.declared.record.GridRule.{GridRule};
ghost use Rattle.block_grids.specs.Blocks.{macro_names, is_block_cell, block_cell, is_block, block_with, block_of, numbered, blocks_in, have_blocks};

use crate::block::BlockAt;
use crate::choice::grid_of;
use def_design::{Component, Design};
use geom_rect::Orient;
use lef_cells::Cells;
use name_places::NamePlaces;
use pdn_script::{GridRule, Script};
use std::alloc::{AllocError, Global};

/// The blocks of a design, in the order of its components, each with the grid that it has.
///
/// Error: want of memory.
pub fn blocks_of(
    alloc: Global,
    cells: &Cells,
    design: &Design,
    script: &Script,
) -> Result<Vec<BlockAt>, AllocError>
    ensures { IfOk result (λ blocks. blocks.items ≡ blocks_in cells.now design.now script.now) }
{
    let macros = macros(alloc, cells)?;
    let grids = script.grids.as_slice();
    blocks_among(alloc, cells, &macros, grids, design.components.as_slice())
}

/// Whether a grid over macros stands in the script, and a block in the design.
///
/// Error: want of memory.
pub fn has_blocks(
    alloc: Global,
    cells: &Cells,
    design: &Design,
    script: &Script,
) -> Result<bool, AllocError>
    ensures { IfOk result (λ has. has ≡ have_blocks cells.now design.now script.now) }
{
    if !is_over_macros(script.grids.as_slice()) {
        return Ok(false);
    }
    let macros = macros(alloc, cells)?;
    Ok(is_block_among(cells, &macros, design.components.as_slice()))
}

fn is_over_macros(grids: &[GridRule]) -> bool
    ensures { result ≡ list_any (λ (grid : GridRule). grid.macro_) grids.now }
{
    grids.iter().any(|grid| grid.macro_)
}

/// The names of the macros of a library, each of which has its place in the list.
///
/// Error: want of memory.
pub fn macros<'a>(alloc: Global, cells: &'a Cells) -> Result<NamePlaces<'a>, AllocError>
    ensures { IfOk result (λ macros. macros ≡ macro_names cells.now) }
{
    let mut names: Vec<&'a [u8]> = Vec::new(alloc);
    for cell in cells.macros.as_slice() {
        names.push(cell.name.bytes())?;
    }
    NamePlaces::new(alloc, names)
}

fn is_block_among<'a>(cells: &Cells, macros: &NamePlaces<'a>, components: &'a [Component]) -> bool
    requires { macros.now ≡ macro_names cells.now }
    ensures { result ≡ list_any (is_block cells.now) components.now }
{
    for component in components {
        if is_block(cells, macros, component) {
            return true;
        }
    }
    false
}

/// Whether a component is a block: it is placed, and its macro, of those of the library, is of CLASS BLOCK.
pub fn is_block<'a>(cells: &Cells, macros: &NamePlaces<'a>, component: &'a Component) -> bool
    requires { macros.now ≡ macro_names cells.now }
    ensures { result ≡ is_block cells.now component.now }
{
    component.place.is_some() && block_cell(cells, macros, component).is_some()
}

#[tactic(auto, using(crate::proofs::Steps::kept_more))]
fn blocks_among<'a>(
    alloc: Global,
    cells: &Cells,
    macros: &NamePlaces<'a>,
    grids: &[GridRule],
    components: &'a [Component],
) -> Result<Vec<BlockAt>, AllocError>
    requires { macros.now ≡ macro_names cells.now }
    ensures { IfOk result (λ blocks. blocks.items ≡ filter_map (block_of cells.now grids.now) (numbered components.now)) }
{
    let mut blocks = Vec::new(alloc);
    for (number, component) in components.iter().enumerate() {
        let block = block_of(cells, macros, grids, number, component)?;
        push_some(&mut blocks, block)?;
    }
    Ok(blocks)
}

fn push_some(blocks: &mut Vec<BlockAt>, block: Option<BlockAt>) -> Result<(), AllocError>
    ensures { OnOk result (blocks.new.items ≡ blocks.old.items ++ option_to_list block) }
{
    if let Some(block) = block {
        blocks.push(block)?;
    }
    Ok(())
}

// The block that a component is, if it is one.
fn block_of<'a>(
    cells: &Cells,
    macros: &NamePlaces<'a>,
    grids: &[GridRule],
    number: usize,
    component: &'a Component,
) -> Result<Option<BlockAt>, AllocError>
    requires { macros.now ≡ macro_names cells.now }
    ensures { IfOk result (λ block. block ≡ block_of cells.now grids.now (number, component.now)) }
{
    let Some(cell) = block_cell(cells, macros, component) else {
        return Ok(None);
    };
    let Some(place) = component.place else {
        return Ok(None);
    };
    Ok(Some(block_with(grids, number, component, cell, place)?))
}

fn block_with(
    grids: &[GridRule],
    component_number: usize,
    component: &Component,
    cell: usize,
    place: (i64, i64, Orient),
) -> Result<BlockAt, AllocError>
    ensures { IfOk result (λ block. block ≡ block_with grids.now component_number component.now cell place) }
{
    let (x, y, orient) = place;
    Ok(BlockAt {
        component: number(component_number)?,
        cell: number(cell)?,
        x,
        y,
        orient,
        grid: numbered(grid_of(grids, &component.name, &component.cell, orient))?,
    })
}

// The place of its macro, where that is of CLASS BLOCK.
fn block_cell<'a>(cells: &Cells, macros: &NamePlaces<'a>, component: &'a Component) -> Option<usize>
    requires { macros.now ≡ macro_names cells.now }
    ensures { result ≡ block_cell cells.now component.now }
{
    let place = macros.place(component.cell.bytes())?;
    if is_block_cell(cells, place) {
        Some(place)
    } else {
        None
    }
}

fn is_block_cell(cells: &Cells, place: usize) -> bool
    ensures { result ≡ is_block_cell cells.now place }
{
    match cells.macros.as_slice().get(place) {
        Some(cell) => cell.block,
        None => false,
    }
}

// A place as a number of 32 bits. More are want of memory.
fn number(place: usize) -> Result<u32, AllocError>
    ensures { IfOk result (λ number. number ≡ place) }
{
    match u32::try_from(place) {
        Ok(number) => Ok(number),
        Err(_) => Err(AllocError),
    }
}

fn numbered(place: Option<usize>) -> Result<Option<u32>, AllocError>
    ensures { IfOk result (λ number. number ≡ place) }
{
    match place {
        Some(place) => Ok(Some(number(place)?)),
        None => Ok(None),
    }
}
