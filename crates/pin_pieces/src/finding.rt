//! The pieces that have metal of pins.
ghost use Rattle.std.specs.Prelude.{◌≡◌, ◌<◌, ◌^◌, IfOk, OnOk, All, length, map, filter};
ghost use Rattle.geom_rect.specs.Drawn.{drawn_rect};
ghost use Rattle.grid_pieces.specs.Limits.{DrawnKeeps, PieceKeeps};
ghost use Rattle.rect_index.specs.Entry.{is_at, item_of};
ghost use Rattle.placed_blocks.specs.Limits.{BlockKeeps};
ghost use Rattle.pin_pieces.specs.Pins.{IsPinPiece, ArePinPieces};
ghost use Rattle.pin_pieces.specs.inside.Steps.{Adds, ListsAll, OfAny, IsPieceEntry, IsPieceAt, IsOnShape};

use crate::found::{centred, index_of};
use crate::order::put_in_order;
use crate::pin::PinPiece;
use crate::shared::share_cell;
use geom_rect::Drawn;
use grid_pieces::{DomainAt, Piece};
use lef_tech::Tech;
use pin_shapes::block_pins;
use placed_blocks::PlacedBlock;
use rect_index::RectIndex;
use std::alloc::{AllocError, Global};

/// The pieces that have metal of pins of blocks, in the order of the components and then of the pieces. A piece that has metal of
/// pins of two blocks is one of each. A block that no voltage domain owns has none.
///
/// Error: want of memory.
pub fn pin_pieces(
    alloc: Global,
    tech: &Tech,
    domains: &[DomainAt],
    blocks: &[PlacedBlock],
    pieces: &[Piece],
) -> Result<Vec<PinPiece>, AllocError>
    requires blocks { All (BlockKeeps tech.now) blocks.now }
    requires keep { All PieceKeeps pieces.now }
    requires few { length pieces.now < 2 ^ 32 }
    ensures { IfOk result (λ pins. ArePinPieces tech.now domains.now blocks.now pieces.now pins.items) }
{
    let index = index_of(alloc, pieces)?;
    let mut pins = Vec::new(alloc);
    add_blocks(alloc, tech, domains, blocks, pieces, &index, &mut pins)?;
    put_in_order(&mut pins);
    Ok(pins)
}

// Adds the pieces that have metal of pins of the blocks.
fn add_blocks(
    alloc: Global,
    tech: &Tech,
    domains: &[DomainAt],
    blocks: &[PlacedBlock],
    pieces: &[Piece],
    index: &RectIndex<u32>,
    pins: &mut Vec<PinPiece>,
) -> Result<(), AllocError>
    requires blocks { All (BlockKeeps tech.now) blocks.now }
    requires keep { All PieceKeeps pieces.now }
    requires index { ListsAll (IsPieceEntry pieces.now) index.now }
    ensures { OnOk result (Adds (IsPinPiece tech.now domains.now blocks.now pieces.now) pins.old.items pins.new.items) }
{
    for block in blocks {
        let shapes = block_pins(alloc, tech, domains, block)?;
        add_shapes(alloc, block.component, &shapes, pieces, index, pins)?;
    }
    Ok(())
}

// Adds those that have metal of one of the shapes, each with the component.
fn add_shapes(
    alloc: Global,
    component: u32,
    shapes: &[Drawn],
    pieces: &[Piece],
    index: &RectIndex<u32>,
    pins: &mut Vec<PinPiece>,
) -> Result<(), AllocError>
    requires shapes { All DrawnKeeps shapes.now }
    requires keep { All PieceKeeps pieces.now }
    requires index { ListsAll (IsPieceEntry pieces.now) index.now }
    ensures { OnOk result (Adds (OfAny (IsOnShape component pieces.now) shapes.now) pins.old.items pins.new.items) }
{
    for shape in shapes {
        let found = pieces_at(alloc, index, shape)?;
        add_found(component, shape, pieces, &found, pins)?;
    }
    Ok(())
}

// What the entries of a shape's net stand for that have a point of its metal.
fn pieces_at(alloc: Global, index: &RectIndex<u32>, shape: &Drawn) -> Result<Vec<u32>, AllocError>
    requires { DrawnKeeps shape.now }
    ensures { IfOk result (λ found. found.items
        ≡ map item_of (filter (is_at shape.now.net (drawn_rect shape.now)) index.now)) }
{
    let window = centred(shape.axis, shape.centre, shape.width, shape.from, shape.to);
    index.found(alloc, shape.net, window)
}

// Adds those of the pieces found that have metal of the shape.
fn add_found(
    component: u32,
    shape: &Drawn,
    pieces: &[Piece],
    found: &[u32],
    pins: &mut Vec<PinPiece>,
) -> Result<(), AllocError>
    requires keep { All PieceKeeps pieces.now }
    requires found { ListsAll (IsPieceAt pieces.now shape.now) found.now }
    ensures { OnOk result (Adds (IsOnShape component pieces.now shape.now) pins.old.items pins.new.items) }
{
    for number in found {
        if share_cell(&pieces[*number as usize], shape) {
            pins.push(PinPiece {
                component,
                piece: *number,
            })?;
        }
    }
    Ok(())
}
