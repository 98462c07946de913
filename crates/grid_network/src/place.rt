//! The points of the nodes.
ghost use Rattle.std.specs.Prelude.{◌≡◌, ◌<◌, ◌≤◌, All, OnOk, IfOk, length, Contains};
ghost use Rattle.std.specs.List.Sorted.{IsStrictlySortedBy};
ghost use Rattle.grid_network.specs.Listing.{ListsAll};
ghost use Rattle.grid_network.specs.Drawing.{Drawing, key_on, key_at, key_of_stack, IsJunction};
ghost use Rattle.grid_network.specs.Nodes.{IsNode, IsOfStack};
ghost use Rattle.grid_network.specs.inside.Steps.{Adds, IsAtJunction, IsOnStack, key_cmp};

use crate::junction::Junction;
use crate::key::Key;
use crate::order::put_in_order;
use geom_rect::Axis;
use grid_pieces::{Grid, Piece, StackAt};
use std::alloc::{AllocError, Global};

/// The point so far along the centre line of a piece.
pub(crate) fn key_on(piece: &Piece, along: i64) -> Key
    ensures { result ≡ key_on piece.now along }
{
    match piece.axis {
        Axis::X => Key {
            net: piece.net,
            layer: piece.layer,
            x: along,
            y: piece.centre,
        },
        Axis::Y => Key {
            net: piece.net,
            layer: piece.layer,
            x: piece.centre,
            y: along,
        },
    }
}

/// The point of a stack on a layer.
pub(crate) fn key_of_stack(stack: &StackAt, layer: u32) -> Key
    ensures { result ≡ key_of_stack stack.now layer }
{
    Key {
        net: stack.net,
        layer,
        x: stack.x,
        y: stack.y,
    }
}

// The point of a junction.
pub(crate) fn key_at(pieces: &[Piece], junction: &Junction) -> Key
    requires { junction.now.piece < length pieces.now }
    ensures { result ≡ key_at pieces.now junction.now.piece junction.now.along }
{
    key_on(&pieces[junction.piece as usize], junction.along)
}

// Adds the points of the junctions.
fn add_junctions(
    keys: &mut Vec<Key>,
    pieces: &[Piece],
    junctions: &[Junction],
) -> Result<(), AllocError>
    requires { All (λ j. j.piece < length pieces.now) junctions.now }
    ensures { OnOk result (Adds (IsAtJunction pieces.now junctions.now) keys.old.items keys.new.items) }
{
    for junction in junctions {
        keys.push(key_at(pieces, junction))?;
    }
    Ok(())
}

// Adds the points of a stack on each of its layers.
fn add_layers(keys: &mut Vec<Key>, stack: &StackAt) -> Result<(), AllocError>
    requires { stack.now.stack.from ≤ stack.now.stack.to }
    ensures { OnOk result (Adds (IsOnStack stack.now) keys.old.items keys.new.items) }
{
    let top = stack.stack.to;
    for layer in stack.stack.from..top {
        keys.push(key_of_stack(stack, layer))?;
    }
    keys.push(key_of_stack(stack, top))?;
    Ok(())
}

// Adds the points of the stacks.
fn add_stacks(keys: &mut Vec<Key>, stacks: &[StackAt]) -> Result<(), AllocError>
    requires { All (λ s. s.stack.from ≤ s.stack.to) stacks.now }
    ensures { OnOk result (Adds (IsOfStack stacks.now) keys.old.items keys.new.items) }
{
    for stack in stacks {
        add_layers(keys, stack)?;
    }
    Ok(())
}

/// The points of all nodes, each once, in the order of nets, layers, x and y.
pub(crate) fn places(
    alloc: Global,
    grid: &Grid,
    junctions: &[Junction],
) -> Result<Vec<Key>, AllocError>
    requires pieces { All (λ j. j.piece < length grid.now.pieces) junctions.now }
    requires stacks { All (λ s. s.stack.from ≤ s.stack.to) grid.now.stacks }
    ensures nodes { IfOk result (λ keys. (d : Drawing) → d.grid ≡ grid.now
        → ListsAll (λ j. IsJunction d j.piece j.along) junctions.now → ListsAll (IsNode d) keys.items) }
    ensures sorted { IfOk result (λ keys. IsStrictlySortedBy key_cmp keys.items) }
{
    let mut keys = Vec::new(alloc);
    add_junctions(&mut keys, grid.pieces.as_slice(), junctions)?;
    add_stacks(&mut keys, grid.stacks.as_slice())?;
    put_in_order(&mut keys);
    Ok(keys)
}
