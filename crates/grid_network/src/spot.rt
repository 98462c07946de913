//! The ends of the stacks, in the order in which they lie along one axis.
ghost use Rattle.std.specs.Prelude.{◌≡◌, IfOk};
ghost use Rattle.std.specs.List.Sorted.{IsSorted};
ghost use Rattle.grid_network.specs.Listing.{ListsAll};
ghost use Rattle.grid_network.specs.inside.Steps.{spot_of_stack, spot_on_piece, spot_cmp, IsEnd};

use geom_rect::Axis;
use grid_pieces::{Piece, StackAt};
use std::alloc::{AllocError, Global};

/// A point of a layer of a net, so far along an axis on a line at `across` on the other.
#[derive(Clone, Copy, Debug, PartialEq, Eq, PartialOrd, Ord)]
pub(crate) struct Spot {
    pub(crate) net: u32,
    pub(crate) layer: u32,
    pub(crate) across: i64,
    pub(crate) along: i64,
}

// Where a stack stands on a layer.
fn spot_of(stack: &StackAt, layer: u32, axis: Axis) -> Spot
    ensures { result ≡ spot_of_stack axis stack.now layer }
{
    match axis {
        Axis::X => Spot {
            net: stack.net,
            layer,
            across: stack.y,
            along: stack.x,
        },
        Axis::Y => Spot {
            net: stack.net,
            layer,
            across: stack.x,
            along: stack.y,
        },
    }
}

// The two ends of each stack.
fn ends(alloc: Global, stacks: &[StackAt], axis: Axis) -> Result<Vec<Spot>, AllocError>
    ensures { IfOk result (λ spots. ListsAll (IsEnd axis stacks.now) spots.items) }
{
    let mut spots = Vec::new(alloc);
    for stack in stacks {
        spots.push(spot_of(stack, stack.stack.from, axis))?;
        spots.push(spot_of(stack, stack.stack.to, axis))?;
    }
    Ok(spots)
}

/// The two ends of each stack, in order.
pub(crate) fn spots(alloc: Global, stacks: &[StackAt], axis: Axis) -> Result<Vec<Spot>, AllocError>
    ensures all { IfOk result (λ spots. ListsAll (IsEnd axis stacks.now) spots.items) }
    ensures sorted { IfOk result (λ spots. IsSorted spot_cmp spots.items) }
{
    let mut spots = ends(alloc, stacks, axis)?;
    spots.sort_unstable();
    Ok(spots)
}

/// The spot so far along the centre line of a piece.
pub(crate) fn spot_on(piece: &Piece, along: i64) -> Spot
    ensures { result ≡ spot_on_piece piece.now along }
{
    Spot {
        net: piece.net,
        layer: piece.layer,
        across: piece.centre,
        along,
    }
}
