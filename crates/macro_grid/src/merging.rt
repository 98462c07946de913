//! The pieces of two lists in one.
ghost use Rattle.std.specs.Prelude.{◌≡◌, AllPairs, IfOk, false};
ghost use Rattle.std.specs.List.Sorted.{IsPermutation};
ghost use Rattle.std.specs.Ordering.{is_gt};
ghost use Rattle.grid_pieces.specs.declared.piece.Piece.{Piece};
ghost use Rattle.grid_pieces.specs.Piece.{place_of};
ghost use Rattle.macro_grid.specs.Drawing.{AreMerged, axis_place, whole_order};

use geom_rect::{Axis, Shape};
use grid_pieces::Piece;
use std::alloc::{AllocError, Global};

// The pieces of both lists, in order.
pub(crate) fn merged(
    alloc: Global,
    straps: &[Piece],
    pins: &[Piece],
) -> Result<Vec<Piece>, AllocError>
    ensures { IfOk result (λ pieces. AreMerged straps.now pins.now pieces.items) }
{
    let mut all = Vec::from_slice(alloc, straps)?;
    all.extend_from_slice(pins)?;
    Ok(in_order(all))
}

fn in_order(pieces: Vec<Piece>) -> Vec<Piece>
    ensures same { IsPermutation pieces.items result.items }
    ensures in_order { AllPairs (λ (a b : Piece). is_gt (whole_order a b) ≡ false) result.items }
{
    let mut all = pieces;
    sort(&mut all);
    all
}

fn sort(pieces: &mut [Piece])
    ensures same { IsPermutation pieces.old pieces.new }
    ensures in_order { AllPairs (λ (a b : Piece). is_gt (whole_order a b) ≡ false) pieces.new }
{
    pieces.sort_unstable_by_key(|piece| (
        piece.net,
        piece.layer,
        piece.centre,
        piece.from,
        piece.width,
        piece.to,
        axis_place(piece.axis),
        place_of(piece.shape),
    ));
}

fn axis_place(axis: Axis) -> u8
    ensures { result ≡ axis_place axis }
{
    match axis {
        Axis::X => 0,
        Axis::Y => 1,
    }
}

fn place_of(shape: Shape) -> u8
    ensures { result ≡ place_of shape }
{
    match shape {
        Shape::Ring => 0,
        Shape::Stripe => 1,
        Shape::FollowPin => 2,
    }
}
