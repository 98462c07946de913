//! Horizontal pieces of one list with vertical ones of another.
ghost use Rattle.std.specs.Prelude.{◌≡◌, ◌++◌, IfOk, OnOk};
ghost use Rattle.std.specs.List.{filter};
ghost use Rattle.geom_rect.specs.declared.direction.Axis.TheVariants.{X, Y};
ghost use Rattle.macro_stacks.specs.inside.Mixed.{goes, mixed};

use geom_rect::Axis;
use grid_pieces::Piece;
use std::alloc::{AllocError, Global};

// The horizontal pieces of the first list and the vertical ones of the second.
pub(crate) fn mix(
    alloc: Global,
    flat: &[Piece],
    upright: &[Piece],
) -> Result<Vec<Piece>, AllocError>
    ensures { IfOk result (λ pieces. pieces.items ≡ mixed flat.now upright.now) }
{
    let mut pieces = Vec::new(alloc);
    add_along(flat, Axis::X, &mut pieces)?;
    add_along(upright, Axis::Y, &mut pieces)?;
    Ok(pieces)
}

// Adds those that go along the axis.
fn add_along(from: &[Piece], axis: Axis, pieces: &mut Vec<Piece>) -> Result<(), AllocError>
    ensures { OnOk result (pieces.new.items ≡ pieces.old.items ++ filter (goes axis) from.now) }
{
    for piece in from {
        if goes(axis, piece) {
            pieces.push(*piece)?;
        }
    }
    Ok(())
}

fn goes(axis: Axis, piece: &Piece) -> bool
    ensures { result ≡ goes axis piece.now }
{
    match (axis, piece.axis) {
        (Axis::X, Axis::X) | (Axis::Y, Axis::Y) => true,
        _ => false,
    }
}
