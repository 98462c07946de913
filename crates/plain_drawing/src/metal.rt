//! What lies on the layers.
ghost use Rattle.std.specs.Prelude.{◌≡◌, ◌+ℤ◌, ◌-ℤ◌, ◌++◌, map, All, IfOk, OnOk};
ghost use Rattle.geom_rect.specs.Drawn.{half, strip};
ghost use Rattle.grid_pieces.specs.Limits.{PieceKeeps};
ghost use Rattle.grid_pieces.specs.Line.{piece_rect};
ghost use Rattle.grid_pieces.specs.Touch.{piece_metal, stack_metal, between, metal};
ghost use Rattle.plain_drawing.specs.inside.Least.{turned};

use geom_rect::{Axis, Rect};
use grid_pieces::{Metal, Piece, StackAt};
use std::alloc::{AllocError, Global};

// The pieces, and the crossing of each stack on each layer strictly inside it.
pub(crate) fn metal_of(
    alloc: Global,
    pieces: &[Piece],
    stacks: &[StackAt],
) -> Result<Vec<Metal>, AllocError>
    requires { All PieceKeeps pieces.now }
    ensures { IfOk result (λ all. all.items ≡ metal pieces.now stacks.now) }
{
    let mut all = Vec::new(alloc);
    for piece in pieces {
        all.push(of_piece(piece))?;
    }
    for stack in stacks {
        add_inside(&mut all, stack)?;
    }
    Ok(all)
}

fn of_piece(piece: &Piece) -> Metal
    requires { PieceKeeps piece.now }
    ensures { result ≡ piece_metal piece.now }
{
    Metal {
        layer: piece.layer,
        rect: rect_of(piece),
        net: piece.net,
    }
}

// The metal of a piece.
pub(crate) fn rect_of(piece: &Piece) -> Rect
    requires { PieceKeeps piece.now }
    ensures { result ≡ piece_rect piece.now }
{
    let (low, high) = edges(piece);
    strip(piece.axis, piece.from, piece.to, low, high)
}

fn edges(piece: &Piece) -> (i64, i64)
    requires { PieceKeeps piece.now }
    ensures low { result.0 ≡ piece.now.centre -ℤ half piece.now.width }
    ensures high { result.1 ≡ piece.now.centre +ℤ half piece.now.width }
{
    let half = piece.width / 2;
    (piece.centre - half, piece.centre + half)
}

// The rectangle that goes along the axis from `from` to `to`, and across it from `low` to `high`.
fn strip(axis: Axis, from: i64, to: i64, low: i64, high: i64) -> Rect
    ensures { result ≡ strip axis from to low high }
{
    let (x1, y1) = turned(axis, from, low);
    let (x2, y2) = turned(axis, to, high);
    Rect { x1, y1, x2, y2 }
}

// A place by its x and y.
fn turned(axis: Axis, along: i64, across: i64) -> (i64, i64)
    ensures { result ≡ turned axis along across }
{
    match axis {
        Axis::X => (along, across),
        Axis::Y => (across, along),
    }
}

fn add_inside(all: &mut Vec<Metal>, at: &StackAt) -> Result<(), AllocError>
    ensures { OnOk result
        (all.new.items ≡ all.old.items ++ map (stack_metal at.now) (between at.now.stack.from at.now.stack.to)) }
{
    for layer in at.stack.from..at.stack.to {
        if at.stack.from < layer {
            all.push(Metal {
                layer,
                rect: at.crossing,
                net: at.net,
            })?;
        }
    }
    Ok(())
}
