ghost use Rattle.std.specs.Prelude.{◌≡◌, ◌++◌, map, All, IfOk, OnOk};
ghost use Rattle.geom_rect.specs.Rect.{HasCoordinates};
ghost use Rattle.geom_rect.specs.Drawn.{centred};
ghost use Rattle.grid_pieces.specs.Limits.{WidthKeeps, PieceKeeps};
ghost use Rattle.grid_pieces.specs.Touch.{piece_metal, stack_metal, between, metal};

use crate::line::Line;
use crate::piece::{Piece, StackAt};
use geom_rect::{Axis, Rect};
use std::alloc::{AllocError, Global};

/// Metal of a net on a routing layer.
#[derive(Clone, Copy, Debug, PartialEq, Eq)]
pub struct Metal {
    pub layer: u32,
    pub rect: Rect,
    pub net: u32,
}

// What the pieces and the stacks have on the layers.
pub(crate) fn metal_of(
    alloc: Global,
    pieces: &[Piece],
    stacks: &[StackAt],
) -> Result<Vec<Metal>, AllocError>
    requires pieces { All PieceKeeps pieces.now }
    ensures { IfOk result (λ all. all.items ≡ metal pieces.now stacks.now) }
{
    let mut all = Vec::new(alloc);
    for piece in pieces {
        all.push(on_its_layer(piece))?;
    }
    for stack in stacks {
        add_stack(&mut all, stack)?;
    }
    Ok(all)
}

fn on_its_layer(piece: &Piece) -> Metal
    requires { PieceKeeps piece.now }
    ensures { result ≡ piece_metal piece.now }
{
    Metal {
        layer: piece.layer,
        rect: rect_of(piece.axis, piece.centre, piece.width, piece.from, piece.to),
        net: piece.net,
    }
}

fn rect_of(axis: Axis, centre: i64, width: i64, from: i64, to: i64) -> Rect
    requires width { WidthKeeps width }
    requires within { HasCoordinates (centred axis centre width from to) }
    ensures { result ≡ centred axis centre width from to }
{
    let half = width / 2;
    let low = centre - half;
    let high = centre + half;
    match axis {
        Axis::X => Rect {
            x1: from,
            y1: low,
            x2: to,
            y2: high,
        },
        Axis::Y => Rect {
            x1: low,
            y1: from,
            x2: high,
            y2: to,
        },
    }
}

// The crossing of the stack on each layer strictly inside it.
fn add_stack(all: &mut Vec<Metal>, at: &StackAt) -> Result<(), AllocError>
    ensures { OnOk result
        (all.new.items ≡ all.old.items ++ map (stack_metal at.now) (between at.now.stack.from at.now.stack.to)) }
{
    for layer in at.stack.from..at.stack.to {
        if layer != at.stack.from {
            all.push(Metal {
                layer,
                rect: at.crossing,
                net: at.net,
            })?;
        }
    }
    Ok(())
}
