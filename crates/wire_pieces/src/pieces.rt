ghost use Rattle.std.specs.Prelude.{◌≡◌, All, AllPairs, IfOk, false};
ghost use Rattle.std.specs.List.Sorted.{IsPermutation};
ghost use Rattle.std.specs.Ordering.{is_gt};
ghost use Rattle.grid_pieces.specs.declared.piece.Piece.{Piece};
ghost use Rattle.grid_pieces.specs.Limits.{DrawnKeeps, PieceKeeps};
ghost use Rattle.wire_pieces.specs.Pieces.{AreWirePieces, wire_order};
ghost use Rattle.wire_pieces.specs.inside.Axes.{ArePiecesAlong};

use crate::axis::{is_upright, shapes_along};
use geom_rect::Drawn;
use grid_pieces::{Piece, pieces};
use std::alloc::{AllocError, Global};

/// The pieces of drawn shapes that no blockage cuts: the maximal runs of cells of each line, each once, in the order of
/// net, layer, centre, start and width, and then those along x first.
pub fn wire_pieces(alloc: Global, shapes: &[Drawn]) -> Result<Vec<Piece>, AllocError>
    requires { All DrawnKeeps shapes.now }
    ensures pieces { IfOk result (λ pieces. AreWirePieces shapes.now pieces.items) }
    ensures keep { IfOk result (λ pieces. All PieceKeeps pieces.items) }
{
    let mut all = pieces_along(alloc, shapes, false)?;
    let mut upright = pieces_along(alloc, shapes, true)?;
    all.append(&mut upright)?;
    Ok(in_order(all))
}

// The pieces along one axis.
fn pieces_along(alloc: Global, shapes: &[Drawn], upright: bool) -> Result<Vec<Piece>, AllocError>
    requires { All DrawnKeeps shapes.now }
    ensures pieces { IfOk result (λ pieces. ArePiecesAlong shapes.now upright pieces.items) }
    ensures keep { IfOk result (λ pieces. All PieceKeeps pieces.items) }
{
    let some = shapes_along(alloc, shapes, upright)?;
    let cut = pieces(alloc, &some, &[])?;
    Ok(cut)
}

fn in_order(pieces: Vec<Piece>) -> Vec<Piece>
    ensures same { IsPermutation pieces.items result.items }
    ensures in_order { AllPairs (λ (a b : Piece). is_gt (wire_order a b) ≡ false) result.items }
{
    let mut all = pieces;
    sort(&mut all);
    all
}

fn sort(pieces: &mut [Piece])
    ensures same { IsPermutation pieces.old pieces.new }
    ensures in_order { AllPairs (λ (a b : Piece). is_gt (wire_order a b) ≡ false) pieces.new }
{
    pieces.sort_unstable_by_key(|piece| (
        piece.net,
        piece.layer,
        piece.centre,
        piece.from,
        piece.width,
        is_upright(piece.axis),
    ));
}
