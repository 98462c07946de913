ghost use Rattle.std.specs.Prelude.{◌≡◌, ◌≢◌, ◌<◌, ◌≤◌, ℕ, All, AllPairs, IfOk, length, slice_index_or, false};
ghost use Rattle.std.specs.List.Sorted.{IsPermutation};
ghost use Rattle.std.specs.Ordering.{is_gt};
ghost use Rattle.geom_rect.specs.declared.drawn.Drawn.{Drawn};
ghost use Rattle.grid_pieces.specs.declared.piece.Piece.{Piece};
ghost use Rattle.grid_pieces.specs.Limits.{DrawnKeeps, PieceKeeps, OneAxis};
ghost use Rattle.grid_pieces.specs.Line.{drawn_line};
ghost use Rattle.grid_pieces.specs.Piece.{ArePieces, piece_order};
ghost use Rattle.grid_pieces.specs.inside.Cutting.{IsGrouped, ArePiecesUpTo};

use crate::blockages::Blockages;
use crate::line::line_of;
use crate::line_cut::line_pieces;
use crate::piece::{Block, Piece};
use geom_rect::Drawn;
use std::alloc::{AllocError, Global};

/// The pieces into which the blockages cut the drawn shapes: the maximal runs of covered cells of each line, each once,
/// in the order of net, layer, centre, start and width.
pub fn pieces(alloc: Global, shapes: &[Drawn], blocks: &[Block]) -> Result<Vec<Piece>, AllocError>
    requires shapes { All DrawnKeeps shapes.now }
    requires one_axis { OneAxis shapes.now }
    ensures pieces { IfOk result (λ pieces. ArePieces shapes.now blocks.now pieces.items) }
    ensures keep { IfOk result (λ pieces. All PieceKeeps pieces.items) }
{
    let grouped = by_line(alloc, shapes)?;
    let blocks = Blockages::new(alloc, blocks)?;
    let mut pieces = pieces_of_lines(alloc, &grouped, &blocks)?;
    sort(&mut pieces);
    Ok(pieces)
}

// The shapes with those of each line together.
fn by_line(alloc: Global, shapes: &[Drawn]) -> Result<Vec<Drawn>, AllocError>
    requires { OneAxis shapes.now }
    ensures same { IfOk result (λ grouped. IsPermutation shapes.now grouped.items) }
    ensures grouped { IfOk result (λ grouped. IsGrouped grouped.items) }
{
    let mut grouped = copy(alloc, shapes)?;
    group(&mut grouped);
    Ok(grouped)
}

fn copy(alloc: Global, shapes: &[Drawn]) -> Result<Vec<Drawn>, AllocError>
    ensures { IfOk result (λ copy. copy.items ≡ shapes.now) }
{
    shapes.iter().copied().collect(alloc)
}

fn group(shapes: &mut [Drawn])
    requires { OneAxis shapes.old }
    ensures same { IsPermutation shapes.old shapes.new }
    ensures grouped { IsGrouped shapes.new }
{
    shapes.sort_unstable_by_key(|shape| (shape.net, shape.layer, shape.centre, shape.width));
}

fn sort(pieces: &mut [Piece])
    ensures same { IsPermutation pieces.old pieces.new }
    ensures in_order { AllPairs (λ (a b : Piece). is_gt (piece_order a b) ≡ false) pieces.new }
{
    pieces.sort_unstable_by_key(|piece| (
        piece.net,
        piece.layer,
        piece.centre,
        piece.from,
        piece.width,
    ));
}

// The pieces of shapes of which those of each line stand together.
fn pieces_of_lines(
    alloc: Global,
    shapes: &[Drawn],
    blocks: &Blockages,
) -> Result<Vec<Piece>, AllocError>
    requires keep { All DrawnKeeps shapes.now }
    requires grouped { IsGrouped shapes.now }
    ensures { IfOk result (λ pieces. ArePiecesUpTo shapes.now blocks.now shapes.now pieces.items) }
{
    let mut pieces = Vec::new(alloc);
    let mut from = 0;
    while from < shapes.len() {
        let to = line_end(shapes, from);
        let mut more = line_pieces(alloc, line_of(&shapes[from]), &shapes[from..to], blocks)?;
        pieces.append(&mut more)?;
        from = to;
    }
    Ok(pieces)
}

// The place after the shapes from `from` on that lie on its line.
fn line_end(shapes: &[Drawn], from: usize) -> usize
    requires { from < length shapes.now }
    ensures some { from < result }
    ensures within { result ≤ length shapes.now }
    ensures on_line { (k : ℕ) (d : Drawn) → from ≤ k → k < result
        → drawn_line (slice_index_or shapes.now k d) ≡ drawn_line (slice_index_or shapes.now from d) }
    ensures behind { (d : Drawn) → result < length shapes.now
        → drawn_line (slice_index_or shapes.now result d) ≢ drawn_line (slice_index_or shapes.now from d) }
{
    let line = line_of(&shapes[from]);
    let mut to = from + 1;
    while to < shapes.len() && line_of(&shapes[to]) == line {
        to += 1;
    }
    to
}
