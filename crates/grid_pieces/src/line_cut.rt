ghost use Rattle.std.specs.Prelude.{◌≡◌, ◌↔◌, ◌<ℤ◌, ◌≤ℤ◌, All, IfOk, IsTrue, length};
ghost use Rattle.std.specs.List.{AllWithin};
ghost use Rattle.grid_pieces.specs.inside.Cutting.{AreSeparate, HaveCells};
ghost use Rattle.geom_rect.specs.declared.drawn.Drawn.{Drawn};
ghost use Rattle.geom_rect.specs.declared.run.Run.{Run};
ghost use Rattle.grid_pieces.specs.declared.piece.Piece.{Piece};
ghost use Rattle.grid_pieces.specs.Line.{drawn_line, piece_line, piece_run};
ghost use Rattle.grid_pieces.specs.inside.Blockages.{LineKeeps};
ghost use Rattle.grid_pieces.specs.inside.Cutting.{IsOfKind, ShareCell, IsKindOf, AreMadeOf, ArePiecesOf};

use crate::blockages::Blockages;
use crate::cover::{drawn_runs, runs_of_kind};
use crate::line::Line;
use crate::piece::Piece;
use geom_rect::{Drawn, Run, Shape, runs};
use std::alloc::{AllocError, Global};

// The pieces of a line that all these shapes lie on, rising.
pub(crate) fn line_pieces(
    alloc: Global,
    line: Line,
    shapes: &[Drawn],
    blocks: &Blockages,
) -> Result<Vec<Piece>, AllocError>
    requires keeps { LineKeeps line }
    requires on_line { All (λ (s : Drawn). drawn_line s ≡ line) shapes.now }
    ensures { IfOk result (λ pieces. ArePiecesOf shapes.now blocks.now line pieces.items) }
{
    let blocked = blocks.runs(alloc, line)?;
    let covered = drawn_runs(alloc, shapes)?;
    let whole = runs(alloc, &covered, &blocked)?;
    let rings = runs_of_kind(alloc, shapes, Shape::Ring)?;
    let rings = runs(alloc, &rings, &blocked)?;
    let stripes = runs_of_kind(alloc, shapes, Shape::Stripe)?;
    let stripes = runs(alloc, &stripes, &blocked)?;
    on_line(alloc, line, &whole, &rings, &stripes)
}

// A piece for each of the runs.
fn on_line(
    alloc: Global,
    line: Line,
    whole: &[Run],
    rings: &[Run],
    stripes: &[Run],
) -> Result<Vec<Piece>, AllocError>
    requires whole { HaveCells whole.now }
    requires rings { AreSeparate rings.now }
    requires stripes { AreSeparate stripes.now }
    ensures { IfOk result (λ pieces. AreMadeOf line whole.now rings.now stripes.now pieces.items) }
{
    let mut pieces = Vec::new(alloc);
    for run in whole {
        pieces.push(piece_on(line, *run, kind_of(rings, stripes, *run)))?;
    }
    Ok(pieces)
}

fn piece_on(line: Line, run: Run, shape: Shape) -> Piece
    ensures line { piece_line result ≡ line }
    ensures run { piece_run result ≡ run }
    ensures shape { result.shape ≡ shape }
{
    Piece {
        net: line.net,
        layer: line.layer,
        axis: line.axis,
        centre: line.centre,
        width: line.width,
        from: run.from,
        to: run.to,
        shape,
    }
}

// The first kind of shape with a cell in the run.
fn kind_of(rings: &[Run], stripes: &[Run], run: Run) -> Shape
    requires some { run.from <ℤ run.to }
    requires rings { AreSeparate rings.now }
    requires stripes { AreSeparate stripes.now }
    ensures { IsKindOf rings.now stripes.now run result }
{
    if share_cell(rings, run) {
        Shape::Ring
    } else if share_cell(stripes, run) {
        Shape::Stripe
    } else {
        Shape::FollowPin
    }
}

// Whether one of the runs, which lie apart and rise, has a cell of `run`.
fn share_cell(runs: &[Run], run: Run) -> bool
    requires some { run.from <ℤ run.to }
    requires separate { AreSeparate runs.now }
    ensures { IsTrue result ↔ ShareCell runs.now run }
{
    let place = first_after(runs, run.from);
    place < runs.len() && runs[place].from < run.to
}

// The place of the first run that ends after `from`.
fn first_after(runs: &[Run], from: i64) -> usize
    requires { AreSeparate runs.now }
    ensures passed { AllWithin (λ (r : Run). r.to ≤ℤ from) runs.now 0 result }
    ensures behind { AllWithin (λ (r : Run). from <ℤ r.to) runs.now result (length runs.now) }
{
    runs.partition_point(|run| run.to <= from)
}
