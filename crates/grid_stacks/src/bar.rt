ghost use Rattle.std.specs.Prelude.{◌≡◌, ◌↔◌, IsTrue, IfOk, All, AllPairs, false};
ghost use Rattle.std.specs.List.Sorted.{IsPermutation};
ghost use Rattle.std.specs.Ordering.{int_cmp, is_gt};
ghost use Rattle.grid_pieces.specs.Limits.{PieceKeeps};
ghost use Rattle.grid_stacks.specs.Stacking.{IsEven, LieApart};
ghost use Rattle.grid_stacks.specs.inside.Bar.{IsOn, bar_of, AreBarsOf, AreByLow, AreByNet, AreStarts};

use crate::connect::Connect;
use geom_rect::Axis;
use grid_pieces::Piece;
use std::alloc::{AllocError, Global};

// A piece of a connect's layers with its edges across it.
#[derive(Clone, Copy, Debug, PartialEq, Eq)]
pub(crate) struct Bar {
    pub(crate) net: u32,
    pub(crate) layer: u32,
    pub(crate) centre: i64,
    pub(crate) low: i64,
    pub(crate) high: i64,
    pub(crate) from: i64,
    pub(crate) to: i64,
}

// The pieces along the axis that lie on the layers of the connect.
pub(crate) fn bars(
    alloc: Global,
    pieces: &[Piece],
    connect: &Connect,
    axis: Axis,
) -> Result<Vec<Bar>, AllocError>
    requires keep { All PieceKeeps pieces.now }
    requires even { All IsEven pieces.now }
    requires apart { AllPairs LieApart pieces.now }
    ensures { IfOk result (λ bars. AreBarsOf connect.now axis pieces.now bars.items) }
{
    let mut bars = Vec::new(alloc);
    for piece in pieces {
        if is_on(connect, axis, piece) {
            bars.push(bar_of(piece))?;
        }
    }
    Ok(bars)
}

fn is_on(connect: &Connect, axis: Axis, piece: &Piece) -> bool
    ensures { IsTrue result ↔ IsOn connect.now axis piece.now }
{
    same_axis(piece.axis, axis) && (piece.layer == connect.from || piece.layer == connect.to)
}

fn same_axis(a: Axis, b: Axis) -> bool
    ensures { IsTrue result ↔ (a ≡ b) }
{
    a == b
}

fn bar_of(piece: &Piece) -> Bar
    requires { PieceKeeps piece.now }
    ensures { result ≡ bar_of piece.now }
{
    let half = piece.width / 2;
    Bar {
        net: piece.net,
        layer: piece.layer,
        centre: piece.centre,
        low: piece.centre - half,
        high: piece.centre + half,
        from: piece.from,
        to: piece.to,
    }
}

pub(crate) fn sort_by_low(bars: &mut [Bar])
    ensures same { IsPermutation bars.old bars.new }
    ensures in_order { AreByLow bars.new }
{
    bars.sort_unstable_by_key(|bar| bar.low);
}

pub(crate) fn sort_by_net(bars: &mut [Bar])
    ensures same { IsPermutation bars.old bars.new }
    ensures in_order { AreByNet bars.new }
{
    bars.sort_unstable_by_key(|bar| (bar.net, bar.low));
}

// Where a bar begins, and its place.
#[derive(Clone, Copy, Debug, PartialEq, Eq)]
pub(crate) struct Start {
    pub(crate) from: i64,
    pub(crate) place: usize,
}

// Where the bars begin, in order.
pub(crate) fn starts(alloc: Global, bars: &[Bar]) -> Result<Vec<Start>, AllocError>
    ensures { IfOk result (λ starts. AreStarts bars.now starts.items) }
{
    let mut starts = Vec::new(alloc);
    for (place, bar) in bars.iter().enumerate() {
        starts.push(Start {
            from: bar.from,
            place,
        })?;
    }
    sort_starts(&mut starts);
    Ok(starts)
}

fn sort_starts(starts: &mut [Start])
    ensures same { IsPermutation starts.old starts.new }
    ensures in_order { AllPairs (λ (a b : Start). is_gt (int_cmp a.from b.from) ≡ false) starts.new }
{
    starts.sort_unstable_by_key(|start| start.from);
}
