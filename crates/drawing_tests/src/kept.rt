//! Pieces and stacks that are made up, as the sweeps of touches ask for them.
ghost use Rattle.std.specs.Prelude.{◌≡◌, All, IfOk, IsTrue};
ghost use Rattle.geom_rect.specs.Rect.{IsInOrder};
ghost use Rattle.grid_pieces.specs.Limits.{PieceKeeps};

use entry_list::Entries;
use geom_rect::Rect;
use grid_pieces::{Piece, StackAt};
use std::alloc::{AllocError, Global};
use via_arrays::Stack;

// The next state of a generator of numbers.
pub(crate) fn next(state: u64) -> u64 {
    state
        .wrapping_mul(6_364_136_223_846_793_005)
        .wrapping_add(1_442_695_040_888_963_407)
}

// Whether the piece keeps what is asked of pieces, with its coordinates within 2^60 of 0.
pub(crate) fn keeps(piece: &Piece) -> bool
    ensures { IsTrue result → PieceKeeps piece.now }
{
    let far = 1 << 60;
    if piece.width < 2 || piece.width >= 1 << 32 || piece.from >= piece.to {
        return false;
    }
    if piece.centre < -far || piece.centre > far {
        return false;
    }
    piece.from >= -far && piece.to <= far
}

// The pieces that do.
pub(crate) fn keeping(alloc: Global, pieces: &[Piece]) -> Result<Vec<Piece>, AllocError>
    ensures { IfOk result (λ kept. All PieceKeeps kept.items) }
{
    let mut kept = Vec::new(alloc);
    for piece in pieces {
        if keeps(piece) {
            kept.push(*piece)?;
        }
    }
    Ok(kept)
}

pub(crate) fn in_order(r: Rect) -> Rect
    ensures { IsInOrder result }
{
    Rect {
        x1: r.x1.min(r.x2),
        y1: r.y1.min(r.y2),
        x2: r.x1.max(r.x2),
        y2: r.y1.max(r.y2),
    }
}

pub(crate) fn stack(alloc: Global, net: u32, from: u32, to: u32, crossing: Rect) -> StackAt
    ensures { result.crossing ≡ crossing }
{
    StackAt {
        net,
        x: 0,
        y: 0,
        crossing,
        stack: Stack {
            from,
            to,
            arrays: Entries::new(Vec::new(alloc)),
            ohms: Entries::new(Vec::new(alloc)),
        },
    }
}
