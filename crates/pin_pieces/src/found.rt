//! The pieces at a place.
ghost use Rattle.std.specs.Prelude.{◌≡◌, ◌<◌, ◌^◌, IfOk, All, length};
ghost use Rattle.geom_rect.specs.Drawn.{centred};
ghost use Rattle.geom_rect.specs.Rect.{HasCoordinates};
ghost use Rattle.grid_pieces.specs.Limits.{WidthKeeps, PieceKeeps};
ghost use Rattle.pin_pieces.specs.inside.Steps.{ListsAll, piece_entry, IsPieceEntry};

use geom_rect::{Axis, Rect};
use grid_pieces::Piece;
use rect_index::{Entry, RectIndex};
use std::alloc::{AllocError, Global};

// An index of the metal of pieces, by their nets.
pub(crate) fn index_of(alloc: Global, pieces: &[Piece]) -> Result<RectIndex<u32>, AllocError>
    requires few { length pieces.now < 2 ^ 32 }
    requires keep { All PieceKeeps pieces.now }
    ensures { IfOk result (λ index. ListsAll (IsPieceEntry pieces.now) index) }
{
    let mut entries = Vec::with_capacity(alloc, pieces.len())?;
    for (number, piece) in pieces.iter().enumerate() {
        entries.push(piece_entry(number as u32, piece))?;
    }
    RectIndex::new(alloc, &entries)
}

fn piece_entry(number: u32, piece: &Piece) -> Entry<u32>
    requires { PieceKeeps piece.now }
    ensures { result ≡ piece_entry number piece.now }
{
    Entry {
        group: piece.net,
        rect: centred(piece.axis, piece.centre, piece.width, piece.from, piece.to),
        item: number,
    }
}

// The rectangle along an axis with half of its width on each side of its centre line.
pub(crate) fn centred(axis: Axis, centre: i64, width: i64, from: i64, to: i64) -> Rect
    requires width { WidthKeeps width }
    requires coordinates { HasCoordinates (centred axis centre width from to) }
    ensures { result ≡ centred axis centre width from to }
{
    let low = centre - width / 2;
    let high = centre + width / 2;
    match axis {
        Axis::X => Rect {
            x1: from,
            y1: low,
            x2: to,
            y2: high,
        },
        Axis::Y => Rect {
            x1: low,
            y1: from,
            x2: high,
            y2: to,
        },
    }
}
