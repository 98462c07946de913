//! Whether two pieces cross, and where.
ghost use Rattle.std.specs.Prelude.{◌≡◌, ◌↔◌, IsTrue};
ghost use Rattle.grid_pieces.specs.Limits.{PieceKeeps};
ghost use Rattle.grid_pieces.specs.Line.{across};
ghost use Rattle.grid_stacks.specs.Crossing.{Cross, Joins, HasWidth, common, crossing_of, limit_of, site_of};

use crate::metal::rect_of;
use crate::same::{same_axis, same_run};
use geom_rect::{Axis, Rect, Run};
use grid_pieces::Piece;
use grid_stacks::{Connect, Site};

// Whether a horizontal and a vertical piece cross: they are of one net and on the two layers of the connect, and their
// common rectangle has the full width of both.
pub(crate) fn is_crossing(connect: Connect, flat: &Piece, upright: &Piece) -> bool
    requires flat { PieceKeeps flat.now }
    requires upright { PieceKeeps upright.now }
    ensures { IsTrue result ↔ Cross connect flat.now upright.now }
{
    let crossing = crossing_of(flat, upright);
    same_axis(flat.axis, Axis::X)
        && same_axis(upright.axis, Axis::Y)
        && flat.net == upright.net
        && joins(connect, flat, upright)
        && has_width(crossing, flat)
        && has_width(crossing, upright)
}

fn joins(connect: Connect, one: &Piece, other: &Piece) -> bool
    ensures { IsTrue result ↔ Joins connect one.now other.now }
{
    (one.layer == connect.from && other.layer == connect.to)
        || (one.layer == connect.to && other.layer == connect.from)
}

fn has_width(rect: Rect, piece: &Piece) -> bool
    requires { PieceKeeps piece.now }
    ensures { IsTrue result ↔ HasWidth rect piece.now }
{
    same_run(across(piece.axis, rect), across(piece.axis, rect_of(piece)))
}

fn across(axis: Axis, rect: Rect) -> Run
    ensures { result ≡ across axis rect }
{
    let (from, to) = match axis {
        Axis::X => (rect.y1, rect.y2),
        Axis::Y => (rect.x1, rect.x2),
    };
    Run { from, to }
}

// The rectangle in both.
pub(crate) fn crossing_of(one: &Piece, other: &Piece) -> Rect
    requires one { PieceKeeps one.now }
    requires other { PieceKeeps other.now }
    ensures { result ≡ crossing_of one.now other.now }
{
    common(rect_of(one), rect_of(other))
}

fn common(a: Rect, b: Rect) -> Rect
    ensures { result ≡ common a b }
{
    Rect {
        x1: a.x1.max(b.x1),
        y1: a.y1.max(b.y1),
        x2: a.x2.min(b.x2),
        y2: a.y2.min(b.y2),
    }
}

// The place of the crossing.
pub(crate) fn site_of(connect: Connect, flat: &Piece, upright: &Piece) -> Site
    requires flat { PieceKeeps flat.now }
    requires upright { PieceKeeps upright.now }
    ensures { result ≡ site_of connect flat.now upright.now }
{
    Site {
        net: flat.net,
        x: upright.centre,
        y: flat.centre,
        from: connect.from,
        to: connect.to,
        crossing: crossing_of(flat, upright),
        max_columns: limit_of(connect.max_columns),
        max_rows: limit_of(connect.max_rows),
    }
}

fn limit_of(stated: Option<u32>) -> u32
    ensures { result ≡ limit_of stated }
{
    stated.unwrap_or(u32::MAX)
}
