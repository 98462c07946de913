//! Rectangles by two corners.
ghost use Rattle.std.specs.Prelude.{◌≡◌, ◌≤◌, ◌+◌, map};
ghost use Rattle.def_design.specs.Record.{SaysPoint, SaysRect, between};
ghost use Rattle.def_design.specs.inside.Value.{IsCoordinate, HasCorners};
ghost use Rattle.reading.specs.Word.{heard_token};

use crate::value::{Value, number_at};
use geom_rect::Rect;
use reading::Heard;

/// A point of the design.
#[derive(Clone, Copy, Debug)]
pub(crate) struct Point {
    pub(crate) x: i64,
    pub(crate) y: i64,
}

/// The point that the word says which has n words before it, with the next one.
pub(crate) fn point_of(n: usize, unit: &[Heard<'_, Value>]) -> Point
    requires { n ≤ 8 }
    ensures { IsCoordinate n unit.now → IsCoordinate (n + 1) unit.now →
        SaysPoint n (map heard_token unit.now) result.x result.y }
{
    Point {
        x: number_at(n, unit),
        y: number_at(n + 1, unit),
    }
}

/// The least rectangle of two points.
fn between(one: Point, other: Point) -> Rect
    ensures { result ≡ between one.x one.y other.x other.y }
{
    Rect {
        x1: one.x.min(other.x),
        y1: one.y.min(other.y),
        x2: one.x.max(other.x),
        y2: one.y.max(other.y),
    }
}

/// The rectangle of the points after this many words and after four more.
pub(crate) fn rect_of(n: usize, unit: &[Heard<'_, Value>]) -> Rect
    requires { n ≤ 4 }
    ensures { HasCorners n unit.now → SaysRect n (map heard_token unit.now) result }
{
    let one = point_of(n, unit);
    let other = point_of(n + 4, unit);
    between(one, other)
}
