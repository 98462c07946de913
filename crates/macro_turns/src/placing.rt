ghost use Rattle.std.specs.Prelude.{◌≡◌, pos};
ghost use Rattle.geom_rect.specs.Rect.{HasCoordinates, IsInOrder};
ghost use Rattle.macro_turns.specs.Turns.{turned, from_edge, point_in_place, rect_in_place, box_in_place, spanned, HasPlacesOf};
ghost use Rattle.macro_turns.specs.Limits.{IsLength, IsNear, PlacedKeeps, PointKeeps, RectKeeps};

use crate::turned::{Placed, Point};
use geom_rect::{Orient, Rect};

/// Where a point of a macro lies.
pub fn point_in_place(placed: Placed, point: Point) -> Point
    requires placed { PlacedKeeps placed }
    requires point { PointKeeps point }
    ensures { result ≡ point_in_place placed point }
{
    let turned = turned(placed, point);
    Point {
        x: placed.corner.x + turned.x,
        y: placed.corner.y + turned.y,
    }
}

/// Where a rectangle of a macro lies: it has the places of its points, and no others.
pub fn rect_in_place(placed: Placed, rect: Rect) -> Rect
    requires placed { PlacedKeeps placed }
    requires rect { RectKeeps rect }
    ensures points { HasPlacesOf placed rect result }
    ensures in_order { IsInOrder result }
    ensures corners { result ≡ rect_in_place placed rect }
    ensures coordinates { HasCoordinates result }
{
    let first = Point {
        x: rect.x1,
        y: rect.y1,
    };
    let last = Point {
        x: rect.x2,
        y: rect.y2,
    };
    spanned(point_in_place(placed, first), point_in_place(placed, last))
}

/// The box of a macro: it begins at its corner, and is as wide as the macro is high where it lies on its side.
pub fn box_in_place(placed: Placed) -> Rect
    requires { PlacedKeeps placed }
    ensures corners { result ≡ box_in_place placed }
    ensures left { result.x1 ≡ placed.corner.x }
    ensures bottom { result.y1 ≡ placed.corner.y }
    ensures in_order { IsInOrder result }
    ensures coordinates { HasCoordinates result }
{
    rect_in_place(
        placed,
        Rect {
            x1: 0,
            y1: 0,
            x2: placed.width,
            y2: placed.height,
        },
    )
}

// The least rectangle with both points.
fn spanned(a: Point, b: Point) -> Rect
    ensures { result ≡ spanned a b }
{
    Rect {
        x1: a.x.min(b.x),
        y1: a.y.min(b.y),
        x2: a.x.max(b.x),
        y2: a.y.max(b.y),
    }
}

// A point of a macro whose corner is at 0.
fn turned(placed: Placed, point: Point) -> Point
    requires placed { PlacedKeeps placed }
    requires point { PointKeeps point }
    ensures { result ≡ turned placed.orient placed.width placed.height point }
{
    let x = point.x;
    let y = point.y;
    let right = from_edge(placed.width, x);
    let top = from_edge(placed.height, y);
    match placed.orient {
        Orient::N => Point { x, y },
        Orient::S => Point { x: right, y: top },
        Orient::W => Point { x: top, y: x },
        Orient::E => Point { x: y, y: right },
        Orient::FN => Point { x: right, y },
        Orient::FS => Point { x, y: top },
        Orient::FW => Point { x: y, y: x },
        Orient::FE => Point { x: top, y: right },
    }
}

// How far a coordinate is from the upper edge of a macro of this size.
fn from_edge(size: i64, at: i64) -> i64
    requires size { IsLength size }
    requires at { IsNear at }
    ensures { result ≡ from_edge size at }
{
    size - at
}
