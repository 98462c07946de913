ghost use Rattle.std.specs.Prelude.{◌≡◌, ◌≤ℤ◌, ◌↔◌, pos, IsTrue};
ghost use Rattle.geom_rect.specs.Rect.{SharePoint, ShareArea, grown_by, HasCoordinates, IsInOrder};
ghost use Rattle.geom_rect.specs.inside.Rect.{ShareLength, ShareSquare};

/// No coordinate of a drawing is farther from 0 than this many units.
pub const GREATEST_COORDINATE: i64 = 2_305_843_009_213_693_952;

/// A rectangle from (`x1`, `y1`) up to (`x2`, `y2`), with `x1` at most `x2` and `y1` at most `y2`. Coordinates are
/// units of a drawing, at most `GREATEST_COORDINATE` from 0. A rectangle that is out of order has no point. Rectangles
/// are compared by `x1`, `y1`, `x2` and `y2`, in turn.
#[derive(Clone, Copy, Debug, PartialEq, Eq, PartialOrd, Ord)]
pub struct Rect {
    pub x1: i64,
    pub y1: i64,
    pub x2: i64,
    pub y2: i64,
}

/// Whether the two rectangles share a point, edges included.
pub fn meets(a: Rect, b: Rect) -> bool
    ensures { IsTrue result ↔ SharePoint a b }
{
    share_square(a, b, 0)
}

/// Whether the two rectangles share an area.
pub fn overlaps(a: Rect, b: Rect) -> bool
    ensures { IsTrue result ↔ ShareArea a b }
{
    share_square(a, b, 1)
}

/// The rectangle with each edge `by` further out.
pub fn grown(a: Rect, by: i64) -> Rect
    requires { HasCoordinates (grown_by a by) }
    ensures edges { result ≡ grown_by a by }
    ensures in_order { IsInOrder a → pos 0 ≤ℤ by → IsInOrder result }
{
    Rect {
        x1: a.x1 - by,
        y1: a.y1 - by,
        x2: a.x2 + by,
        y2: a.y2 + by,
    }
}

// Whether the two rectangles share a square of this side; where it is 0, a point.
fn share_square(a: Rect, b: Rect, side: i64) -> bool
    requires { pos 0 ≤ℤ side }
    ensures { IsTrue result ↔ ShareSquare a b side }
{
    share_length(a.x1, a.x2, b.x1, b.x2, side) && share_length(a.y1, a.y2, b.y1, b.y2, side)
}

// Whether two intervals of an axis share one of this length, ends included.
fn share_length(a1: i64, a2: i64, b1: i64, b2: i64, length: i64) -> bool
    requires { pos 0 ≤ℤ length }
    ensures { IsTrue result ↔ ShareLength a1 a2 b1 b2 length }
{
    let low = a1.max(b1);
    let high = a2.min(b2);
    match high.checked_sub(length) {
        Some(last) => low <= last,
        None => false,
    }
}
