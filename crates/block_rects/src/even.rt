//! Rectangles with an even extent across a direction.
ghost use Rattle.std.specs.Prelude.{◌≡◌, pos, ◌+ℤ◌, ◌-ℤ◌, ◌≤ℤ◌};
ghost use Rattle.geom_rect.specs.Drawn.{half};
ghost use Rattle.geom_rect.specs.Rect.{IsInOrder, IsCoordinate, HasCoordinates};
ghost use Rattle.block_rects.specs.Placed.{even_end, evened, has_area};

use geom_rect::{Axis, Rect};

// The rectangle with an even extent across a direction.
pub(crate) fn evened(axis: Axis, rect: Rect) -> Rect
    requires in_order { IsInOrder rect }
    requires coordinates { HasCoordinates rect }
    ensures { result ≡ evened axis rect }
{
    match axis {
        Axis::X => Rect {
            x1: rect.x1,
            y1: rect.y1,
            x2: rect.x2,
            y2: even_end(rect.y1, rect.y2),
        },
        Axis::Y => Rect {
            x1: rect.x1,
            y1: rect.y1,
            x2: even_end(rect.x1, rect.x2),
            y2: rect.y2,
        },
    }
}

// The upper end, or one lower where the extent is odd.
fn even_end(low: i64, high: i64) -> i64
    requires in_order { low ≤ℤ high }
    requires from { IsCoordinate low }
    requires to { IsCoordinate high }
    ensures { result ≡ even_end low high }
{
    let half = half_of(extent(low, high));
    sum(sum(low, half), half)
}

fn extent(low: i64, high: i64) -> i64
    requires from { IsCoordinate low }
    requires to { IsCoordinate high }
    ensures { result ≡ high -ℤ low }
{
    high - low
}

fn sum(a: i64, b: i64) -> i64
    requires { IsCoordinate (a +ℤ b) }
    ensures { result ≡ a +ℤ b }
{
    a + b
}

#[tactic(auto, using(crate::proofs::Extents::twice_half))]
fn half_of(size: i64) -> i64
    requires { pos 0 ≤ℤ size }
    ensures value { result ≡ half size }
    ensures some { pos 0 ≤ℤ result }
    ensures within { (result +ℤ result) ≤ℤ size }
{
    size / 2
}

pub(crate) fn has_area(rect: Rect) -> bool
    ensures { result ≡ has_area rect }
{
    rect.x1 < rect.x2 && rect.y1 < rect.y2
}
