//! The orders of rectangles and of touches.
ghost use Rattle.std.specs.Prelude.{◌≡◌};
ghost use Rattle.std.specs.Ordering.{is_gt};
ghost use Rattle.grid_pieces.specs.Touch.{rect_order, touch_order};

use geom_rect::Rect;
use grid_pieces::Touching;
use std::cmp::Ordering;

pub(crate) fn rect_order(a: Rect, b: Rect) -> Ordering
    ensures { result ≡ rect_order a b }
{
    a.x1.cmp(&b.x1)
        .then(a.y1.cmp(&b.y1))
        .then(a.x2.cmp(&b.x2))
        .then(a.y2.cmp(&b.y2))
}

pub(crate) fn touch_order(a: Touching, b: Touching) -> Ordering
    ensures { result ≡ touch_order a b }
{
    a.layer
        .cmp(&b.layer)
        .then(rect_order(a.first, b.first))
        .then(rect_order(a.second, b.second))
        .then(a.same.cmp(&b.same))
}

pub(crate) fn comes_after(a: Touching, b: Touching) -> bool
    ensures { result ≡ is_gt (touch_order a b) }
{
    touch_order(a, b).is_gt()
}
