//! Rectangles by their spans in x and in y.
ghost use Rattle.std.specs.Prelude.{◌≡◌};
ghost use Rattle.grid_plan.specs.Regions.{spans_meet, meet, share_length, share_area};

use geom_rect::Rect;

// Whether two closed rectangles meet.
pub(crate) fn meet(a: Rect, b: Rect) -> bool
    ensures { result ≡ meet a b }
{
    spans_meet(a.x1, a.x2, b.x1, b.x2) && spans_meet(a.y1, a.y2, b.y1, b.y2)
}

fn spans_meet(from: i64, to: i64, other_from: i64, other_to: i64) -> bool
    ensures { result ≡ spans_meet from to other_from other_to }
{
    from <= other_to && other_from <= to
}

// Whether two rectangles share an area.
pub(crate) fn share_area(a: Rect, b: Rect) -> bool
    ensures { result ≡ share_area a b }
{
    share_length(a.x1, a.x2, b.x1, b.x2) && share_length(a.y1, a.y2, b.y1, b.y2)
}

fn share_length(from: i64, to: i64, other_from: i64, other_to: i64) -> bool
    ensures { result ≡ share_length from to other_from other_to }
{
    from.max(other_from) < to.min(other_to)
}
