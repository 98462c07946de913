//! Whether two values are one.
ghost use Rattle.std.specs.Prelude.{◌≡◌, ◌↔◌, IsTrue};

use geom_rect::{Axis, Rect, Run};
use grid_stacks::Site;
use lef_tech::LayerRef;

pub(crate) fn same_axis(a: Axis, b: Axis) -> bool
    ensures { IsTrue result ↔ (a ≡ b) }
{
    a == b
}

pub(crate) fn same_layer(a: LayerRef, b: LayerRef) -> bool
    ensures { IsTrue result ↔ (a ≡ b) }
{
    match (a, b) {
        (LayerRef::Routing(i), LayerRef::Routing(j)) => i == j,
        (LayerRef::Cut(i), LayerRef::Cut(j)) => i == j,
        _ => false,
    }
}

pub(crate) fn same_run(a: Run, b: Run) -> bool
    ensures { IsTrue result ↔ (a ≡ b) }
{
    a.from == b.from && a.to == b.to
}

fn same_rect(a: Rect, b: Rect) -> bool
    ensures { IsTrue result ↔ (a ≡ b) }
{
    a.x1 == b.x1 && a.y1 == b.y1 && a.x2 == b.x2 && a.y2 == b.y2
}

pub(crate) fn same_site(a: Site, b: Site) -> bool
    ensures { IsTrue result ↔ (a ≡ b) }
{
    a.net == b.net
        && a.x == b.x
        && a.y == b.y
        && a.from == b.from
        && a.to == b.to
        && same_rect(a.crossing, b.crossing)
        && a.max_columns == b.max_columns
        && a.max_rows == b.max_rows
}
