ghost use Rattle.std.specs.Prelude.{◌≡◌};
ghost use Rattle.via_arrays.specs.Extents.{extent, width_across};

use geom_rect::{Axis, Rect};

// The extent of a rectangle along an axis.
pub(crate) fn extent(axis: Axis, rect: Rect) -> u64
    ensures { result ≡ extent axis rect }
{
    match axis {
        Axis::X => rect.x2.abs_diff(rect.x1),
        Axis::Y => rect.y2.abs_diff(rect.y1),
    }
}

// The width of a layer of this direction at a crossing.
pub(crate) fn width_across(direction: Axis, crossing: Rect) -> u64
    ensures { result ≡ width_across direction crossing }
{
    match direction {
        Axis::X => extent(Axis::Y, crossing),
        Axis::Y => extent(Axis::X, crossing),
    }
}
