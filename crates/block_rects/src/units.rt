//! Rectangles of a macro as units of the drawing, in their places.
ghost use Rattle.std.specs.Prelude.{◌≡◌};
ghost use Rattle.geom_rect.specs.Rect.{IsInOrder, HasCoordinates};
ghost use Rattle.via_arrays.specs.Lengths.{IsUnits};
ghost use Rattle.macro_blocks.specs.Limits.{IsNear, RectKeeps};
ghost use Rattle.macro_turns.specs.Limits.{PlacedKeeps};
ghost use Rattle.block_rects.specs.Placed.{in_units, rect_in_units, placed_rect};

use geom_rect::Rect;
use macro_blocks::BlockRect;
use macro_turns::{Placed, rect_in_place};
use rounding::div_floor;

// A micrometre, in pm.
const PICOMETRES: i128 = 1_000_000;

// A rectangle in its place.
pub(crate) fn placed_rect(units: u32, placed: Placed, rect: &BlockRect) -> Rect
    requires units { IsUnits units }
    requires placed { PlacedKeeps placed }
    requires rect { RectKeeps rect.now }
    ensures value { result ≡ placed_rect units placed rect.now }
    ensures in_order { IsInOrder result }
    ensures coordinates { HasCoordinates result }
{
    rect_in_place(placed, rect_in_units(units, rect))
}

fn rect_in_units(units: u32, rect: &BlockRect) -> Rect
    requires units { IsUnits units }
    requires rect { RectKeeps rect.now }
    ensures { result ≡ rect_in_units units rect.now }
{
    Rect {
        x1: in_units(units, rect.x1),
        y1: in_units(units, rect.y1),
        x2: in_units(units, rect.x2),
        y2: in_units(units, rect.y2),
    }
}

// A coordinate in units, rounded down.
fn in_units(units: u32, z: i64) -> i64
    requires units { IsUnits units }
    requires near { IsNear z }
    ensures { result ≡ in_units units z }
{
    div_floor(i128::from(units) * i128::from(z), PICOMETRES) as i64
}
