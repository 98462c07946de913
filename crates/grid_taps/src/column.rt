ghost use Rattle.std.specs.Prelude.{◌≡◌};
ghost use Rattle.grid_taps.specs.inside.Index.{window_of};

use geom_rect::Rect;

/// A column of a drawing: the points at `x` from `lower` to `upper`, both included. Only definitions speak of it.
#[derive(Clone, Copy, Debug, PartialEq, Eq)]
pub struct Column {
    pub x: i64,
    pub lower: i64,
    pub upper: i64,
}

// Its points, as a rectangle that is flat.
pub(crate) fn window_of(column: Column) -> Rect
    ensures { result ≡ window_of column }
{
    Rect {
        x1: column.x,
        y1: column.lower,
        x2: column.x,
        y2: column.upper,
    }
}
