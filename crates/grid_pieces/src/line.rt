ghost use Rattle.std.specs.Prelude.{◌≡◌};
ghost use Rattle.grid_pieces.specs.Line.{drawn_line};

use geom_rect::{Axis, Drawn, Rect, Run};

/// A line along which metal of a net lies on a routing layer, as wide as `width` and with its middle at `centre`.
/// `axis` is that of the layer.
#[derive(Clone, Copy, Debug, PartialEq, Eq)]
pub struct Line {
    pub net: u32,
    pub layer: u32,
    pub axis: Axis,
    pub centre: i64,
    pub width: i64,
}

/// The line that the shape lies on.
pub(crate) fn line_of(shape: &Drawn) -> Line
    ensures { result ≡ drawn_line shape.now }
{
    Line {
        net: shape.net,
        layer: shape.layer,
        axis: shape.axis,
        centre: shape.centre,
        width: shape.width,
    }
}
