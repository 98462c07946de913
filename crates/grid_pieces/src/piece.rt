use geom_rect::{Axis, Rect, Shape};
use lef_tech::LayerRef;
use via_arrays::Stack;

/// A piece of a net's metal on a routing layer, in units of a drawing. It goes along `axis` from `from` up to `to`,
/// `from` below `to`, with half of its even `width` on each side of the line at `centre`.
///
/// `net` and `layer` are places, from 0, in the lists of nets and of routing layers. `shape` is what it is drawn as
/// (LEF/DEF 5.8 Language Reference, special wiring, SHAPE).
#[derive(Clone, Copy, Debug, PartialEq, Eq)]
pub struct Piece {
    pub net: u32,
    pub layer: u32,
    pub axis: Axis,
    pub centre: i64,
    pub width: i64,
    pub from: i64,
    pub to: i64,
    pub shape: Shape,
}

/// A stack of a net, in units of a drawing. Of a grid that is drawn it stands at a crossing of two pieces: `x` and `y` are
/// where their centre lines cross, and `crossing` is the rectangle in both. Of wiring that is there already it stands where
/// its vias do, and `crossing` is the smallest rectangle that holds their metal.
#[derive(Debug, Drop)]
pub struct StackAt {
    /// The place of the net in the list of nets.
    pub net: u32,
    pub x: i64,
    pub y: i64,
    pub crossing: Rect,
    /// Its arrays of cuts, bottom up.
    pub stack: Stack,
}

/// A blockage of a layer (LEF/DEF 5.8 Language Reference, BLOCKAGES), in units of a drawing.
#[derive(Clone, Copy, Debug, PartialEq, Eq)]
pub struct Block {
    pub layer: LayerRef,
    /// Its rectangle.
    pub plain: Rect,
    /// The same, grown by the spacing that metal keeps from it.
    pub grown: Rect,
}
