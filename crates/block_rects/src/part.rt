use geom_rect::Rect;
use lef_tech::LayerRef;

/// What a pin of power or ground has on a routing layer, in units of the drawing. It has an area, and its extent across the
/// layer's direction is even.
#[derive(Clone, Copy, Debug, PartialEq, Eq)]
pub struct PinPart {
    /// The routing layer, by its place from 0.
    pub layer: u32,
    /// Whether it is of power, and not of ground.
    pub power: bool,
    pub rect: Rect,
}

/// A rectangle of a layer in which a block lets no metal lie and no cuts stand (LEF/DEF 5.8 Language Reference, "MACRO", OBS),
/// in units of the drawing. It may be without area.
#[derive(Clone, Copy, Debug, PartialEq, Eq)]
pub struct Obstruction {
    pub layer: LayerRef,
    pub rect: Rect,
}
