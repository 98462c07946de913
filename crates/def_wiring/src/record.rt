//! What the wiring of a DEF says: its generated vias, and the wires of its power and ground nets. Lengths and places are
//! units of the text (LEF/DEF 5.8 Language Reference, VIAS and SPECIALNETS).

use entry_list::Entries;
use geom_rect::Shape;
use outside::Name;

/// A generated via: `- name + VIARULE rule + CUTSIZE x y + LAYERS lower cut upper + CUTSPACING x y + ENCLOSURE x y x y`, and
/// perhaps `+ ROWCOL rows columns`.
#[derive(Debug, Drop)]
pub struct ViaDef {
    pub name: Name,
    pub rule: Name,
    /// The size of a cut, positive.
    pub cut_x: i64,
    pub cut_y: i64,
    pub lower: Name,
    pub cut: Name,
    pub upper: Name,
    /// The space between cuts, not negative: the numbers of CUTSPACING.
    pub gap_x: i64,
    pub gap_y: i64,
    /// The enclosures on the lower and on the upper layer, not negative.
    pub lower_x: i64,
    pub lower_y: i64,
    pub upper_x: i64,
    pub upper_y: i64,
    /// The numbers of rows and columns, positive; 1 and 1 where ROWCOL is absent.
    pub rows: i64,
    pub columns: i64,
}

/// A segment of a path, between two of its points. It is lengthened by `e1` beyond its first point and by `e2` beyond its
/// second one.
#[derive(Debug, Drop)]
pub struct Segment {
    pub layer: Name,
    pub width: i64,
    pub shape: Shape,
    pub x1: i64,
    pub y1: i64,
    pub e1: i64,
    pub x2: i64,
    pub y2: i64,
    pub e2: i64,
}

/// A via at the point of a path, and the layer of the path.
#[derive(Debug, Drop)]
pub struct ViaPlace {
    pub via: Name,
    pub layer: Name,
    pub x: i64,
    pub y: i64,
}

/// A net of `USE POWER` or `USE GROUND`, with its segments and its vias in the order of the text.
#[derive(Debug, Drop)]
pub struct WiredNet {
    pub name: Name,
    /// Whether its use is POWER, and not GROUND.
    pub power: bool,
    pub segments: Entries<Segment>,
    pub vias: Entries<ViaPlace>,
}

/// The generated vias and the power and ground nets of a DEF, each list in the order of the text.
#[derive(Debug, Drop)]
pub struct Wires {
    pub vias: Entries<ViaDef>,
    pub nets: Entries<WiredNet>,
}
