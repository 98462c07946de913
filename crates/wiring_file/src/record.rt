//! What a written wiring says. Lengths and places are units of the design.

use entry_list::Entries;
use outside::Name;

/// A via: `- name + VIARULE rule + CUTSIZE x y + LAYERS lower cut upper + CUTSPACING x y + ENCLOSURE x y x y + ROWCOL
/// rows columns ;`.
#[derive(Debug, Drop)]
pub struct ViaText {
    pub name: Name,
    pub rule: Name,
    pub cut_x: i64,
    pub cut_y: i64,
    pub lower: Name,
    pub cut: Name,
    pub upper: Name,
    /// The space between cuts, the numbers of CUTSPACING.
    pub gap_x: i64,
    pub gap_y: i64,
    /// The enclosures of the lower and of the upper layer.
    pub lower_x: i64,
    pub lower_y: i64,
    pub upper_x: i64,
    pub upper_y: i64,
    pub rows: i64,
    pub columns: i64,
}

/// A piece of metal: `layer width + SHAPE shape ( x1 y1 ) ( x2 y2 )`.
#[derive(Debug, Drop)]
pub struct WireText {
    pub net: Name,
    pub layer: Name,
    pub width: i64,
    /// RING, STRIPE or FOLLOWPIN.
    pub shape: Name,
    pub x1: i64,
    pub y1: i64,
    pub x2: i64,
    pub y2: i64,
}

/// An array of a stack: `layer 0 + SHAPE STRIPE ( x y ) via`.
#[derive(Debug, Drop)]
pub struct PlaceText {
    pub net: Name,
    pub layer: Name,
    pub x: i64,
    pub y: i64,
    pub via: Name,
}

/// A written wiring, each list in the order of the text.
#[derive(Debug, Drop)]
pub struct Wiring {
    pub vias: Entries<ViaText>,
    pub wires: Entries<WireText>,
    pub places: Entries<PlaceText>,
}
