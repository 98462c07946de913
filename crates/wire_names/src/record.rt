use entry_list::Entries;
use geom_rect::Drawn;
use outside::Name;

/// A via that is defined, with places for the names of its rule and its layers. Lengths are units of the drawing. A pitch is
/// from the centre of a cut to that of the next one.
#[derive(Clone, Copy, Debug, PartialEq, Eq)]
pub struct NamedVia {
    /// The place of its rule in the list of rules.
    pub rule: u32,
    /// The places of its lower and its upper layer in the list of routing layers, and of its cut layer among cut layers.
    pub lower: u32,
    pub cut: u32,
    pub upper: u32,
    pub columns: u32,
    pub rows: u32,
    pub cut_x: i64,
    pub cut_y: i64,
    pub pitch_x: i64,
    pub pitch_y: i64,
    pub lower_x: i64,
    pub lower_y: i64,
    pub upper_x: i64,
    pub upper_y: i64,
}

/// Where a via stands: its net, 0 or 1, and its place in the list of vias that are defined.
#[derive(Clone, Copy, Debug, PartialEq, Eq)]
pub struct Spot {
    pub net: u32,
    pub via: u32,
    pub x: i64,
    pub y: i64,
}

/// Wiring with places for names. A net is 0 or 1, in byte order of the two names; a layer is a place in the list of routing
/// layers.
#[derive(Debug, Drop)]
pub struct NamedWires {
    /// The name of the power net.
    pub power: Name,
    /// The name of the ground net.
    pub ground: Name,
    /// Whether the power net is net 0.
    pub power_first: bool,
    /// The vias that are defined, in the order of the text.
    pub vias: Entries<NamedVia>,
    /// The segments as shapes, in the order of the text.
    pub shapes: Entries<Drawn>,
    /// Where vias stand, in the order of the text.
    pub spots: Entries<Spot>,
}
