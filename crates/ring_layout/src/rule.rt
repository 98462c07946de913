use entry_list::Entries;

/// How rings are drawn around a core (OpenROAD PDN manual, add_pdn_ring). Lengths are units of a drawing.
#[derive(Debug, Drop)]
pub struct RingRule {
    /// The routing layers of the left and right sides and of the lower and upper ones, by their places from 0.
    pub vertical: u32,
    pub horizontal: u32,
    /// The nets from the innermost ring outward, each by its place from 0 in the list of nets.
    pub nets: Entries<u32>,
    /// The widths of sides on the two layers, even and positive.
    pub width_v: i64,
    pub width_h: i64,
    /// From a side to that of the next net.
    pub spacing_v: i64,
    pub spacing_h: i64,
    /// From the core's edges to the innermost ring.
    pub left: i64,
    pub bottom: i64,
    pub right: i64,
    pub top: i64,
}
