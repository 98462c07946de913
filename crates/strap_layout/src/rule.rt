use entry_list::Entries;
use geom_rect::Axis;

/// How straps are drawn on a routing layer (OpenROAD PDN manual, add_pdn_stripe). Lengths are units of a drawing.
#[derive(Debug, Drop)]
pub struct StrapRule {
    /// The routing layer, by its place from 0.
    pub layer: u32,
    /// Along which axis the straps go.
    pub axis: Axis,
    /// The nets in their order, each by its place from 0 in the list of nets.
    pub nets: Entries<u32>,
    /// Even and positive.
    pub width: i64,
    /// From the centre of a line to that of the net's next one; positive.
    pub pitch: i64,
    /// From the centre of a line to that of the next net's line of the same number.
    pub apart: i64,
    /// From the edge of the core to the centre of the first net's first line.
    pub offset: i64,
    /// How many lines there are of each net, where it is stated.
    pub number: Option<u64>,
}
