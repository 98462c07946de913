use entry_list::Entries;

/// An array of cuts that joins a routing layer and the next one, by the rule of this number. It stands in the middle of
/// the crossing of its wires.
///
/// Lengths are units of the drawing. A pitch is from the centre of a cut to that of the next one. The last four lengths
/// are the enclosures: how far the metal of the lower and of the upper layer has to go beyond the cuts in x and in y.
#[derive(Clone, Copy, Debug, PartialEq, Eq)]
pub struct CutArray {
    pub rule: u32,
    pub columns: u32,
    pub rows: u32,
    pub cut_x: i64,
    pub cut_y: i64,
    pub pitch_x: i64,
    pub pitch_y: i64,
    pub lower_x: i64,
    pub lower_y: i64,
    pub upper_x: i64,
    pub upper_y: i64,
}

/// The arrays that join the routing layers `from` and `to`, bottom up: one for each layer from `from` up to below `to`,
/// with the resistance in nano-ohms that its cuts have together.
#[derive(Debug, Drop)]
pub struct Stack {
    pub from: u32,
    pub to: u32,
    pub arrays: Entries<CutArray>,
    pub ohms: Entries<u64>,
}
