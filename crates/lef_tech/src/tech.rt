use crate::layer::{CutLayer, LayerRef, RoutingLayer};
use crate::rule::ViaRule;
use entry_list::Entries;

/// A technology, each list in the order of the file. Lengths are in pm.
#[derive(Debug, Drop)]
pub struct Tech {
    /// All routing and cut layers, from the lowest.
    pub order: Entries<LayerRef>,
    /// The routing layers.
    pub routing: Entries<RoutingLayer>,
    /// The cut layers.
    pub cuts: Entries<CutLayer>,
    /// The rules of arrays of cuts.
    pub rules: Entries<ViaRule>,
}
