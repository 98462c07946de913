use outside::Name;

/// Which net of the supply the nodes of a layer belong to, as a comment of a written netlist says it.
#[derive(Debug, Drop)]
pub struct Note {
    /// The layer's name.
    pub layer: Name,
    /// The net's name.
    pub net: Name,
    /// The net's number.
    pub number: u64,
}
