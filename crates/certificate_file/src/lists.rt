use entry_list::Entries;

/// The voltages of a certificate in yV, one of each list for each node, in the order of the network.
#[derive(Debug, Drop)]
pub struct Lists {
    /// The high voltage of each node.
    pub high: Entries<i128>,
    /// The low voltage of each node.
    pub low: Entries<i128>,
}
