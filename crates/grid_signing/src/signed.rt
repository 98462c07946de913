use answers::Built;
use entry_list::Entries;

/// What is written of a grid that is signed off.
#[derive(Debug, Drop)]
pub struct SignedGrid {
    /// The network of the grid.
    pub netlist: Entries<u8>,
    /// The certificate of the network.
    pub certificate: Entries<u8>,
    /// The report.
    pub report: Entries<u8>,
    /// The numbers of the line.
    pub numbers: Built,
}
