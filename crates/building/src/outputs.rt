use answers::Built;
use entry_list::Entries;

/// What a build writes.
#[derive(Debug, Drop)]
pub struct Outputs {
    /// The design with the drawn supply nets, in DEF.
    pub def: Entries<u8>,
    /// The network of the grid.
    pub netlist: Entries<u8>,
    /// The certificate of the network.
    pub certificate: Entries<u8>,
    /// The report.
    pub report: Entries<u8>,
    /// The numbers of the line.
    pub numbers: Built,
}
