use command_words::FileName;

/// The names of the files of a sign-off: five that are read, in this order, and three that are written, in this order.
#[derive(Drop)]
pub struct SignoffFiles {
    /// The technology, in LEF.
    pub lef: FileName,
    /// The cells, in LEF.
    pub cells: FileName,
    /// The placed design, in DEF.
    pub def: FileName,
    /// The wiring of its power and ground nets, in DEF.
    pub wires: FileName,
    /// The supplies, drop limits, pads and currents.
    pub bias: FileName,
    /// The network of the grid.
    pub netlist: FileName,
    /// The certificate of the network.
    pub certificate: FileName,
    /// The report.
    pub report: FileName,
}
