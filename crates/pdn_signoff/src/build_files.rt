use command_words::FileName;

/// The names of the files of a build: five that are read, in this order, and four that are written, in this order.
#[derive(Drop)]
pub struct BuildFiles {
    /// The technology, in LEF.
    pub lef: FileName,
    /// The cells, in LEF.
    pub cells: FileName,
    /// The placed design, in DEF.
    pub def: FileName,
    /// The script of the power grid.
    pub pdn: FileName,
    /// The supplies, drop limits, pads and currents.
    pub bias: FileName,
    /// The design with its supply nets, in DEF.
    pub out_def: FileName,
    /// The network of the grid.
    pub netlist: FileName,
    /// The certificate of the network.
    pub certificate: FileName,
    /// The report.
    pub report: FileName,
}
