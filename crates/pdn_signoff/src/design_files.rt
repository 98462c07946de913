use command_words::FileName;

/// The names of the five files of a design: `generate` writes them.
#[derive(Drop)]
pub struct DesignFiles {
    /// The technology, in LEF.
    pub lef: FileName,
    /// The cells, in LEF.
    pub cells: FileName,
    /// The placed design, in DEF.
    pub def: FileName,
    /// The script of the power grid.
    pub pdn: FileName,
    /// The supplies, drop limits, pads and currents.
    pub bias: FileName,
}
