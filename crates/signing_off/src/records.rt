use bias_file::Bias;
use def_design::Design;
use def_wiring::Wires;
use lef_cells::Cells;
use lef_tech::Tech;

/// What the texts of a sign-off say.
#[derive(Debug, Drop)]
pub struct WiredRecords {
    pub tech: Tech,
    /// The sites and macros of both LEF texts. Of two of one name that of the technology's text counts.
    pub cells: Cells,
    pub design: Design,
    /// The wires of the power and ground nets.
    pub wires: Wires,
    pub bias: Bias,
}
