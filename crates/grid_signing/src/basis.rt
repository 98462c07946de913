use bias_file::Bias;
use def_design::Design;
use lef_cells::Cells;
use lef_tech::Tech;

/// What a grid is signed off over.
#[derive(Clone, Copy, Debug)]
pub struct Basis<'a> {
    pub tech: &'a Tech,
    /// The cells of the components.
    pub cells: &'a Cells,
    /// The placed design.
    pub design: &'a Design,
    /// Supplies, drop limits, pads and the currents of cells.
    pub bias: &'a Bias,
}
