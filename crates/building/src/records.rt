use bias_file::Bias;
use def_design::Design;
use lef_cells::Cells;
use lef_tech::Tech;
use pdn_script::Script;

/// What the texts of a build say.
#[derive(Debug, Drop)]
pub struct Records {
    pub tech: Tech,
    /// The sites and macros of both LEF texts. Of two of one name that of the technology's text counts.
    pub cells: Cells,
    pub design: Design,
    pub script: Script,
    pub bias: Bias,
}
