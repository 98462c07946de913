ghost use Rattle.std.specs.Prelude.{MatchResult};
ghost use Rattle.lef_tech.specs.Limits.{TechKeeps};
ghost use Rattle.lef_cells.specs.Limits.{CellsKeep};
ghost use Rattle.def_design.specs.Limits.{DesignKeeps};
ghost use Rattle.bias_file.specs.Limits.{BiasKeeps};
ghost use Rattle.macro_extract.specs.Extraction.{DrawnKeeps, IsMacroExtracted, IsMacroExtractRefused};

use bias_file::Bias;
use def_design::Design;
use grid_extract::first_with;
use grid_network::{ExtractError, Extracted, network};
use grid_taps::pads;
use lef_cells::Cells;
use lef_tech::Tech;
use macro_grid::MacroGrid;
use pin_taps::macro_taps;
use std::alloc::Global;

/// The network of a grid over blocks, the pins of blocks among its pieces, with the pads of the bias file and the load taps of the
/// components: those of blocks on the pieces with metal of their pins, and those of all others on rails.
///
/// It is refused as that of a grid without blocks is, in the same order. A block that draws a current has no taps where no domain owns
/// it, or where no stack has an end on a pin of one of the nets of its domain.
pub fn macro_extract(
    alloc: Global,
    drawn: &MacroGrid,
    tech: &Tech,
    cells: &Cells,
    design: &Design,
    bias: &Bias,
) -> Result<Extracted, ExtractError>
    requires tech { TechKeeps tech.now }
    requires drawn { DrawnKeeps drawn.now tech.now }
    requires cells { CellsKeep cells.now }
    requires design { DesignKeeps design.now }
    requires bias { BiasKeeps bias.now }
    ensures { MatchResult result (IsMacroExtracted drawn.now tech.now cells.now design.now bias.now)
        (IsMacroExtractRefused drawn.now tech.now cells.now design.now bias.now) }
{
    let taps = macro_taps(alloc, drawn, cells, design, bias);
    let pads = match pads(alloc, &drawn.grid, tech, bias) {
        Ok(pads) => pads,
        Err(error) => return Err(first_with(error, &taps)),
    };
    let taps = taps?;
    network(alloc, &drawn.grid, tech, &pads, &taps)
}
