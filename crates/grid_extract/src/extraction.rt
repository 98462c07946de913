ghost use Rattle.std.specs.Prelude.{◌≡◌, MatchResult};
ghost use Rattle.lef_tech.specs.Limits.{TechKeeps};
ghost use Rattle.lef_cells.specs.Limits.{CellsKeep};
ghost use Rattle.def_design.specs.Limits.{DesignKeeps};
ghost use Rattle.bias_file.specs.Limits.{BiasKeeps};
ghost use Rattle.grid_extract.specs.Extraction.{GridKeeps, IsExtracted, IsExtractRefused};
ghost use Rattle.grid_extract.specs.First.{earlier, first_of, first_with};

use bias_file::Bias;
use def_design::Design;
use grid_network::{ExtractError, Extracted, Tap, network};
use grid_pieces::Grid;
use grid_taps::{pads, taps};
use lef_cells::Cells;
use lef_tech::Tech;
use std::alloc::Global;

/// The network of a drawn grid with the pads of the bias file and the load taps of the components.
///
/// It is refused, in this order, where a line of the bias file names no net, routing layer, macro or component; where a
/// net with a piece has no supply line; where a pad stands on no piece; where a component that draws a current has no
/// taps; and where the lists make no network. Of one kind the earliest line, net or component is named.
pub fn extract(
    alloc: Global,
    grid: &Grid,
    tech: &Tech,
    cells: &Cells,
    design: &Design,
    bias: &Bias,
) -> Result<Extracted, ExtractError>
    requires tech { TechKeeps tech.now }
    requires grid { GridKeeps grid.now tech.now }
    requires cells { CellsKeep cells.now }
    requires design { DesignKeeps design.now }
    requires bias { BiasKeeps bias.now }
    ensures { MatchResult result (IsExtracted grid.now tech.now cells.now design.now bias.now)
        (IsExtractRefused grid.now tech.now cells.now design.now bias.now) }
{
    let taps = taps(alloc, grid, cells, design, bias);
    let pads = match pads(alloc, grid, tech, bias) {
        Ok(pads) => pads,
        Err(error) => return Err(first_with(error, &taps)),
    };
    let taps = taps?;
    network(alloc, grid, tech, &pads, &taps)
}

/// The refusal of pads, or that of taps where it goes first: an unknown name goes before all other refusals, and the earliest
/// line of all is named. Want of memory leaves open what else would have been refused.
pub fn first_with(pads: ExtractError, taps: &Result<Vec<Tap>, ExtractError>) -> ExtractError
    ensures { result ≡ first_with pads taps.now }
{
    match taps {
        Ok(_) => pads,
        Err(taps) => first_of(pads, *taps),
    }
}

// An unknown name goes before all other refusals, and the earliest line of all is named. Else that of pads goes first.
// Want of memory leaves open what else would have been refused.
fn first_of(pads: ExtractError, taps: ExtractError) -> ExtractError
    ensures { result ≡ first_of pads taps }
{
    match taps {
        ExtractError::Want => ExtractError::Want,
        ExtractError::UnknownName(line) => earlier(pads, line),
        _ => pads,
    }
}

// The refusal of pads where no unknown name on this line goes before it.
fn earlier(pads: ExtractError, line: u64) -> ExtractError
    ensures { result ≡ earlier pads line }
{
    match pads {
        ExtractError::Want => ExtractError::Want,
        ExtractError::UnknownName(first) => ExtractError::UnknownName(first.min(line)),
        _ => ExtractError::UnknownName(line),
    }
}
