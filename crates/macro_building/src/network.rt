//! The network of the grid is extracted and signed off.
ghost use Rattle.std.specs.Prelude.{◌≡◌, IsOk, IfOk, IfErr};
ghost use Rattle.outside.specs.Counts.{Rose};
ghost use Rattle.building.specs.Reading.{RecordsKeep};
ghost use Rattle.macro_building.specs.inside.Stages.{IsDrawn, DrawnStands, BuildsDrawn, IsUnsigned};

use answers::Answer;
use building::{Outputs, Records, basis_of, outputs_with};
use def_writer::def_text;
use drawn_grids::branches_are_of_the_grid;
use grid_net::Solver;
use grid_signing::{sign_extracted, unextracted};
use macro_blocks::Blocks;
use macro_drawings::{drawings_over_blocks_are_grids, nets_over_blocks_are_named};
use macro_extract::macro_extract;
use macro_grid::MacroGrid;
use std::alloc::Global;

/// Signs off the grid that is drawn over blocks, and writes it.
///
/// Error: the answer to a grid that has no network, to a node without supply, or to want of memory.
pub(crate) fn build_drawn<V: Solver>(
    alloc: Global,
    records: &Records,
    blocks: &Blocks,
    drawn: &MacroGrid,
    solver: &mut V,
) -> Result<Outputs, Answer>
    requires keep { RecordsKeep records.now }
    requires drawn { IsDrawn records.now blocks.now drawn.now }
    requires stands { DrawnStands records.now drawn.now }
    ensures built { IfOk result (BuildsDrawn (V.told solver.old) records.now drawn.now) }
    ensures refused { IfErr result (IsUnsigned records.now drawn.now) }
    ensures asked { IsOk result → Rose (V.proposals solver.old) (V.proposals solver.new) }
    ensures told { V.told solver.new ≡ V.told solver.old }
{
    drawings_over_blocks_are_grids();
    nets_over_blocks_are_named();
    branches_are_of_the_grid();
    let Records {
        tech,
        cells,
        design,
        bias,
        ..
    } = records;
    let grid = &drawn.grid;
    let extracted = match macro_extract(alloc, drawn, tech, cells, design, bias) {
        Ok(extracted) => extracted,
        Err(error) => return Err(unextracted(alloc, design, grid, error)),
    };
    let signed = match sign_extracted(alloc, &basis_of(records), grid, extracted, solver) {
        Ok(signed) => signed,
        Err(answer) => return Err(answer),
    };
    match def_text(alloc, design, tech, &drawn.written) {
        Ok(def) => Ok(outputs_with(def, signed)),
        Err(_) => Err(Answer::Want),
    }
}
