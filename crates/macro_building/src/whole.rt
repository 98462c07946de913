//! From the five texts to the outputs.
ghost use Rattle.std.specs.Prelude.{◌≡◌, true, IsOk, IfOk, IfErr};
ghost use Rattle.outside.specs.Counts.{Rose};
ghost use Rattle.building.specs.Checked.{PassesCheck};
ghost use Rattle.building.specs.Inputs.{five_texts};
ghost use Rattle.building.specs.Reading.{RecordsKeep, AreRecords};
ghost use Rattle.grid_signing.specs.Solutions.{SolutionsKeep};
ghost use Rattle.macro_blocks.specs.Limits.{BlocksKeep};
ghost use Rattle.macro_building.specs.Blocks.{is_over_blocks};
ghost use Rattle.macro_building.specs.Built.{BuiltDesign, IsBuiltDesign, AreBuiltOutputs};
ghost use Rattle.macro_building.specs.Refusal.{IsUnbuiltOverBlocks, IsUnbuilt};
ghost use Rattle.macro_building.specs.inside.Stages.{BuildsOver, IsUnbuiltOver, IsBuilt};

use crate::blocks::joined_blocks;
use crate::drawing::drawn_of;
use crate::network::build_drawn;
use answers::Answer;
use block_grids::has_blocks;
use building::{Inputs, Outputs, Records, build_of, read_all};
use grid_net::Solver;
use macro_blocks::Blocks;
use std::alloc::Global;

/// Builds the power grid of five texts and signs it off with what the solver proposes.
///
/// The order is: the texts are read; where a grid over macros stands and a placed component is of CLASS BLOCK, the pins and
/// obstructions of macros are read out of both LEF texts; the grid is drawn, its network is extracted, the supply is tested, the
/// network is certified, and the texts of all four outputs are made. Certification always succeeds, whatever the solver proposes.
/// Error: the answer to a text that is refused, to a script that draws no grid, to a grid that has no network, to a node without
/// supply, or to want of memory.
pub fn build<V: Solver>(alloc: Global, inputs: &Inputs, solver: &mut V) -> Result<Outputs, Answer>
    // The outputs are the texts of the grid that the script draws over the design and its blocks, without their pins, of its network,
    // in which pins of blocks are straps, of a tight certificate and of the report; every solution of the network keeps what the
    // report says; and who checks the certificate finds that it holds.
    ensures built { IfOk result (λ outputs. (d : BuiltDesign)
        × IsBuiltDesign (V.told solver.old) (five_texts inputs.now) d × AreBuiltOutputs d outputs
        × SolutionsKeep d.design.extracted.net d.design.certificate d.design.limits × PassesCheck d.design outputs) }
    ensures refused { IfErr result (IsUnbuilt (five_texts inputs.now)) }
    // The solver was asked, and what it tells stays.
    ensures asked { IsOk result → Rose (V.proposals solver.old) (V.proposals solver.new) }
    ensures told { V.told solver.new ≡ V.told solver.old }
{
    let records = match read_all(alloc, inputs) {
        Ok(records) => records,
        Err(answer) => return Err(answer),
    };
    match has_blocks(alloc, &records.cells, &records.design, &records.script) {
        Ok(true) => build_over_blocks(alloc, inputs, &records, solver),
        Ok(false) => build_of(alloc, &records, solver),
        Err(_) => Err(Answer::Want),
    }
}

/// Builds what the texts say where a grid over macros meets a block.
fn build_over_blocks<V: Solver>(
    alloc: Global,
    inputs: &Inputs,
    records: &Records,
    solver: &mut V,
) -> Result<Outputs, Answer>
    requires records { AreRecords (five_texts inputs.now) records.now }
    requires some { is_over_blocks records.now ≡ true }
    ensures built { IfOk result (IsBuilt (V.told solver.old) (five_texts inputs.now)) }
    ensures refused { IfErr result (IsUnbuiltOverBlocks (five_texts inputs.now)) }
    ensures asked { IsOk result → Rose (V.proposals solver.old) (V.proposals solver.new) }
    ensures told { V.told solver.new ≡ V.told solver.old }
{
    match joined_blocks(alloc, &inputs.lef, &inputs.cells) {
        Ok(blocks) => build_blocks(alloc, records, &blocks, solver),
        Err(answer) => Err(answer),
    }
}

/// The work once the pins and obstructions are read.
fn build_blocks<V: Solver>(
    alloc: Global,
    records: &Records,
    blocks: &Blocks,
    solver: &mut V,
) -> Result<Outputs, Answer>
    requires keep { RecordsKeep records.now }
    requires blocks { BlocksKeep blocks.now }
    ensures built { IfOk result (BuildsOver (V.told solver.old) records.now blocks.now) }
    ensures refused { IfErr result (IsUnbuiltOver records.now blocks.now) }
    ensures asked { IsOk result → Rose (V.proposals solver.old) (V.proposals solver.new) }
    ensures told { V.told solver.new ≡ V.told solver.old }
{
    match drawn_of(alloc, records, blocks) {
        Ok(drawn) => build_drawn(alloc, records, blocks, &drawn, solver),
        Err(answer) => Err(answer),
    }
}
