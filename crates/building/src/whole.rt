//! From the five texts to the outputs.
ghost use Rattle.std.specs.Prelude.{◌≡◌, IsOk, IfOk, IfErr};
ghost use Rattle.outside.specs.Counts.{Rose};
ghost use Rattle.building.specs.Building.{Design, IsGridOf, GridStands, IsDesignOf, AreOutputsOf, base_of};
ghost use Rattle.building.specs.Checked.{PassesCheck};
ghost use Rattle.building.specs.Inputs.{five_texts};
ghost use Rattle.building.specs.Reading.{RecordsKeep};
ghost use Rattle.building.specs.Refusal.{IsUnbuilt};
ghost use Rattle.building.specs.Stages.{IsBuiltOf, IsUnbuiltOf, BuildsGrid};
ghost use Rattle.grid_signing.specs.Basis.{base_of as base_of_basis};
ghost use Rattle.grid_signing.specs.Refusal.{IsUnsigned};
ghost use Rattle.grid_signing.specs.Solutions.{SolutionsKeep};

use crate::drawing::grid_of;
use crate::input::Inputs;
use crate::outputs::Outputs;
use crate::read_texts::read_all;
use crate::records::Records;
use answers::Answer;
use def_writer::def_text;
use drawn_grids::{branches_are_of_the_grid, drawings_are_grids};
use entry_list::Entries;
use grid_net::Solver;
use grid_pieces::Grid;
use grid_signing::{Basis, SignedGrid, sign_grid};
use std::alloc::Global;

/// Builds the power grid of five texts and signs it off with what the solver proposes.
///
/// The order is: the texts are read, the grid is drawn, its network is extracted, the supply is tested, the network is
/// certified, and the texts of all four outputs are made. Certification always succeeds, whatever the solver proposes.
/// Error: the answer to a text that is refused, to a script that draws no grid, to a grid that has no network, to a node
/// without supply, or to want of memory.
pub fn build<V: Solver>(alloc: Global, inputs: &Inputs, solver: &mut V) -> Result<Outputs, Answer>
    // The outputs are the texts of the grid that the script draws over the design, of its network, of a tight certificate
    // and of the report; every solution of the network keeps what the report says; and who checks the certificate finds
    // that it holds.
    ensures built { IfOk result (λ outputs. (design : Design)
        × IsDesignOf (V.told solver.old) (five_texts inputs.now) design × AreOutputsOf design outputs
        × SolutionsKeep design.extracted.net design.certificate design.limits × PassesCheck design outputs) }
    ensures refused { IfErr result (IsUnbuilt (five_texts inputs.now)) }
    // The solver was asked, and what it tells stays.
    ensures asked { IsOk result → Rose (V.proposals solver.old) (V.proposals solver.new) }
    ensures told { V.told solver.new ≡ V.told solver.old }
{
    match read_all(alloc, inputs) {
        Ok(records) => build_of(alloc, &records, solver),
        Err(answer) => Err(answer),
    }
}

/// Builds the power grid of what the texts say, and signs it off with what the solver proposes: the work of `build` once the
/// texts are read.
///
/// Error: the answer to a script that draws no grid, to a grid that has no network, to a node without supply, or to want of
/// memory.
pub fn build_of<V: Solver>(
    alloc: Global,
    records: &Records,
    solver: &mut V,
) -> Result<Outputs, Answer>
    requires { RecordsKeep records.now }
    ensures built { IfOk result (IsBuiltOf (V.told solver.old) records.now) }
    ensures refused { IfErr result (IsUnbuiltOf records.now) }
    ensures asked { IsOk result → Rose (V.proposals solver.old) (V.proposals solver.new) }
    ensures told { V.told solver.new ≡ V.told solver.old }
{
    match grid_of(alloc, records) {
        Ok(grid) => build_grid(alloc, records, &grid, solver),
        Err(answer) => Err(answer),
    }
}

/// Builds a drawn grid.
fn build_grid<V: Solver>(
    alloc: Global,
    records: &Records,
    grid: &Grid,
    solver: &mut V,
) -> Result<Outputs, Answer>
    requires keep { RecordsKeep records.now }
    requires grid { IsGridOf records.now grid.now }
    requires stands { GridStands records.now grid.now }
    ensures built { IfOk result (BuildsGrid (V.told solver.old) records.now grid.now) }
    ensures refused { IfErr result (IsUnsigned (base_of records.now) grid.now) }
    ensures asked { IsOk result → Rose (V.proposals solver.old) (V.proposals solver.new) }
    ensures told { V.told solver.new ≡ V.told solver.old }
{
    drawings_are_grids();
    branches_are_of_the_grid();
    let signed = match sign_grid(alloc, &basis_of(records), grid, solver) {
        Ok(signed) => signed,
        Err(answer) => return Err(answer),
    };
    match def_text(alloc, &records.design, &records.tech, grid) {
        Ok(def) => Ok(outputs_with(def, signed)),
        Err(_) => Err(Answer::Want),
    }
}

/// What the grid of these records is signed off over.
pub fn basis_of(records: &Records) -> Basis<'_>
    ensures { base_of_basis result ≡ base_of records.now }
{
    Basis {
        tech: &records.tech,
        cells: &records.cells,
        design: &records.design,
        bias: &records.bias,
    }
}

/// The outputs: the texts of a grid that is signed off, with the text of its design in DEF.
pub fn outputs_with(def: Vec<u8>, signed: SignedGrid) -> Outputs
    ensures def { result.def ≡ def.items }
    ensures netlist { result.netlist ≡ signed.netlist }
    ensures certificate { result.certificate ≡ signed.certificate }
    ensures report { result.report ≡ signed.report }
    ensures numbers { result.numbers ≡ signed.numbers }
{
    Outputs {
        def: Entries::new(def),
        netlist: signed.netlist,
        certificate: signed.certificate,
        report: signed.report,
        numbers: signed.numbers,
    }
}
