//! From the five texts to the texts of the grid of the wiring.
ghost use Rattle.std.specs.Prelude.{◌≡◌, IsOk, IfOk, IfErr};
ghost use Rattle.outside.specs.Counts.{Rose};
ghost use Rattle.grid_signing.specs.Basis.{base_of as base_of_basis};
ghost use Rattle.signing_off.specs.Inputs.{wired_texts};
ghost use Rattle.signing_off.specs.Reading.{WiredRecordsKeep};
ghost use Rattle.signing_off.specs.Refusal.{IsUnsigned};
ghost use Rattle.signing_off.specs.Signing.{SignsWiring, base_of};
ghost use Rattle.signing_off.specs.inside.Stages.{IsSignedOf, IsUnsignedOf};

use crate::input::WiredInputs;
use crate::read_texts::read_all;
use crate::records::WiredRecords;
use crate::wiring::grid_of;
use answers::Answer;
use grid_net::Solver;
use grid_signing::{Basis, SignedGrid, sign_grid};
use one_wired_grid::wired_grids_have_names;
use std::alloc::Global;

/// Signs off the wiring of five texts with what the solver proposes. Nothing is drawn.
///
/// The order is: the texts are read, the wiring is made a grid, its network is extracted, the supply is tested, the network
/// is certified, and the texts of all three outputs are made. Certification always succeeds, whatever the solver proposes.
/// Error: the answer to a text that is refused, to wiring that gives no grid, to a grid that has no network, to a node
/// without supply, or to want of memory.
pub fn sign_off<V: Solver>(
    alloc: Global,
    inputs: &WiredInputs,
    solver: &mut V,
) -> Result<SignedGrid, Answer>
    // The outputs are the texts of the network of the grid of the wiring, of a tight certificate and of the report; every
    // solution of the network keeps what the report says; and who checks the certificate finds that it holds.
    ensures signed { IfOk result (SignsWiring (V.told solver.old) (wired_texts inputs.now)) }
    ensures refused { IfErr result (IsUnsigned (wired_texts inputs.now)) }
    // The solver was asked, and what it tells stays.
    ensures asked { IsOk result → Rose (V.proposals solver.old) (V.proposals solver.new) }
    ensures told { V.told solver.new ≡ V.told solver.old }
{
    match read_all(alloc, inputs) {
        Ok(records) => sign_records(alloc, &records, solver),
        Err(answer) => Err(answer),
    }
}

/// Signs off the wiring of what the texts say.
fn sign_records<V: Solver>(
    alloc: Global,
    records: &WiredRecords,
    solver: &mut V,
) -> Result<SignedGrid, Answer>
    requires { WiredRecordsKeep records.now }
    ensures signed { IfOk result (IsSignedOf (V.told solver.old) records.now) }
    ensures refused { IfErr result (IsUnsignedOf records.now) }
    ensures asked { IsOk result → Rose (V.proposals solver.old) (V.proposals solver.new) }
    ensures told { V.told solver.new ≡ V.told solver.old }
{
    wired_grids_have_names();
    match grid_of(alloc, records) {
        Ok(grid) => sign_grid(alloc, &basis_of(records), &grid, solver),
        Err(answer) => Err(answer),
    }
}

/// What the grid is signed off over.
fn basis_of(records: &WiredRecords) -> Basis<'_>
    ensures { base_of_basis result ≡ base_of records.now }
{
    Basis {
        tech: &records.tech,
        cells: &records.cells,
        design: &records.design,
        bias: &records.bias,
    }
}
