//! From the grid to its texts.
ghost use Rattle.std.specs.Prelude.{◌≡◌, IsOk, IfOk, IfErr};
ghost use Rattle.outside.specs.Counts.{Rose};
ghost use Rattle.grid_signing.specs.Basis.{base_of, BaseKeeps};
ghost use Rattle.grid_signing.specs.Checked.{Signs};
ghost use Rattle.grid_signing.specs.Refusal.{IsUnsigned};
ghost use Rattle.grid_signing.specs.Signing.{CanBeSigned};

use crate::basis::Basis;
use crate::extracted::sign_extracted;
use crate::network::network_of;
use crate::signed::SignedGrid;
use answers::Answer;
use grid_net::Solver;
use grid_pieces::Grid;
use std::alloc::Global;

/// Signs off a grid over a placed design with what the solver proposes.
///
/// The order is: the network of the grid is extracted, the supply is tested, the network is certified, and the texts are
/// made. Certification always succeeds, whatever the solver proposes.
/// Error: the answer to a grid that has no network, to a node without supply, or to want of memory.
pub fn sign_grid<V: Solver>(
    alloc: Global,
    basis: &Basis,
    grid: &Grid,
    solver: &mut V,
) -> Result<SignedGrid, Answer>
    requires keep { BaseKeeps (base_of basis.now) }
    requires grid { CanBeSigned (base_of basis.now) grid.now }
    ensures signed { IfOk result (Signs (V.told solver.old) (base_of basis.now) grid.now) }
    ensures refused { IfErr result (IsUnsigned (base_of basis.now) grid.now) }
    // The solver was asked, and what it tells stays.
    ensures asked { IsOk result → Rose (V.proposals solver.old) (V.proposals solver.new) }
    ensures told { V.told solver.new ≡ V.told solver.old }
{
    match network_of(alloc, basis, grid) {
        Ok(extracted) => sign_extracted(alloc, basis, grid, extracted, solver),
        Err(answer) => Err(answer),
    }
}
