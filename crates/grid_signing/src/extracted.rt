//! From the network of a grid to its texts.
ghost use Rattle.std.specs.Prelude.{◌≡◌, All, IsOk, IfOk, IfErr};
ghost use Rattle.outside.specs.Counts.{Rose};
ghost use Rattle.grid_limits.specs.Limits.{IsBranchOf};
ghost use Rattle.grid_network.specs.Network.{IsNetworkOn};
ghost use Rattle.network_texts.specs.Texts.{AreNames};
ghost use Rattle.via_arrays.specs.Lengths.{IsUnits};
ghost use Rattle.grid_signing.specs.Basis.{base_of, BaseKeeps};
ghost use Rattle.grid_signing.specs.Checked.{SignsWith};
ghost use Rattle.grid_signing.specs.Refusal.{LacksSupplyAt};

use crate::basis::Basis;
use crate::signed::SignedGrid;
use crate::signing::sign_network;
use answers::Answer;
use drawn_grids::{each_node_has_a_name, limits_are_of_the_network};
use grid_limits::limits;
use grid_net::Solver;
use grid_network::Extracted;
use grid_pieces::Grid;
use network_texts::extracted_networks_can_be_written;
use std::alloc::Global;

/// Signs off a grid whose network is extracted already, with what the solver proposes.
///
/// The order is: the supply is tested, the network is certified, and the texts are made. Certification always succeeds,
/// whatever the solver proposes. Which pads and load taps the network has makes no difference.
/// Error: the answer to a node without supply, or to want of memory.
pub fn sign_extracted<V: Solver>(
    alloc: Global,
    basis: &Basis,
    grid: &Grid,
    extracted: Extracted,
    solver: &mut V,
) -> Result<SignedGrid, Answer>
    requires keep { BaseKeeps (base_of basis.now) }
    requires network { IsNetworkOn grid.now basis.now.tech.now extracted }
    requires units { IsUnits grid.now.units }
    requires names { AreNames basis.now.tech.now grid.now }
    requires branches { All (IsBranchOf basis.now.tech.now grid.now) extracted.branches }
    ensures signed { IfOk result (SignsWith (λ e. e ≡ extracted) (V.told solver.old) (base_of basis.now) grid.now) }
    ensures refused { IfErr result (LacksSupplyAt extracted) }
    // The solver was asked, and what it tells stays.
    ensures asked { IsOk result → Rose (V.proposals solver.old) (V.proposals solver.new) }
    ensures told { V.told solver.new ≡ V.told solver.old }
{
    each_node_has_a_name();
    limits_are_of_the_network();
    extracted_networks_can_be_written();
    // More nets than 32 bits can number are want of memory.
    if grid.nets.as_slice().len() > u32::MAX as usize {
        return Err(Answer::Want);
    }
    let _nodes = extracted.net.nodes();
    let keys = extracted.keys.as_slice();
    let branches = extracted.branches.as_slice();
    let Ok(limits) = limits(alloc, basis.tech, grid, keys, branches, basis.bias) else {
        return Err(Answer::Want);
    };
    sign_network(alloc, grid, extracted, &limits, solver)
}
