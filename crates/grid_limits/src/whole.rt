//! The limits of a network that was extracted from a grid.
ghost use Rattle.std.specs.Prelude.{All, IfOk};
ghost use Rattle.lef_tech.specs.Limits.{TechKeeps};
ghost use Rattle.via_arrays.specs.Lengths.{IsUnits};
ghost use Rattle.grid_limits.specs.Limits.{AreGridLimits, IsBranchOf};

use crate::branch::branch_limits;
use crate::net::{net_limits, nets_of};
use bias_file::Bias;
use entry_list::Entries;
use grid_network::{Branch, Key};
use grid_pieces::Grid;
use lef_tech::Tech;
use signoff_report::Limits;
use std::alloc::{AllocError, Global};

/// The limits of the branches and nets of a grid whose nodes have these keys, in the order of the nodes, and whose
/// resistors are these branches, in their order.
///
/// Error: want of memory.
pub fn limits(
    alloc: Global,
    tech: &Tech,
    grid: &Grid,
    keys: &[Key],
    branches: &[Branch],
    bias: &Bias,
) -> Result<Limits, AllocError>
    requires tech { TechKeeps tech.now }
    requires units { IsUnits grid.now.units }
    requires branches { All (IsBranchOf tech.now grid.now) branches.now }
    ensures { IfOk result (AreGridLimits tech.now grid.now keys.now branches.now bias.now) }
{
    Ok(Limits {
        branches: Entries::new(branch_limits(alloc, tech, grid, branches)?),
        nets: Entries::new(net_limits(alloc, grid, bias)?),
        net_of: Entries::new(nets_of(alloc, keys)?),
    })
}
