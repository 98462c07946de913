//! The greatest currents of branches.
ghost use Rattle.std.specs.Prelude.{All, IfOk};
ghost use Rattle.entry_list.specs.InTurn.{InTurn};
ghost use Rattle.lef_tech.specs.Limits.{TechKeeps};
ghost use Rattle.via_arrays.specs.Lengths.{IsUnits};
ghost use Rattle.grid_limits.specs.Limits.{IsBranchLimit, IsPieceLimit, IsArrayLimit, IsBranchOf, IsWire, IsCuts};

use crate::found::{array_at, cut_layer_at, piece_at, routing_layer_at};
use em_rules::{cut_limit, wire_limit};
use grid_network::Branch;
use grid_pieces::Grid;
use lef_tech::Tech;
use std::alloc::{AllocError, Global};

/// The limit of each branch, in their order.
pub(crate) fn branch_limits(
    alloc: Global,
    tech: &Tech,
    grid: &Grid,
    branches: &[Branch],
) -> Result<Vec<Option<u128>>, AllocError>
    requires tech { TechKeeps tech.now }
    requires units { IsUnits grid.now.units }
    requires branches { All (IsBranchOf tech.now grid.now) branches.now }
    ensures { IfOk result (λ limits. InTurn (IsBranchLimit tech.now grid.now) branches.now limits.items) }
{
    let mut limits = Vec::new(alloc);
    for branch in branches {
        limits.push(branch_limit(tech, grid, *branch))?;
    }
    Ok(limits)
}

// The limit of a branch.
fn branch_limit(tech: &Tech, grid: &Grid, branch: Branch) -> Option<u128>
    requires tech { TechKeeps tech.now }
    requires units { IsUnits grid.now.units }
    requires branch { IsBranchOf tech.now grid.now branch }
    ensures { IsBranchLimit tech.now grid.now branch result }
{
    match branch {
        Branch::Wire(piece) => piece_limit(tech, grid, piece),
        Branch::Cuts(stack, level) => array_limit(tech, grid, stack, level),
    }
}

// That of a wire along a piece.
fn piece_limit(tech: &Tech, grid: &Grid, number: u32) -> Option<u128>
    requires tech { TechKeeps tech.now }
    requires units { IsUnits grid.now.units }
    requires piece { IsWire tech.now grid.now number }
    ensures { IsPieceLimit tech.now grid.now number result }
{
    let piece = piece_at(tech, grid, number);
    let layer = routing_layer_at(tech, piece.layer);
    wire_limit(layer, piece.width, grid.units)
}

// That of an array of cuts.
fn array_limit(tech: &Tech, grid: &Grid, number: u32, level: u32) -> Option<u128>
    requires tech { TechKeeps tech.now }
    requires units { IsUnits grid.now.units }
    requires array { IsCuts tech.now grid.now number level }
    ensures { IsArrayLimit tech.now grid.now number level result }
{
    let array = array_at(tech, grid, number, level);
    let layer = cut_layer_at(tech, array.rule);
    cut_limit(layer, array, grid.units)
}
