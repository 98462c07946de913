//! The pieces and arrays of a grid, and the layers that they lie on.
ghost use Rattle.std.specs.Prelude.{◌≡◌, ◌<◌, length, slice_get, Some};
ghost use Rattle.lef_tech.specs.Limits.{TechKeeps, RoutingKeeps, CutKeeps};
ghost use Rattle.em_rules.specs.Limit.{HasCuts, IsWidth};
ghost use Rattle.grid_limits.specs.Limits.{IsWire, IsCuts, IsArrayAt, IsCutLayerOf};

use grid_pieces::{Grid, Piece};
use lef_tech::{CutLayer, RoutingLayer, Tech};
use via_arrays::CutArray;

/// The piece with a number.
pub(crate) fn piece_at(tech: &Tech, grid: &Grid, number: u32) -> Piece
    requires { IsWire tech.now grid.now number }
    ensures is { slice_get grid.now.pieces number ≡ Some result }
    ensures width { IsWidth result.width }
    ensures layer { result.layer < length tech.now.routing }
{
    let _order = tech.order.as_slice();
    grid.pieces.as_slice()[number as usize]
}

/// The routing layer with a number.
pub(crate) fn routing_layer_at(tech: &Tech, number: u32) -> &RoutingLayer
    requires tech { TechKeeps tech.now }
    requires number { number < length tech.now.routing }
    ensures is { slice_get tech.now.routing number ≡ Some result.now }
    ensures keeps { RoutingKeeps result.now }
{
    &tech.routing.as_slice()[number as usize]
}

/// The array at a level of the stack with a number.
pub(crate) fn array_at<'a>(tech: &Tech, grid: &'a Grid, number: u32, level: u32) -> &'a CutArray
    requires { IsCuts tech.now grid.now number level }
    ensures is { IsArrayAt grid.now number level result.now }
    ensures rule { result.now.rule < length tech.now.rules }
    ensures cuts { HasCuts result.now }
{
    let _order = tech.order.as_slice();
    &grid.stacks.as_slice()[number as usize]
        .stack
        .arrays
        .as_slice()[level as usize]
}

/// The cut layer of the rule with a number.
pub(crate) fn cut_layer_at(tech: &Tech, rule: u32) -> &CutLayer
    requires tech { TechKeeps tech.now }
    requires rule { rule < length tech.now.rules }
    ensures is { IsCutLayerOf tech.now rule result.now }
    ensures keeps { CutKeeps result.now }
{
    let rule = &tech.rules.as_slice()[rule as usize];
    &tech.cuts.as_slice()[rule.cut as usize]
}
