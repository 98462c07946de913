//! Whether a technology keeps what no statement says by itself: the densities of its layers by their types, and that the
//! layers of a rule stand in it.
ghost use Rattle.std.specs.Prelude.{◌<◌, ◌≤◌, ◌^◌, All, IsTrue, length, ℕ};
ghost use Rattle.lef_tech.specs.Limits.{Rise, DensityKeeps};
ghost use Rattle.lef_tech.specs.inside.Looks.{WireDensityKeeps, CutDensityKeeps, LayersStand};

use crate::layer::{CutLayer, Density, RoutingLayer};
use crate::limits::{AREA_LIMIT, CUT_DENSITY_LIMIT, LENGTH_LIMIT, WIRE_DENSITY_LIMIT};
use crate::rule::ViaRule;
use crate::tech::Tech;

/// Whether the points of a table rise.
fn rise(points: &[(u64, u64)]) -> bool
    ensures { IsTrue result → Rise points.now }
{
    let mut count = 1;
    while count < points.len() {
        if points[count].0 <= points[count - 1].0 {
            return false;
        }
        count += 1;
    }
    true
}

/// Whether no point and no entry of a table passes these limits.
fn points_keep(point_limit: u64, value_limit: u64, points: &[(u64, u64)]) -> bool
    ensures { IsTrue result → All (λ (p : ℕ × ℕ). (p.0 ≤ point_limit) × (p.1 ≤ value_limit)) points.now }
{
    for point in points {
        if point_limit < point.0 || value_limit < point.1 {
            return false;
        }
    }
    true
}

/// Whether a density keeps these limits.
fn density_keeps(point_limit: u64, value_limit: u64, density: &Density) -> bool
    ensures { IsTrue result → DensityKeeps (λ p. p ≤ point_limit) (λ v. v ≤ value_limit) density.now }
{
    match density {
        Density::Unlimited => true,
        Density::One(value) => *value <= value_limit,
        Density::Table(table) => {
            let points = table.as_slice();
            !points.is_empty() && rise(points) && points_keep(point_limit, value_limit, points)
        }
    }
}

/// Whether the density of a routing layer keeps its limits.
fn wire_keeps(layer: &RoutingLayer) -> bool
    ensures { IsTrue result → WireDensityKeeps layer.now }
{
    density_keeps(
        LENGTH_LIMIT as u64,
        WIRE_DENSITY_LIMIT as u64,
        &layer.density,
    )
}

/// Whether the density of a cut layer keeps its limits.
fn cut_keeps(layer: &CutLayer) -> bool
    ensures { IsTrue result → CutDensityKeeps layer.now }
{
    density_keeps(AREA_LIMIT as u64, CUT_DENSITY_LIMIT as u64, &layer.density)
}

fn wires_keep(layers: &[RoutingLayer]) -> bool
    ensures { IsTrue result → All WireDensityKeeps layers.now }
{
    for layer in layers {
        if !wire_keeps(layer) {
            return false;
        }
    }
    true
}

fn cuts_keep(layers: &[CutLayer]) -> bool
    ensures { IsTrue result → All CutDensityKeeps layers.now }
{
    for layer in layers {
        if !cut_keeps(layer) {
            return false;
        }
    }
    true
}

/// Whether the layers of a rule stand in a technology.
fn layers_stand(tech: &Tech, rule: &ViaRule) -> bool
    ensures { IsTrue result → LayersStand tech.now rule.now }
{
    let wires = tech.routing.as_slice().len();
    let cuts = tech.cuts.as_slice().len();
    (rule.upper as usize) < wires && (rule.cut as usize) < cuts
}

fn rules_stand(tech: &Tech, rules: &[ViaRule]) -> bool
    ensures { IsTrue result → All (LayersStand tech.now) rules.now }
{
    for rule in rules {
        if !layers_stand(tech, rule) {
            return false;
        }
    }
    true
}

/// Whether a count fits 32 bits.
pub(crate) fn is_few(count: usize) -> bool
    ensures { IsTrue result → count < 2 ^ 32 }
{
    count <= 4_294_967_295
}

/// Whether a technology keeps all this.
pub(crate) fn keeps_limits(tech: &Tech) -> bool
    ensures routing { IsTrue result → All WireDensityKeeps tech.now.routing }
    ensures cuts { IsTrue result → All CutDensityKeeps tech.now.cuts }
    ensures rules { IsTrue result → All (LayersStand tech.now) tech.now.rules }
{
    wires_keep(tech.routing.as_slice())
        && cuts_keep(tech.cuts.as_slice())
        && rules_stand(tech, tech.rules.as_slice())
}
