//! The bounds of one step, over those of the step before.
ghost use Rattle.std.specs.Prelude.{◌≡◌, ◌≤◌, ◌<◌, ℕ, None, length, IfOk, IfErr, IsOk};
ghost use Rattle.outside.specs.Counts.{Rose};
ghost use Rattle.grid_net.specs.Level.{IsSupplied};
ghost use Rattle.step_bounds.specs.StepNetwork.{refusal_over, step_cells};
ghost use Rattle.step_bounds.specs.StepCertificate.{IsHighBound, IsLowBound};
ghost use Rattle.step_bounds.specs.inside.Extension.{IsExtension};
ghost use Rattle.step_bounds.specs.inside.Loads.{AreLoads};
ghost use Rattle.step_bounds.specs.inside.Step.{AreLists, AreBounds, IsPassedOver, IsPassedAt};

use crate::extension::Extension;
use crate::lists::{Bounds, Lists};
use crate::network::network_over;
use crate::passed::Passed;
use bound_make::certify_halves;
use grid_net::{Load, Net, Solver, built_network};
use level_region::Region;
use std::alloc::Global;

// The bounds of a step with these loads, over the two lists of the step before. Errors: a quantity of its network over one
// of them passes its limit; want of memory.
fn bounds_of<V: Solver>(
    alloc: Global,
    net: &Net,
    extension: &Extension,
    loads: &[Load],
    over_high: &[i128],
    over_low: &[i128],
    work: &mut Region,
    solver: &mut V,
) -> Result<Bounds, Passed>
    requires extension { IsExtension net.now extension.now }
    requires loads { AreLoads net.now.nodes loads.now }
    requires supplied { (i : ℕ) → i < net.now.nodes → IsSupplied net.now i }
    requires cells { length work.old.cells ≡ step_cells net.now extension.now.companions.items }
    requires high_size { length over_high.now ≡ net.now.nodes }
    requires low_size { length over_low.now ≡ net.now.nodes }
    ensures high_bound { IfOk result (λ b.
        IsHighBound net.now extension.now.companions.items loads.now over_high.now b.high.items) }
    ensures low_bound { IfOk result (λ b.
        IsLowBound net.now extension.now.companions.items loads.now over_low.now b.low.items) }
    ensures high_size { IfOk result (λ b. length b.high.items ≡ net.now.nodes) }
    ensures low_size { IfOk result (λ b. length b.low.items ≡ net.now.nodes) }
    ensures high_kept { IsOk result
        → refusal_over net.now extension.now.companions.items loads.now over_high.now ≡ None }
    ensures low_kept { IsOk result
        → refusal_over net.now extension.now.companions.items loads.now over_low.now ≡ None }
    ensures passed { IfErr result (λ e.
        IsPassedOver net.now extension.now.companions.items loads.now over_high.now over_low.now e) }
    ensures asked { IsOk result → Rose (V.proposals solver.old) (V.proposals solver.new) }
    ensures counted { V.proposals solver.old ≤ V.proposals solver.new }
    ensures told { V.told solver.new ≡ V.told solver.old }
    ensures cells { length work.new.cells ≡ length work.old.cells }
{
    // tells that no node has two pads of different voltages
    built_network();
    let nodes = net.nodes() as usize;
    let high_net = network_over(alloc, net, extension, loads, over_high)?;
    let low_net = network_over(alloc, net, extension, loads, over_low)?;
    let (mut high, mut low) = certify_halves(alloc, &high_net, &low_net, work, solver)?;
    high.truncate(nodes);
    low.truncate(nodes);
    Ok(Bounds { high, low })
}

/// The bounds of the step after t, with these loads, over the lists of step t. Errors: a quantity of one of its two networks
/// passes its limit; want of memory.
pub(crate) fn bounds_over<V: Solver>(
    alloc: Global,
    net: &Net,
    extension: &Extension,
    loads: &[Load],
    lists: &Lists,
    t: u32,
    work: &mut Region,
    solver: &mut V,
) -> Result<Bounds, Passed>
    requires extension { IsExtension net.now extension.now }
    requires loads { AreLoads net.now.nodes loads.now }
    requires supplied { (i : ℕ) → i < net.now.nodes → IsSupplied net.now i }
    requires lists { AreLists net.now.nodes t lists.now }
    requires cells { length work.old.cells ≡ step_cells net.now extension.now.companions.items }
    ensures bounds { IfOk result (λ b. AreBounds net.now extension.now.companions.items loads.now t lists.now b) }
    ensures passed { IfErr result (λ e. IsPassedAt net.now extension.now.companions.items loads.now t lists.now e) }
    ensures asked { IsOk result → Rose (V.proposals solver.old) (V.proposals solver.new) }
    ensures counted { V.proposals solver.old ≤ V.proposals solver.new }
    ensures told { V.told solver.new ≡ V.told solver.old }
    ensures cells { length work.new.cells ≡ length work.old.cells }
{
    let over_high = lists.high[t as usize].as_slice();
    let over_low = lists.low[t as usize].as_slice();
    bounds_of(
        alloc, net, extension, loads, over_high, over_low, work, solver,
    )
}
