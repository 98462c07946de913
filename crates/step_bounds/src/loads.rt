//! The loads of the steps.
ghost use Rattle.std.specs.Prelude.{◌≡◌, ◌≤◌, ◌<◌, ℕ, All, length, map, take, slice_index_or, IfOk};
ghost use Rattle.std.specs.List.{range_with_len};
ghost use Rattle.std.specs.List.Sorted.{IsNonDecreasing};
ghost use Rattle.grid_net.specs.declared.part.LoadRange.{LoadRange};
ghost use Rattle.grid_net.specs.Network.{load_range};
ghost use Rattle.step_bounds.specs.Changes.{load_entry};
ghost use Rattle.step_bounds.specs.inside.Loads.{loads_after, IsEnd};

use grid_net::{Load, Net};
use std::alloc::{AllocError, Global};
use wave_file::Change;

/// The loads of a network, one entry for each node.
pub(crate) fn loads_of(alloc: Global, net: &Net) -> Result<Vec<Load>, AllocError>
    ensures { IfOk result (λ v. v.items ≡ map (load_entry (load_range net.now)) (range_with_len 0 net.now.nodes)) }
{
    let mut loads = Vec::new(alloc);
    for node in 0..net.nodes() {
        let (low, high) = net.load(node);
        loads.push(Load { node, low, high })?;
    }
    Ok(loads)
}

// How many of the changes, whose steps do not fall, are of a step that is at most this one. The first so many are.
fn end_of(changes: &[Change], from: usize, step: u32) -> usize
    requires in_order { IsNonDecreasing (map (λ c. c.step) changes.now) }
    requires from { from ≤ length changes.now }
    requires until { (k : ℕ) (d : Change) → k < from → (slice_index_or changes.now k d).step ≤ step }
    ensures end { IsEnd changes.now step result }
    ensures from { from ≤ result }
{
    let mut end = from;
    while end < changes.len() && changes[end].step <= step {
        end += 1;
    }
    end
}

// The loads after changes.
fn apply(loads: &mut [Load], changes: &[Change])
    requires { All (λ c. c.node < length loads.old) changes.now }
    ensures { (f : ℕ → LoadRange) → loads.old ≡ map (load_entry f) (range_with_len 0 (length loads.old))
        → loads.new ≡ loads_after f changes.now (length loads.old) }
{
    for change in changes {
        loads[change.node as usize] = Load {
            node: change.node,
            low: change.low,
            high: change.high,
        };
    }
}

// Brings the loads of a slice to a step, and answers how many changes these are.
fn advance_slice(loads: &mut [Load], changes: &[Change], from: usize, step: u32) -> usize
    requires nodes { All (λ c. c.node < length loads.old) changes.now }
    requires in_order { IsNonDecreasing (map (λ c. c.step) changes.now) }
    requires from { from ≤ length changes.now }
    requires until { (k : ℕ) (d : Change) → k < from → (slice_index_or changes.now k d).step ≤ step }
    ensures end { IsEnd changes.now step result }
    ensures loads { (f : ℕ → LoadRange) → loads.old ≡ loads_after f (take from changes.now) (length loads.old)
        → loads.new ≡ loads_after f (take result changes.now) (length loads.old) }
{
    let end = end_of(changes, from, step);
    apply(loads, &changes[from..end]);
    end
}

/// Brings the loads to a step: from those after the first so many changes to those after all changes of a step that is at
/// most this one, and answers how many these are.
pub(crate) fn advance(loads: &mut Vec<Load>, changes: &[Change], from: usize, step: u32) -> usize
    requires nodes { All (λ c. c.node < length loads.old.items) changes.now }
    requires in_order { IsNonDecreasing (map (λ c. c.step) changes.now) }
    requires from { from ≤ length changes.now }
    requires until { (k : ℕ) (d : Change) → k < from → (slice_index_or changes.now k d).step ≤ step }
    ensures end { IsEnd changes.now step result }
    ensures loads { (f : ℕ → LoadRange) → loads.old.items ≡ loads_after f (take from changes.now) (length loads.old.items)
        → loads.new.items ≡ loads_after f (take result changes.now) (length loads.old.items) }
{
    advance_slice(loads, changes, from, step)
}
