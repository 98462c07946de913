ghost use Rattle.std.specs.Prelude.{◌≡◌, ◌≤◌, ◌<◌, ◌*◌, ◌+◌, ◌^◌, ◌-ℤ◌, ◌+ℤ◌, ◌≤ℤ◌, ◌<ℤ◌, ℕ, ℤ, pos, neg_ℤ, length, All, slice_index_or};
ghost use Rattle.grid_net.specs.Network.{IsResistorOf, entry_of, other_end, outflow, places_at, degree};
ghost use Rattle.grid_net.specs.inside.Flows.{flow_over};
ghost use Rattle.grid_net.specs.Limits.{IsBuilt, IsInLimit, greatest_resistance};
ghost use Rattle.grid_net.specs.Certificate.{value_limit, flow_limit, most_excess};
ghost use Rattle.bound_make.specs.inside.Moving.{held_rule, GrowsLess, FallsAtMost, IsMovedAt};
ghost use Rattle.grid_net.specs.inside.Flows.{no_resistor};

use crate::flow::{difference_at, held_flow};
use grid_net::{GREATEST_FLOW, GREATEST_VALUE, Net, Resistor};
use rounding::{div_ceil, div_floor};

/// No node is moved farther than this at once.
const GREATEST_STEP: i128 = GREATEST_VALUE;

/// How far a difference of potential has to grow until the held flow is so many units greater. Where it cannot be,
/// the greatest step.
fn rise_room(difference: i128, ohms: i128, units: i128) -> i128
    requires difference { IsInLimit (2 * value_limit) difference }
    requires ohms { (pos 1 ≤ℤ ohms) × (ohms ≤ℤ pos greatest_resistance) }
    requires units { pos 1 ≤ℤ units }
    ensures positive { pos 1 ≤ℤ result }
    ensures room { (e : ℤ) → pos 0 ≤ℤ e → e <ℤ result
        → (held_rule (difference +ℤ e) ohms -ℤ held_rule difference ohms) <ℤ units }
{
    let flow = held_flow(difference, ohms);
    if flow >= GREATEST_FLOW {
        return GREATEST_STEP;
    }
    let more = units.min(div_floor(GREATEST_STEP, ohms));
    ohms * (flow + more) - difference
}

/// How far a difference of potential may fall with the held flow falling by at most so many units. Where it cannot
/// fall, the greatest step.
fn fall_room(difference: i128, ohms: i128, units: i128) -> i128
    requires difference { IsInLimit (2 * value_limit) difference }
    requires ohms { (pos 1 ≤ℤ ohms) × (ohms ≤ℤ pos greatest_resistance) }
    requires units { pos 1 ≤ℤ units }
    ensures positive { pos 1 ≤ℤ result }
    ensures room { (e : ℤ) → pos 0 ≤ℤ e → e ≤ℤ result
        → (held_rule difference ohms -ℤ held_rule (difference -ℤ e) ohms) ≤ℤ units }
{
    let flow = held_flow(difference, ohms);
    if flow <= -GREATEST_FLOW {
        return GREATEST_STEP;
    }
    let less = units.min(div_floor(GREATEST_STEP, ohms));
    difference - ohms * (flow - less)
}

/// How far a node may rise until the flow over the resistor at a place is so many units greater.
fn rise_at(resistors: &[Resistor], x: &[i128], node: u32, place: u32, units: i128) -> i128
    requires place_in { place < length resistors.now }
    requires node_in { node < length x.now }
    requires ends { All (IsResistorOf (length x.now)) resistors.now }
    requires ohms { All (λ r. r.ohms ≤ℤ pos greatest_resistance) resistors.now }
    requires values { All (IsInLimit value_limit) x.now }
    requires units { pos 1 ≤ℤ units }
    ensures positive { pos 1 ≤ℤ result }
    ensures room { GrowsLess resistors.now x.now node units result place }
{
    let difference = difference_at(resistors, x, node, place);
    rise_room(difference, resistors[place as usize].ohms, units)
}

/// How far a node may fall with the flow over the resistor at a place falling by at most so many units.
fn fall_at(resistors: &[Resistor], x: &[i128], node: u32, place: u32, units: i128) -> i128
    requires place_in { place < length resistors.now }
    requires node_in { node < length x.now }
    requires ends { All (IsResistorOf (length x.now)) resistors.now }
    requires ohms { All (λ r. r.ohms ≤ℤ pos greatest_resistance) resistors.now }
    requires values { All (IsInLimit value_limit) x.now }
    requires units { pos 1 ≤ℤ units }
    ensures positive { pos 1 ≤ℤ result }
    ensures room { FallsAtMost resistors.now x.now node units result place }
{
    let difference = difference_at(resistors, x, node, place);
    fall_room(difference, resistors[place as usize].ohms, units)
}

/// The least rise of a node after which the flow over some resistor at it may be so many units greater.
fn least_rise(resistors: &[Resistor], around: &[u32], x: &[i128], node: u32, units: i128) -> i128
    requires around_is { around.now ≡ places_at resistors.now node }
    requires node_in { node < length x.now }
    requires ends { All (IsResistorOf (length x.now)) resistors.now }
    requires ohms { All (λ r. r.ohms ≤ℤ pos greatest_resistance) resistors.now }
    requires values { All (IsInLimit value_limit) x.now }
    requires units { pos 1 ≤ℤ units }
    ensures positive { pos 1 ≤ℤ result }
    ensures at_most { result ≤ℤ pos value_limit }
    ensures room { (k : ℕ) → k < length around.now
        → GrowsLess resistors.now x.now node units result (slice_index_or around.now k 0) }
{
    let mut least = GREATEST_STEP;
    for place in around {
        let room = rise_at(resistors, x, node, *place, units);
        least = least.min(room);
    }
    least
}

/// The least fall of a node up to which the flow over each resistor at it falls by at most so many units.
fn least_fall(resistors: &[Resistor], around: &[u32], x: &[i128], node: u32, units: i128) -> i128
    requires around_is { around.now ≡ places_at resistors.now node }
    requires node_in { node < length x.now }
    requires ends { All (IsResistorOf (length x.now)) resistors.now }
    requires ohms { All (λ r. r.ohms ≤ℤ pos greatest_resistance) resistors.now }
    requires values { All (IsInLimit value_limit) x.now }
    requires units { pos 1 ≤ℤ units }
    ensures positive { pos 1 ≤ℤ result }
    ensures at_most { result ≤ℤ pos value_limit }
    ensures room { (k : ℕ) → k < length around.now
        → FallsAtMost resistors.now x.now node units result (slice_index_or around.now k 0) }
{
    let mut least = GREATEST_STEP;
    for place in around {
        let room = fall_at(resistors, x, node, *place, units);
        least = least.min(room);
    }
    least
}

/// By how much a node has to rise at least until the flows that leave it are greater by a number.
pub(crate) fn rise_step(net: &Net, x: &[i128], node: u32, missing: i128) -> i128
    requires built { IsBuilt net.now }
    requires node_in { node < net.now.nodes }
    requires size { length x.now ≡ net.now.nodes }
    requires values { All (IsInLimit value_limit) x.now }
    requires missing { pos 1 ≤ℤ missing }
    ensures positive { pos 1 ≤ℤ result }
    ensures at_most { result ≤ℤ pos value_limit }
    ensures room { (e : ℤ) (y : ℕ → ℤ) → pos 0 ≤ℤ e → e <ℤ result → IsMovedAt net.now.nodes node e (entry_of x.now) y
        → outflow held_rule net.now.resistors y node <ℤ
        (outflow held_rule net.now.resistors (entry_of x.now) node +ℤ missing) }
{
    let around = net.around(node);
    let count = (around.len() as i128).max(1);
    least_rise(net.resistors(), around, x, node, div_ceil(missing, count))
}

/// By how much a node may fall with the flows that leave it falling by at most a number.
pub(crate) fn fall_step(net: &Net, x: &[i128], node: u32, spare: i128) -> i128
    requires built { IsBuilt net.now }
    requires node_in { node < net.now.nodes }
    requires size { length x.now ≡ net.now.nodes }
    requires values { All (IsInLimit value_limit) x.now }
    requires spare { pos (most_excess net.now node) <ℤ spare }
    ensures positive { pos 1 ≤ℤ result }
    ensures at_most { result ≤ℤ pos value_limit }
    ensures room { (y : ℕ → ℤ) → IsMovedAt net.now.nodes node (neg_ℤ result) (entry_of x.now) y
        → (outflow held_rule net.now.resistors (entry_of x.now) node -ℤ spare)
        ≤ℤ outflow held_rule net.now.resistors y node }
{
    let around = net.around(node);
    let count = (around.len() as i128).max(1);
    least_fall(net.resistors(), around, x, node, div_floor(spare, count))
}
