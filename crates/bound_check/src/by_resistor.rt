//! The sums of all nodes, added up in one pass over the resistors: each takes one division for a list, and the sums stand in
//! 64 bits as long as they fit.
ghost use Rattle.std.specs.Prelude.{◌≡◌, ◌<◌, ◌*◌, ◌^◌, ◌-ℤ◌, ◌+ℤ◌, ◌≤ℤ◌, ℕ, pos, neg_ℤ, true, None, length, All, slice_set};
ghost use Rattle.rounding.specs.Rounding.{floor_div, ceil_div, quotient};
ghost use Rattle.grid_net.specs.Network.{IsResistorOf, entry_of, low_load, high_load, outflow, pad_at, taken_by};
ghost use Rattle.grid_net.specs.Limits.{IsBuilt, IsInLimit};
ghost use Rattle.grid_net.specs.Search.{first_of};
ghost use Rattle.grid_net.specs.Certificate.{value_limit, flow_limit};
ghost use Rattle.bound_check.specs.Failing.{flow_test, sum_test, sums_round, first_failing};
ghost use Rattle.bound_check.specs.inside.Adding.{LeavesNodes};

use crate::certificate::first_failure;
use crate::fails::Fails;
use crate::sums::{Sums, pad_failure, total_failure};
use crate::values::values_failure;
use grid_net::{Net, Resistor};
use rounding::Round;

/// The flow through a resistance rounded down, by a division in 64 bits where both numbers fit them.
#[inline]
fn floor_of(difference: i128, ohms: i128) -> i128
    requires { pos 1 ≤ℤ ohms }
    ensures { result ≡ floor_div difference ohms }
{
    match (i64::try_from(difference), i64::try_from(ohms)) {
        (Ok(narrow), Ok(divisor)) => i128::from(narrow.div_euclid(divisor)),
        _ => difference.div_euclid(ohms),
    }
}

/// A quotient rounded up, by that rounded down.
#[inline]
fn rounded_up(difference: i128, ohms: i128, down: i128) -> i128
    requires resists { pos 1 ≤ℤ ohms }
    requires difference { IsInLimit (2 * value_limit) difference }
    requires down { down ≡ floor_div difference ohms }
    ensures value { result ≡ ceil_div difference ohms }
    ensures within { IsInLimit (2 * value_limit) result }
{
    let product = ohms * down;
    if product < difference { down + 1 } else { down }
}

/// The flows that leave the two ends of a resistor under the difference of potential from end a to end b, each rounded, by a
/// single division.
#[inline]
pub fn flows_from_ends(round: Round, difference: i128, ohms: i128) -> (i128, i128)
    requires resists { pos 1 ≤ℤ ohms }
    requires difference { IsInLimit (2 * value_limit) difference }
    ensures from_a { result.0 ≡ quotient round difference ohms }
    ensures from_b { result.1 ≡ quotient round (neg_ℤ difference) ohms }
    ensures a_within { IsInLimit (2 * value_limit) result.0 }
    ensures b_within { IsInLimit (2 * value_limit) result.1 }
{
    let down = floor_of(difference, ohms);
    let up = rounded_up(difference, ohms, down);
    match round {
        Round::Down => (down, -up),
        Round::Up => (up, -down),
    }
}

/// Adds a flow to the sum of a node, and tells whether the sum fits.
#[inline]
fn add(sums: &mut [i64], node: u32, flow: i128) -> bool
    requires node_in { node < length sums.old }
    requires flow { IsInLimit (2 * value_limit) flow }
    ensures sums { result ≡ true → sums.new ≡ slice_set sums.old node (entry_of sums.old node +ℤ flow) }
    ensures within { result ≡ true → IsInLimit flow_limit flow }
{
    match i64::try_from(sums[node as usize] as i128 + flow) {
        Ok(sum) => {
            sums[node as usize] = sum;
            true
        }
        Err(_) => false,
    }
}

/// Adds what a resistor takes from the nodes at its ends to their sums, and tells whether these fit. The flow is within its
/// limit then.
#[inline]
fn add_flow(round: Round, r: &Resistor, x: &[i128], sums: &mut [i64]) -> bool
    requires ends { IsResistorOf (length x.now) r.now }
    requires same { length sums.old ≡ length x.now }
    requires values { All (IsInLimit value_limit) x.now }
    ensures sums { result ≡ true → (i : ℕ) → i < length x.now
        → entry_of sums.new i ≡ entry_of sums.old i +ℤ taken_by r.now i
        (quotient round (entry_of x.now r.now.a -ℤ entry_of x.now r.now.b) r.now.ohms)
        (quotient round (entry_of x.now r.now.b -ℤ entry_of x.now r.now.a) r.now.ohms) }
    ensures within { result ≡ true
        → IsInLimit flow_limit (quotient round (entry_of x.now r.now.a -ℤ entry_of x.now r.now.b) r.now.ohms) }
{
    let difference = x[r.a as usize] - x[r.b as usize];
    let (from_a, from_b) = flows_from_ends(round, difference, r.ohms);
    if !add(sums, r.a, from_a) {
        return false;
    }
    add(sums, r.b, from_b)
}

/// Adds the flows of both lists, resistor by resistor, and tells whether all sums fit. No flow fails its test then.
fn add_flows(
    resistors: &[Resistor],
    high: &[i128],
    low: &[i128],
    of_high: &mut [i64],
    of_low: &mut [i64],
) -> bool
    requires ends { All (IsResistorOf (length high.now)) resistors.now }
    requires same { length low.now ≡ length high.now }
    requires high_values { All (IsInLimit value_limit) high.now }
    requires low_values { All (IsInLimit value_limit) low.now }
    requires of_high { length of_high.old ≡ length high.now }
    requires of_low { length of_low.old ≡ length high.now }
    ensures high { result ≡ true → (i : ℕ) → i < length high.now
        → entry_of of_high.new i ≡ entry_of of_high.old i +ℤ outflow floor_div resistors.now (entry_of high.now) i }
    ensures low { result ≡ true → (i : ℕ) → i < length high.now
        → entry_of of_low.new i ≡ entry_of of_low.old i +ℤ outflow ceil_div resistors.now (entry_of low.now) i }
    ensures flows { result ≡ true → first_of (flow_test (entry_of high.now) (entry_of low.now)) resistors.now ≡ None }
{
    for r in resistors {
        if !add_flow(Round::Down, r, high, of_high) {
            return false;
        }
        if !add_flow(Round::Up, r, low, of_low) {
            return false;
        }
    }
    true
}

/// The two sums of a node, by the flows that leave it.
fn sums_of(net: &Net, of_high: i64, of_low: i64, node: u32) -> Sums
    requires node_in { node < net.now.nodes }
    ensures high { result.high ≡ of_high +ℤ low_load net.now node }
    ensures low { result.low ≡ of_low +ℤ high_load net.now node }
    ensures high_within { IsInLimit (2 ^ 64) result.high }
    ensures low_within { IsInLimit (2 ^ 64) result.low }
{
    let (low_load, high_load) = net.load(node);
    Sums {
        high: of_high as i128 + low_load as i128,
        low: of_low as i128 + high_load as i128,
    }
}

/// The test of the sums of a node, by the flows that leave it, or of its entries where a pad stands.
fn sum_failure(
    net: &Net,
    high: &[i128],
    low: &[i128],
    of_high: &[i64],
    of_low: &[i64],
    node: u32,
) -> Option<Fails>
    requires built { IsBuilt net.now }
    requires node_in { node < net.now.nodes }
    requires high_size { length high.now ≡ net.now.nodes }
    requires low_size { length low.now ≡ net.now.nodes }
    requires high_values { All (IsInLimit value_limit) high.now }
    requires low_values { All (IsInLimit value_limit) low.now }
    requires of_high { LeavesNodes floor_div net.now (entry_of high.now) of_high.now }
    requires of_low { LeavesNodes ceil_div net.now (entry_of low.now) of_low.now }
    ensures { result ≡ sum_test net.now (entry_of high.now) (entry_of low.now) node (pad_at net.now node) }
{
    match net.pad(node) {
        Some(volts) => pad_failure(node, volts, high[node as usize], low[node as usize]),
        None => {
            let sums = sums_of(net, of_high[node as usize], of_low[node as usize], node);
            total_failure(node, sums.high, sums.low)
        }
    }
}

/// The first failing sum, over all nodes, by the flows that leave them.
fn sums_failure(
    net: &Net,
    high: &[i128],
    low: &[i128],
    of_high: &[i64],
    of_low: &[i64],
) -> Option<Fails>
    requires built { IsBuilt net.now }
    requires high_size { length high.now ≡ net.now.nodes }
    requires low_size { length low.now ≡ net.now.nodes }
    requires high_values { All (IsInLimit value_limit) high.now }
    requires low_values { All (IsInLimit value_limit) low.now }
    requires of_high { LeavesNodes floor_div net.now (entry_of high.now) of_high.now }
    requires of_low { LeavesNodes ceil_div net.now (entry_of low.now) of_low.now }
    ensures { result ≡ sums_round net.now (entry_of high.now) (entry_of low.now) }
{
    for node in 0..net.nodes() {
        let failure = sum_failure(net, high, low, of_high, of_low, node);
        if failure.is_some() {
            return failure;
        }
    }
    None
}

/// The first failing test of two lists, with room for a number of each node for either list, which are 0 at first. Where
/// a sum does not fit there, it is looked for without.
pub fn failure_by_resistor(
    net: &Net,
    high: &[i128],
    low: &[i128],
    of_high: &mut [i64],
    of_low: &mut [i64],
) -> Option<Fails>
    requires high_size { length high.now ≡ net.now.nodes }
    requires low_size { length low.now ≡ net.now.nodes }
    requires of_high_size { length of_high.old ≡ net.now.nodes }
    requires of_low_size { length of_low.old ≡ net.now.nodes }
    requires of_high { (i : ℕ) → i < net.now.nodes → entry_of of_high.old i ≡ pos 0 }
    requires of_low { (i : ℕ) → i < net.now.nodes → entry_of of_low.old i ≡ pos 0 }
    requires built { IsBuilt net.now }
    ensures { result ≡ first_failing net.now high.now low.now }
{
    let value = values_failure(high, low);
    if value.is_some() {
        return value;
    }
    if !add_flows(net.resistors(), high, low, of_high, of_low) {
        return first_failure(net, high, low);
    }
    sums_failure(net, high, low, of_high, of_low)
}
