ghost use Rattle.std.specs.Prelude.{◌≡◌, ◌≤◌, ◌<◌, ◌*◌, ◌^◌, ◌-ℤ◌, ◌+ℤ◌, int_le, pos, negsuc, None, length, All};
ghost use Rattle.rounding.specs.Rounding.{floor_div, ceil_div, quotient};
ghost use Rattle.grid_net.specs.Network.{IsResistorOf, entry_of, outflow, pad_at, places_at};
ghost use Rattle.grid_net.specs.inside.Flows.{flow_over, no_resistor};
ghost use Rattle.grid_net.specs.Limits.{IsBuilt, IsInLimit, greatest_voltage, most_resistors};
ghost use Rattle.grid_net.specs.Search.{or_else};
ghost use Rattle.grid_net.specs.Certificate.{high_sum, low_sum, FlowsWithin, value_limit, flow_limit};
ghost use Rattle.bound_check.specs.Failing.{unless, sum_test, sums_round};
ghost use Rattle.bound_check.specs.declared.fails.Side.TheVariants.{High, Low};

use crate::fails::{Fails, Side, unless_passes};
use grid_net::{Net, Resistor};
use rounding::{Round, divide};

/// The flow that leaves a node over the resistor at a place, rounded.
#[inline]
fn flow_at(round: Round, resistors: &[Resistor], x: &[i128], node: u32, place: u32) -> i128
    requires place_in { place < length resistors.now }
    requires node_in { node < length x.now }
    requires ends { All (IsResistorOf (length x.now)) resistors.now }
    requires values { All (IsInLimit value_limit) x.now }
    ensures { result ≡ flow_over (quotient round) resistors.now (entry_of x.now) node no_resistor place }
{
    let r = resistors[place as usize];
    let other = r.end_across(node);
    divide(round, x[node as usize] - x[other as usize], r.ohms)
}

/// The sum of the flows that leave a node, each rounded.
#[inline]
pub fn outflow_of(
    round: Round,
    resistors: &[Resistor],
    around: &[u32],
    x: &[i128],
    node: u32,
) -> i128
    requires around_is { around.now ≡ places_at resistors.now node }
    requires few { length resistors.now ≤ most_resistors }
    requires node_in { node < length x.now }
    requires ends { All (IsResistorOf (length x.now)) resistors.now }
    requires values { All (IsInLimit value_limit) x.now }
    requires flows { All (λ r. IsInLimit flow_limit (quotient round
        (entry_of x.now r.a -ℤ entry_of x.now r.b) r.ohms)) resistors.now }
    ensures value { result ≡ outflow (quotient round) resistors.now (entry_of x.now) node }
    ensures within { IsInLimit (10 ^ 38) result }
{
    let mut sum: i128 = 0;
    for place in around {
        let flow = flow_at(round, resistors, x, node, *place);
        sum += flow;
    }
    sum
}

/// The test of the two sums of a node that is no pad, high before low.
pub fn total_failure(node: u32, high: i128, low: i128) -> Option<Fails>
    ensures { result ≡ or_else (unless (int_le (pos 1) high) node High high)
        (unless (int_le low (negsuc 0)) node Low low) }
{
    let first = unless_passes(1 <= high, node, Side::High, high);
    first.or(unless_passes(low <= -1, node, Side::Low, low))
}

/// The test of how far the entries of a pad's node are above its voltage, high before low.
fn entry_failure(node: u32, high: i128, low: i128) -> Option<Fails>
    ensures { result ≡ or_else (unless (int_le (pos 0) high) node High high)
        (unless (int_le low (pos 0)) node Low low) }
{
    let first = unless_passes(0 <= high, node, Side::High, high);
    first.or(unless_passes(low <= 0, node, Side::Low, low))
}

/// The test of the entries of a pad's node against its voltage.
pub fn pad_failure(node: u32, volts: i128, high: i128, low: i128) -> Option<Fails>
    requires volts { IsInLimit greatest_voltage volts }
    requires high { IsInLimit value_limit high }
    requires low { IsInLimit value_limit low }
    ensures { result ≡ or_else (unless (int_le (pos 0) (high -ℤ volts)) node High (high -ℤ volts))
        (unless (int_le (low -ℤ volts) (pos 0)) node Low (low -ℤ volts)) }
{
    entry_failure(node, high - volts, low - volts)
}

/// The sums of a node: its flows rounded down with the low end of its load, and its flows rounded up with the high end.
#[derive(Clone, Copy)]
pub struct Sums {
    pub high: i128,
    pub low: i128,
}

/// The two sums of a node.
pub fn node_sums(net: &Net, high: &[i128], low: &[i128], node: u32) -> Sums
    requires built { IsBuilt net.now }
    requires node_in { node < net.now.nodes }
    requires high_size { length high.now ≡ net.now.nodes }
    requires low_size { length low.now ≡ net.now.nodes }
    requires high_values { All (IsInLimit value_limit) high.now }
    requires low_values { All (IsInLimit value_limit) low.now }
    requires high_flows { FlowsWithin floor_div net.now flow_limit (entry_of high.now) }
    requires low_flows { FlowsWithin ceil_div net.now flow_limit (entry_of low.now) }
    ensures high { result.high ≡ high_sum net.now (entry_of high.now) node }
    ensures low { result.low ≡ low_sum net.now (entry_of low.now) node }
    ensures high_within { IsInLimit (11 * 10 ^ 37) result.high }
    ensures low_within { IsInLimit (11 * 10 ^ 37) result.low }
{
    let (low_load, high_load) = net.load(node);
    let resistors = net.resistors();
    let around = net.around(node);
    let down = outflow_of(Round::Down, resistors, around, high, node);
    let up = outflow_of(Round::Up, resistors, around, low, node);
    Sums {
        high: down + low_load as i128,
        low: up + high_load as i128,
    }
}

/// The test of the sums of a node, as of one that is no pad.
fn free_failure(net: &Net, high: &[i128], low: &[i128], node: u32) -> Option<Fails>
    requires built { IsBuilt net.now }
    requires node_in { node < net.now.nodes }
    requires high_size { length high.now ≡ net.now.nodes }
    requires low_size { length low.now ≡ net.now.nodes }
    requires high_values { All (IsInLimit value_limit) high.now }
    requires low_values { All (IsInLimit value_limit) low.now }
    requires high_flows { FlowsWithin floor_div net.now flow_limit (entry_of high.now) }
    requires low_flows { FlowsWithin ceil_div net.now flow_limit (entry_of low.now) }
    ensures { result ≡ sum_test net.now (entry_of high.now) (entry_of low.now) node None }
{
    let sums = node_sums(net, high, low, node);
    total_failure(node, sums.high, sums.low)
}

/// The test of the sums of a node, or of its entries where a pad stands.
fn sum_failure(net: &Net, high: &[i128], low: &[i128], node: u32) -> Option<Fails>
    requires built { IsBuilt net.now }
    requires node_in { node < net.now.nodes }
    requires high_size { length high.now ≡ net.now.nodes }
    requires low_size { length low.now ≡ net.now.nodes }
    requires high_values { All (IsInLimit value_limit) high.now }
    requires low_values { All (IsInLimit value_limit) low.now }
    requires high_flows { FlowsWithin floor_div net.now flow_limit (entry_of high.now) }
    requires low_flows { FlowsWithin ceil_div net.now flow_limit (entry_of low.now) }
    ensures { result ≡ sum_test net.now (entry_of high.now) (entry_of low.now) node (pad_at net.now node) }
{
    match net.pad(node) {
        Some(volts) => pad_failure(node, volts, high[node as usize], low[node as usize]),
        None => free_failure(net, high, low, node),
    }
}

/// The third round of the test: the first failing sum, over all nodes.
pub fn sums_failure(net: &Net, high: &[i128], low: &[i128]) -> Option<Fails>
    requires built { IsBuilt net.now }
    requires high_size { length high.now ≡ net.now.nodes }
    requires low_size { length low.now ≡ net.now.nodes }
    requires high_values { All (IsInLimit value_limit) high.now }
    requires low_values { All (IsInLimit value_limit) low.now }
    requires high_flows { FlowsWithin floor_div net.now flow_limit (entry_of high.now) }
    requires low_flows { FlowsWithin ceil_div net.now flow_limit (entry_of low.now) }
    ensures { result ≡ sums_round net.now (entry_of high.now) (entry_of low.now) }
{
    for node in 0..net.nodes() {
        let failure = sum_failure(net, high, low, node);
        if failure.is_some() {
            return failure;
        }
    }
    None
}
