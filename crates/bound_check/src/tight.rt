ghost use Rattle.std.specs.Prelude.{◌≡◌, ◌≤◌, ◌<◌, ◌*◌, ◌+◌, ◌^◌, ◌↔◌, ◌-ℤ◌, ◌+ℤ◌, int_le, pos, negsuc, None, Some, length, All, IsOk, IfErr, if◌then◌else◌};
ghost use Rattle.std.specs.Int.{int_max};
ghost use Rattle.rounding.specs.Rounding.{floor_div, ceil_div};
ghost use Rattle.grid_net.specs.Network.{entry_of, pad_at};
ghost use Rattle.grid_net.specs.Search.{first_below};
ghost use Rattle.grid_net.specs.Limits.{IsBuilt, IsInLimit, greatest_voltage};
ghost use Rattle.grid_net.specs.Certificate.{IsCertificate, IsTight, FlowsWithin, value_limit, flow_limit};
ghost use Rattle.bound_check.specs.Loose.{excess, greatest_excess, loose_test, first_loose};

use crate::sums::node_sums;
use grid_net::{MOST_EXCESS, Net};

/// The greater excess of a node that is no pad, over what the test of a certificate asks.
fn free_excess(net: &Net, high: &[i128], low: &[i128], node: u32) -> i128
    requires built { IsBuilt net.now }
    requires node_in { node < net.now.nodes }
    requires high_size { length high.now ≡ net.now.nodes }
    requires low_size { length low.now ≡ net.now.nodes }
    requires high_values { All (IsInLimit value_limit) high.now }
    requires low_values { All (IsInLimit value_limit) low.now }
    requires high_flows { FlowsWithin floor_div net.now flow_limit (entry_of high.now) }
    requires low_flows { FlowsWithin ceil_div net.now flow_limit (entry_of low.now) }
    ensures { result ≡ excess net.now (entry_of high.now) (entry_of low.now) node None }
{
    let sums = node_sums(net, high, low, node);
    let above = sums.high - 1;
    above.max(-1 - sums.low)
}

/// The greater excess of a pad's node over the pad's voltage.
fn pad_excess(volts: i128, high: i128, low: i128) -> i128
    requires volts { IsInLimit greatest_voltage volts }
    requires high { IsInLimit value_limit high }
    requires low { IsInLimit value_limit low }
    ensures { result ≡ int_max (high -ℤ volts) (volts -ℤ low) }
{
    let above = high - volts;
    above.max(volts - low)
}

/// The greatest excess of a node of a tight certificate: 64 for the node and for each resistor that stands there.
fn excess_limit(net: &Net, node: u32) -> i128
    requires built { IsBuilt net.now }
    requires node_in { node < net.now.nodes }
    ensures { result ≡ greatest_excess net.now node None }
{
    MOST_EXCESS * (net.around(node).len() as i128 + 1)
}

/// A node and its excess, where it is too great.
fn unless_at_most(node: u32, excess: i128, most: i128) -> Option<(u32, i128)>
    ensures { result ≡ (if int_le excess most then None else Some (node, excess)) }
{
    if excess <= most {
        None
    } else {
        Some((node, excess))
    }
}

/// The test of the tightness of a node.
fn loose_node(net: &Net, high: &[i128], low: &[i128], node: u32) -> Option<(u32, i128)>
    requires built { IsBuilt net.now }
    requires node_in { node < net.now.nodes }
    requires high_size { length high.now ≡ net.now.nodes }
    requires low_size { length low.now ≡ net.now.nodes }
    requires high_values { All (IsInLimit value_limit) high.now }
    requires low_values { All (IsInLimit value_limit) low.now }
    requires high_flows { FlowsWithin floor_div net.now flow_limit (entry_of high.now) }
    requires low_flows { FlowsWithin ceil_div net.now flow_limit (entry_of low.now) }
    ensures { result ≡ loose_test net.now (entry_of high.now) (entry_of low.now) node }
{
    match net.pad(node) {
        Some(volts) => unless_at_most(
            node,
            pad_excess(volts, high[node as usize], low[node as usize]),
            0,
        ),
        None => unless_at_most(
            node,
            free_excess(net, high, low, node),
            excess_limit(net, node),
        ),
    }
}

/// The first node that misses the tightness, with its excess, over all nodes.
fn first_loose_node(net: &Net, high: &[i128], low: &[i128]) -> Option<(u32, i128)>
    requires built { IsBuilt net.now }
    requires high_size { length high.now ≡ net.now.nodes }
    requires low_size { length low.now ≡ net.now.nodes }
    requires high_values { All (IsInLimit value_limit) high.now }
    requires low_values { All (IsInLimit value_limit) low.now }
    requires high_flows { FlowsWithin floor_div net.now flow_limit (entry_of high.now) }
    requires low_flows { FlowsWithin ceil_div net.now flow_limit (entry_of low.now) }
    ensures { result ≡ first_loose net.now high.now low.now }
{
    for node in 0..net.nodes() {
        let loose = loose_node(net, high, low, node);
        if loose.is_some() {
            return loose;
        }
    }
    None
}

/// Whether a certificate is tight: at pads both lists are the pad's voltage, and at other nodes no sum passes what the
/// test asks by more than 64 femtoamperes for the node and for each resistor that stands there.
///
/// If not, the first node that misses it is named with the greater of its two excesses: at a pad of how far the high
/// entry is above the pad's voltage and the low entry below it, in yoctovolts; elsewhere of how far the sums pass what
/// is asked, in femtoamperes. It takes no memory.
pub fn is_tight(net: &Net, high: &[i128], low: &[i128]) -> Result<(), (u32, i128)>
    requires high_size { length high.now ≡ net.now.nodes }
    requires low_size { length low.now ≡ net.now.nodes }
    requires certificate { IsCertificate net.now high.now low.now }
    ensures ok { IsOk result ↔ IsTight net.now high.now low.now }
    ensures first { IfErr result (λ loose. first_loose net.now high.now low.now ≡ Some loose) }
{
    let _nodes = net.nodes();
    match first_loose_node(net, high, low) {
        None => Ok(()),
        Some(loose) => Err(loose),
    }
}
