ghost use Rattle.std.specs.Prelude.{◌≡◌, ◌≤◌, ◌<◌, ◌*◌, ◌^◌, ◌-ℤ◌, ◌+ℤ◌, ◌≤ℤ◌, pos, neg_ℤ, length, All, slice_index_or};
ghost use Rattle.grid_net.specs.Network.{IsResistorOf, entry_of, other_end, outflow, places_at, low_load};
ghost use Rattle.grid_net.specs.inside.Flows.{flow_over};
ghost use Rattle.grid_net.specs.Limits.{IsBuilt, IsInLimit, most_resistors};
ghost use Rattle.grid_net.specs.Certificate.{value_limit, flow_limit};
ghost use Rattle.bound_make.specs.inside.Half.{seen};
ghost use Rattle.bound_make.specs.inside.Moving.{held_rule, held_sum};
ghost use Rattle.grid_net.specs.inside.Flows.{no_resistor};

use crate::half::{Half, least_load};
use grid_net::{GREATEST_FLOW, Net, Resistor};
use rounding::div_floor;

/// The flow through a resistance under a difference of potential, rounded down and held.
pub(crate) fn held_flow(difference: i128, ohms: i128) -> i128
    requires resists { pos 1 ≤ℤ ohms }
    ensures value { result ≡ held_rule difference ohms }
    ensures within { IsInLimit flow_limit result }
{
    div_floor(difference, ohms).clamp(-GREATEST_FLOW, GREATEST_FLOW)
}

/// How far a node is above the other end of the resistor at a place.
pub(crate) fn difference_at(resistors: &[Resistor], x: &[i128], node: u32, place: u32) -> i128
    requires place_in { place < length resistors.now }
    requires node_in { node < length x.now }
    requires ends { All (IsResistorOf (length x.now)) resistors.now }
    requires values { All (IsInLimit value_limit) x.now }
    ensures value { result ≡ entry_of x.now node -ℤ entry_of x.now
        (other_end (slice_index_or resistors.now place no_resistor) node) }
    ensures within { IsInLimit (2 * value_limit) result }
{
    let other = resistors[place as usize].end_across(node);
    x[node as usize] - x[other as usize]
}

/// The held flow that leaves a node over the resistor at a place.
fn flow_at(resistors: &[Resistor], x: &[i128], node: u32, place: u32) -> i128
    requires place_in { place < length resistors.now }
    requires node_in { node < length x.now }
    requires ends { All (IsResistorOf (length x.now)) resistors.now }
    requires values { All (IsInLimit value_limit) x.now }
    ensures value { result ≡ flow_over held_rule resistors.now (entry_of x.now) node no_resistor place }
    ensures within { IsInLimit flow_limit result }
{
    let difference = difference_at(resistors, x, node, place);
    held_flow(difference, resistors[place as usize].ohms)
}

/// The sum of the held flows that leave a node.
fn held_outflow(resistors: &[Resistor], around: &[u32], x: &[i128], node: u32) -> i128
    requires around_is { around.now ≡ places_at resistors.now node }
    requires few { length resistors.now ≤ most_resistors }
    requires node_in { node < length x.now }
    requires ends { All (IsResistorOf (length x.now)) resistors.now }
    requires values { All (IsInLimit value_limit) x.now }
    ensures value { result ≡ outflow held_rule resistors.now (entry_of x.now) node }
    ensures within { IsInLimit (4 * 10 ^ 37) result }
{
    let mut sum: i128 = 0;
    for place in around {
        let flow = flow_at(resistors, x, node, *place);
        sum += flow;
    }
    sum
}

/// The sum of a node by held flows, as the half sees the network.
pub(crate) fn node_sum(net: &Net, half: Half, x: &[i128], node: u32) -> i128
    requires built { IsBuilt net.now }
    requires node_in { node < net.now.nodes }
    requires size { length x.now ≡ net.now.nodes }
    requires values { All (IsInLimit value_limit) x.now }
    ensures value { result ≡ held_sum (seen half net.now) x.now node }
    ensures within { IsInLimit (5 * 10 ^ 37) result }
{
    let resistors = net.resistors();
    let around = net.around(node);
    let outflow = held_outflow(resistors, around, x, node);
    let load = least_load(net, half, node);
    outflow + load
}
