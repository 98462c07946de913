ghost use Rattle.std.specs.Prelude.{◌≡◌, ◌<◌, ℕ, None, length};

use grid_net::{Net, Resistor, Solver};
use level_region::Region;
use std::marker::Model;

/// How often `Plain` sweeps over the nodes.
const SWEEPS: u32 = 200;

/// The conductance of 1 nano-ohm, in the unit in which `Plain` adds up conductances.
const CONDUCTANCE: i128 = 1_000_000_000_000_000;

/// A solver that starts with the pads' voltages and sweeps over the nodes a fixed number of times. Each node that is no
/// pad is brought to the voltage at which the currents at it add up, in the order of the nodes' numbers: the high list
/// for the low ends of the loads, and the low list for the high ends. It uses no cell of the region.
///
/// Contracts see how many proposals it was asked for.
#[derive(Drop)]
pub struct Plain {
    proposals: u64,
}

impl Model for Plain {
    ghost use Rattle.std.specs.Prelude.{ℕ};

    ghost Value = { ℕ };

    ghost view = { λ solver. solver.proposals };
}

/// Which end of the loads is drawn.
#[derive(Clone, Copy)]
enum End {
    Low,
    High,
}

/// The current that is drawn out of a node.
fn drawn(net: &Net, node: u32, end: End) -> i128
    requires { node < net.now.nodes }
{
    let (low, high) = net.load(node);
    match end {
        End::Low => low as i128,
        End::High => high as i128,
    }
}

/// The currents that leave a node, and the sum of the conductances at it.
fn flows_at(
    resistors: &[Resistor],
    around: &[u32],
    x: &[i128],
    node: u32,
    here: i128,
) -> (i128, i128) {
    let mut outflow: i128 = 0;
    let mut conductance: i128 = 0;
    for place in around {
        if let Some(r) = resistors.get(*place as usize) {
            let there = x.get(r.end_across(node) as usize).copied().unwrap_or(here);
            let flow = here.saturating_sub(there).checked_div(r.ohms);
            outflow = outflow.saturating_add(flow.unwrap_or(0));
            conductance = conductance.saturating_add(CONDUCTANCE.checked_div(r.ohms).unwrap_or(0));
        }
    }
    (outflow, conductance)
}

/// The voltage of a node at which the currents at it add up, the others being as they are.
fn settled(net: &Net, x: &[i128], node: u32, end: End) -> i128
    requires node_in { node < net.now.nodes }
    requires size { length x.now ≡ net.now.nodes }
{
    let here = x[node as usize];
    let (outflow, conductance) = flows_at(net.resistors(), net.around(node), x, node, here);
    let spare = outflow.saturating_add(drawn(net, node, end));
    let scaled = spare
        .saturating_mul(CONDUCTANCE / 1_000_000)
        .checked_div(conductance / 1_000_000);
    here.saturating_sub(scaled.unwrap_or(0))
}

/// One sweep over the nodes.
fn sweep(net: &Net, x: &mut [i128], end: End)
    requires { length x.old ≡ net.now.nodes }
{
    for node in 0..net.nodes() {
        x[node as usize] = match net.pad(node) {
            Some(volts) => volts,
            None => settled(net, x, node, end),
        };
    }
}

/// Makes one list.
fn solve(net: &Net, x: &mut [i128], end: End)
    requires { length x.old ≡ net.now.nodes }
{
    x.fill(net.pads().first().map_or(0, |pad| pad.volts));
    for _ in 0..SWEEPS {
        sweep(net, x, end);
    }
}

impl Plain {
    /// A solver that sweeps. It takes no memory.
    pub fn new() -> Plain
        ensures { result ≡ 0 }
    {
        Plain { proposals: 0 }
    }
}

impl Solver for Plain {
    ghost told = { λ _. None };

    ghost proposals = { λ solver. solver };

    fn propose(&mut self, net: &Net, _work: &mut Region, x: &mut [i128], w: &mut [i128]) {
        self.proposals = self.proposals.saturating_add(1);
        solve(net, x, End::Low);
        solve(net, w, End::High);
    }
}
