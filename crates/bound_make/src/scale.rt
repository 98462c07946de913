ghost use Rattle.std.specs.Prelude.{◌≡◌, ◌≤◌, ◌<◌, ◌*◌, ◌+◌, ◌^◌, ◌⊎◌, ◌-ℤ◌, ℕ, ℤ, pos, ◌≤ℤ◌, All, length, slice_index_or, unsigned_abs};
ghost use Rattle.grid_net.specs.Network.{over_nodes, load_size, degree};
ghost use Rattle.grid_net.specs.Limits.{IsBuilt, IsInLimit, greatest_voltage};
ghost use Rattle.bound_make.specs.Scale.{flow_reach};
ghost use Rattle.bound_make.specs.Scale.{Scale as RangeOf, IsGreatestLevel, IsScaleOf, IsGreatestOf, IsLeastVolts, IsGreatestVolts, scale_width};
ghost use Rattle.bound_make.specs.inside.Made.{IsRangeOf, HasRoom};

use grid_net::{Net, Pad, Resistor};

/// Within which numbers the lists of a network are made.
#[derive(Clone, Copy, Debug)]
pub struct Scale {
    /// The least pad voltage.
    pub bottom: i128,
    /// The greatest pad voltage.
    pub top: i128,
    /// How far a list may pass the pads: the greatest level, times the greatest resistance, times more than any flow.
    pub width: i128,
}

/// The greatest resistance, or 0 where there is no resistor.
fn greatest_ohms(resistors: &[Resistor]) -> i128
    requires { All (λ r. pos 1 ≤ℤ r.ohms) resistors.now }
    ensures { IsGreatestOf resistors.now result }
{
    let mut greatest = 0;
    for r in resistors {
        greatest = r.ohms.max(greatest);
    }
    greatest
}

/// The least pad voltage, or 0 where there is no pad.
fn least_volts(pads: &[Pad]) -> i128
    ensures { IsLeastVolts pads.now result }
{
    let mut least = match pads.first() {
        Some(pad) => pad.volts,
        None => 0,
    };
    for pad in pads {
        least = pad.volts.min(least);
    }
    least
}

/// The greatest pad voltage, or 0 where there is no pad.
fn greatest_volts(pads: &[Pad]) -> i128
    ensures { IsGreatestVolts pads.now result }
{
    let mut greatest = match pads.first() {
        Some(pad) => pad.volts,
        None => 0,
    };
    for pad in pads {
        greatest = pad.volts.max(greatest);
    }
    greatest
}

/// What a node adds to the reach: the greater magnitude of its load, and 130 for the node and for each resistor at it.
fn node_reach(net: &Net, node: u32) -> i128
    requires built { IsBuilt net.now }
    requires node_in { node < net.now.nodes }
    ensures value { result ≡ pos (load_size net.now node + 130 * (degree net.now.resistors node + 1)) }
    ensures within { result ≤ℤ pos (10 ^ 20) }
{
    let (low, high) = net.load(node);
    let size = low.unsigned_abs().max(high.unsigned_abs());
    size as i128 + 130 * (net.around(node).len() as i128 + 1)
}

/// More than any flow in a list that was raised as far as the test asks.
fn reach(net: &Net) -> i128
    requires built { IsBuilt net.now }
    ensures { result ≡ pos (flow_reach net.now) }
{
    let mut sum: i128 = 0;
    for node in 0..net.nodes() {
        sum += node_reach(net, node);
    }
    sum
}

/// The numbers within which the lists of a network are made, by its greatest level.
pub(crate) fn scale_of(net: &Net, level: u32) -> Scale
    requires { IsGreatestLevel net.now level }
    ensures room { HasRoom result.bottom result.top result.width }
    ensures exact { (s : RangeOf) × IsScaleOf net.now s × (s.bottom ≡ result.bottom) × (s.top ≡ result.top)
        × (scale_width net.now s ≡ unsigned_abs result.width)
        × IsRangeOf net.now s.bottom s.top (scale_width net.now s) }
{
    let _nodes = net.nodes();
    let pads = net.pads();
    let bottom = least_volts(pads);
    let top = greatest_volts(pads);
    let ohms = greatest_ohms(net.resistors());
    let reach = reach(net);
    Scale {
        bottom,
        top,
        width: level as i128 * (ohms * reach),
    }
}
