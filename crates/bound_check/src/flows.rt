ghost use Rattle.std.specs.Prelude.{◌≡◌, ◌^◌, ◌*◌, ◌-ℤ◌, ◌≤ℤ◌, pos, length, All};
ghost use Rattle.rounding.specs.Rounding.{floor_div, ceil_div};
ghost use Rattle.grid_net.specs.Network.{IsResistorOf, entry_of};
ghost use Rattle.grid_net.specs.Limits.{IsInLimit};
ghost use Rattle.grid_net.specs.Search.{first_of, or_else};
ghost use Rattle.grid_net.specs.Certificate.{value_limit, flow_limit};
ghost use Rattle.bound_check.specs.Failing.{flow_test, unless, in_limit};
ghost use Rattle.bound_check.specs.declared.fails.Side.TheVariants.{HighFlow, LowFlow};

use crate::fails::{Fails, Side, flow_fits, unless_passes};
use grid_net::Resistor;
use rounding::{div_ceil, div_floor};

/// The test of the flows of a resistor by its two differences, where a division has to decide it.
fn divided_failure(node: u32, high: i128, low: i128, ohms: i128) -> Option<Fails>
    requires { pos 1 ≤ℤ ohms }
    ensures { result ≡ or_else (unless (in_limit flow_limit (floor_div high ohms)) node HighFlow (floor_div high ohms))
        (unless (in_limit flow_limit (ceil_div low ohms)) node LowFlow (ceil_div low ohms)) }
{
    let high = div_floor(high, ohms);
    let low = div_ceil(low, ohms);
    let first = unless_passes(flow_fits(high), node, Side::HighFlow, high);
    first.or(unless_passes(flow_fits(low), node, Side::LowFlow, low))
}

/// The test of the flows of a resistor by its two differences. A difference that is itself within the limit of flows
/// has a flow within it, and takes no division.
fn difference_failure(node: u32, high: i128, low: i128, ohms: i128) -> Option<Fails>
    requires { pos 1 ≤ℤ ohms }
    ensures { result ≡ or_else (unless (in_limit flow_limit (floor_div high ohms)) node HighFlow (floor_div high ohms))
        (unless (in_limit flow_limit (ceil_div low ohms)) node LowFlow (ceil_div low ohms)) }
{
    if flow_fits(high) && flow_fits(low) {
        None
    } else {
        divided_failure(node, high, low, ohms)
    }
}

/// The test of the flows from end a of a resistor, high before low.
fn flow_failure(r: &Resistor, high: &[i128], low: &[i128]) -> Option<Fails>
    requires ends { IsResistorOf (length high.now) r.now }
    requires same { length low.now ≡ length high.now }
    requires high_values { All (IsInLimit value_limit) high.now }
    requires low_values { All (IsInLimit value_limit) low.now }
    ensures { result ≡ flow_test (entry_of high.now) (entry_of low.now) r.now }
{
    let high_difference = high[r.a as usize] - high[r.b as usize];
    let low_difference = low[r.a as usize] - low[r.b as usize];
    difference_failure(r.a, high_difference, low_difference, r.ohms)
}

/// The second round of the test: the first flow out of its limit, over all resistors.
pub fn flows_failure(resistors: &[Resistor], high: &[i128], low: &[i128]) -> Option<Fails>
    requires ends { All (IsResistorOf (length high.now)) resistors.now }
    requires same { length low.now ≡ length high.now }
    requires high_values { All (IsInLimit value_limit) high.now }
    requires low_values { All (IsInLimit value_limit) low.now }
    ensures { result ≡ first_of (flow_test (entry_of high.now) (entry_of low.now)) resistors.now }
{
    for r in resistors {
        let failure = flow_failure(r, high, low);
        if failure.is_some() {
            return failure;
        }
    }
    None
}
