ghost use Rattle.std.specs.Prelude.{◌≡◌};
ghost use Rattle.grid_net.specs.Certificate.{value_limit, flow_limit};
ghost use Rattle.bound_check.specs.Failing.{unless, in_limit};

use grid_net::{GREATEST_FLOW, GREATEST_VALUE};

/// Which test of a certificate fails: a value, a flow or a sum, of the high list or of the low one.
#[derive(Clone, Copy, Debug, PartialEq, Eq)]
pub enum Side {
    HighValue,
    LowValue,
    HighFlow,
    LowFlow,
    High,
    Low,
}

/// What a refusal names: the node, the test that fails there, and the number that was found.
#[derive(Clone, Copy, Debug, PartialEq, Eq)]
pub struct Fails {
    pub node: u32,
    pub side: Side,
    pub found: i128,
}

/// One test: what a refusal names, unless the test passes.
pub fn unless_passes(passes: bool, node: u32, side: Side, found: i128) -> Option<Fails>
    ensures { result ≡ unless passes node side found }
{
    if passes {
        None
    } else {
        Some(Fails { node, side, found })
    }
}

/// A value lies within its limit.
pub fn value_fits(value: i128) -> bool
    ensures { result ≡ in_limit value_limit value }
{
    -GREATEST_VALUE <= value && value <= GREATEST_VALUE
}

/// A flow lies within its limit.
pub fn flow_fits(flow: i128) -> bool
    ensures { result ≡ in_limit flow_limit flow }
{
    -GREATEST_FLOW <= flow && flow <= GREATEST_FLOW
}
