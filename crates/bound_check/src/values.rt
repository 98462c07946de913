ghost use Rattle.std.specs.Prelude.{◌≡◌, ◌≤◌, ◌*◌, ◌^◌, length};
ghost use Rattle.grid_net.specs.Network.{entry_of};
ghost use Rattle.grid_net.specs.Search.{first_below};
ghost use Rattle.bound_check.specs.Failing.{value_test};

use crate::fails::{Fails, Side, unless_passes, value_fits};

/// The test of the values of a node, high before low.
fn value_failure(node: u32, high: i128, low: i128) -> Option<Fails>
    ensures { result ≡ value_test (λ _. high) (λ _. low) node }
{
    let first = unless_passes(value_fits(high), node, Side::HighValue, high);
    first.or(unless_passes(value_fits(low), node, Side::LowValue, low))
}

/// The first round of the test: the first value out of its limit, over all nodes.
pub fn values_failure(high: &[i128], low: &[i128]) -> Option<Fails>
    requires few { length high.now ≤ 2 * 10 ^ 6 }
    requires same { length low.now ≡ length high.now }
    ensures { result ≡ first_below (length high.now) (value_test (entry_of high.now) (entry_of low.now)) }
{
    let mut node: u32 = 0;
    for value in high {
        let failure = value_failure(node, *value, low[node as usize]);
        if failure.is_some() {
            return failure;
        }
        node += 1;
    }
    None
}
