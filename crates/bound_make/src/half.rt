ghost use Rattle.std.specs.Prelude.{◌≡◌, ◌<◌, ◌^◌, ◌≤ℤ◌, ◌*◌, ℤ, pos, neg_ℤ, Some, None};
ghost use Rattle.grid_net.specs.Network.{low_load, pad_at};
ghost use Rattle.grid_net.specs.Limits.{IsInLimit};
ghost use Rattle.bound_make.specs.inside.Half.{seen, seen_volts};

use grid_net::Net;

/// Which of the two lists is made. The low list is made as the high list of the network in which every voltage and
/// every load is turned in sign.
#[derive(Clone, Copy, Debug, PartialEq, Eq)]
pub enum Half {
    High,
    Low,
}

/// A voltage as the half sees it.
pub(crate) fn seen_from(half: Half, volts: i128) -> i128
    requires { neg_ℤ (pos (2 * 10 ^ 37)) ≤ℤ volts }
    ensures { result ≡ seen_volts half volts }
{
    match half {
        Half::High => volts,
        Half::Low => -volts,
    }
}

/// The least current that is drawn out of a node, as the half sees the network.
pub(crate) fn least_load(net: &Net, half: Half, node: u32) -> i128
    requires { node < net.now.nodes }
    ensures value { result ≡ low_load (seen half net.now) node }
    ensures within { IsInLimit (2 ^ 63) result }
{
    let (low, high) = net.load(node);
    match half {
        Half::High => low as i128,
        Half::Low => -(high as i128),
    }
}
