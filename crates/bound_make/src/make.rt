ghost use Rattle.std.specs.Prelude.{◌≡◌, ◌<◌, ◌≤ℤ◌, ◌*◌, ◌^◌, ℕ, ℤ, pos, length, None, unsigned_abs};
ghost use Rattle.grid_net.specs.Network.{entry_of, pad_at};
ghost use Rattle.grid_net.specs.Limits.{IsBuilt, IsInLimit};
ghost use Rattle.grid_net.specs.Certificate.{value_limit};
ghost use Rattle.bound_make.specs.inside.Half.{seen_volts};
ghost use Rattle.bound_make.specs.inside.Made.{IsRangeOf, IsMade, HasRoom};
ghost use Rattle.bound_make.specs.Certifier.{start_value, start_list};

use crate::half::{Half, seen_from};
use crate::phase::{lower_until_trim, raise_until_full};
use crate::scale::Scale;
use crate::work_list::WorkList;
use grid_net::Net;

/// A proposal brought to the nearest number in the range of the starts.
fn brought(scale: Scale, proposed: i128) -> i128
    requires { HasRoom scale.bottom scale.top scale.width }
    ensures value { result ≡ start_value scale.bottom scale.top (unsigned_abs scale.width) proposed None }
    ensures within { IsInLimit value_limit result }
{
    let least = scale.bottom - scale.width;
    let most = scale.top + scale.width;
    proposed.clamp(least, most)
}

/// The entry of a start, as the half sees it: the pad's voltage at a pad, and else the proposal, brought into the
/// range.
fn start_at(net: &Net, half: Half, scale: Scale, proposed: i128, node: u32) -> i128
    requires built { IsBuilt net.now }
    requires node_in { node < net.now.nodes }
    requires room { HasRoom scale.bottom scale.top scale.width }
    ensures { result ≡ seen_volts half (start_value scale.bottom scale.top (unsigned_abs scale.width) proposed
        (pad_at net.now node)) }
{
    match net.pad(node) {
        Some(volts) => seen_from(half, volts),
        None => seen_from(half, brought(scale, proposed)),
    }
}

/// Makes the start of a list out of its proposal, as the half sees it.
fn make_start(net: &Net, half: Half, scale: Scale, x: &mut [i128])
    requires built { IsBuilt net.now }
    requires size { length x.old ≡ net.now.nodes }
    requires room { HasRoom scale.bottom scale.top scale.width }
    ensures size { length x.new ≡ net.now.nodes }
    ensures each { (i : ℕ) → i < net.now.nodes
        → entry_of x.new i ≡ seen_volts half (start_value scale.bottom scale.top (unsigned_abs scale.width)
        (entry_of x.old i) (pad_at net.now i)) }
{
    let mut node: u32 = 0;
    for entry in x.iter_mut() {
        *entry = start_at(net, half, scale, *entry, node);
        node += 1;
    }
}

/// Turns a list that was made as the half sees it.
fn turn_back(half: Half, x: &mut [i128])
    requires values { (i : ℕ) → i < length x.old → IsInLimit value_limit (entry_of x.old i) }
    ensures size { length x.new ≡ length x.old }
    ensures each { (i : ℕ) → i < length x.old → entry_of x.new i ≡ seen_volts half (entry_of x.old i) }
{
    for entry in x.iter_mut() {
        *entry = seen_from(half, *entry);
    }
}

/// Makes a list of a certificate out of its proposal, and counts the sweeps.
pub(crate) fn make(net: &Net, half: Half, scale: Scale, x: &mut [i128], list: &mut WorkList) -> u64
    requires built { IsBuilt net.now }
    requires size { length x.old ≡ net.now.nodes }
    requires room { HasRoom scale.bottom scale.top scale.width }
    requires range { IsRangeOf net.now scale.bottom scale.top (unsigned_abs scale.width) }
    ensures size { length x.new ≡ net.now.nodes }
    ensures made { IsMade half net.now scale.bottom scale.top (unsigned_abs scale.width) x.old x.new }
{
    make_start(net, half, scale, x);
    let rises = raise_until_full(net, half, x, list);
    let falls = lower_until_trim(net, half, x, rises.1, list);
    turn_back(half, x);
    rises.0.saturating_add(falls)
}
