ghost use Rattle.std.specs.Prelude.{◌≡◌, ◌<◌, ◌≤◌, ℕ, true, false, length};
ghost use Rattle.grid_net.specs.Limits.{IsBuilt};
ghost use Rattle.bound_make.specs.inside.Half.{seen};
ghost use Rattle.bound_make.specs.inside.Moving.{IsFull, IsTrim, IsRaising, IsRaisable, IsLowering, IsLowerable, rise_room, fall_room};

use crate::flow::node_sum;
use crate::half::Half;
use crate::step::{fall_step, rise_step};
use crate::work_list::WorkList;
use grid_net::{MOST_EXCESS, Net};

/// Raises a node whose sum is below 1, as far as its sum asks for at once, and tells whether it was raised.
fn raise(net: &Net, half: Half, x: &mut [i128], node: u32) -> bool
    requires built { IsBuilt net.now }
    requires node_in { node < net.now.nodes }
    requires raisable { IsRaisable (seen half net.now) x.old }
    ensures kept { IsRaising (seen half net.now) x.old x.new }
    ensures full { result ≡ false → (x.new ≡ x.old) × IsFull (seen half net.now) x.new node }
    ensures rose { result ≡ true → rise_room x.new < rise_room x.old }
{
    if net.pad(node).is_some() {
        return false;
    }
    let sum = node_sum(net, half, x, node);
    if 1 <= sum {
        return false;
    }
    x[node as usize] += rise_step(net, x, node, 1 - sum);
    true
}

/// Lowers a node whose sum passes 1 by too much, as far as its sum allows at once, and tells whether it was lowered.
fn lower(net: &Net, half: Half, x: &mut [i128], node: u32) -> bool
    requires built { IsBuilt net.now }
    requires node_in { node < net.now.nodes }
    requires lowerable { IsLowerable (seen half net.now) x.old }
    ensures kept { IsLowering (seen half net.now) x.old x.new }
    ensures trim { result ≡ false → (x.new ≡ x.old) × IsTrim (seen half net.now) x.new node }
    ensures fell { result ≡ true → fall_room x.new < fall_room x.old }
{
    if net.pad(node).is_some() {
        return false;
    }
    let spare = node_sum(net, half, x, node) - 1;
    let most = MOST_EXCESS * (net.around(node).len() as i128 + 1);
    if spare <= most {
        return false;
    }
    x[node as usize] -= fall_step(net, x, node, spare);
    true
}

/// One sweep over all nodes that raises each whose sum is below 1, lists it and the nodes around it, and tells whether
/// there was one.
fn raise_all(net: &Net, half: Half, x: &mut [i128], list: &mut WorkList) -> bool
    requires built { IsBuilt net.now }
    requires raisable { IsRaisable (seen half net.now) x.old }
    ensures kept { IsRaising (seen half net.now) x.old x.new }
    ensures full { result ≡ false → (i : ℕ) → i < net.now.nodes → IsFull (seen half net.now) x.new i }
    ensures rose { result ≡ true → rise_room x.new < rise_room x.old }
{
    let mut rose = false;
    for node in 0..net.nodes() {
        if raise(net, half, x, node) {
            list.push_around(net, node);
            rose = true;
        }
    }
    rose
}

/// One sweep over all nodes that lowers each whose sum passes 1 by too much, lists it and the nodes around it, and
/// tells whether there was one.
fn lower_all(net: &Net, half: Half, x: &mut [i128], list: &mut WorkList) -> bool
    requires built { IsBuilt net.now }
    requires lowerable { IsLowerable (seen half net.now) x.old }
    ensures kept { IsLowering (seen half net.now) x.old x.new }
    ensures trim { result ≡ false → (i : ℕ) → i < net.now.nodes → IsTrim (seen half net.now) x.new i }
    ensures fell { result ≡ true → fall_room x.new < fall_room x.old }
{
    let mut fell = false;
    for node in 0..net.nodes() {
        if lower(net, half, x, node) {
            list.push_around(net, node);
            fell = true;
        }
    }
    fell
}

/// Raises the listed nodes whose sums are below 1, each with the nodes around it listed again, until none is listed.
fn raise_listed(net: &Net, half: Half, x: &mut [i128], list: &mut WorkList)
    requires built { IsBuilt net.now }
    requires raisable { IsRaisable (seen half net.now) x.old }
    ensures kept { IsRaising (seen half net.now) x.old x.new }
    ensures room { rise_room x.new ≤ rise_room x.old }
{
    while let Some(node) = list.pop() {
        if node < net.nodes() && raise(net, half, x, node) {
            list.push_around(net, node);
        }
    }
}

/// Lowers the listed nodes whose sums pass 1 by too much, each with the nodes around it listed again, until none is
/// listed.
fn lower_listed(net: &Net, half: Half, x: &mut [i128], list: &mut WorkList)
    requires built { IsBuilt net.now }
    requires lowerable { IsLowerable (seen half net.now) x.old }
    ensures kept { IsLowering (seen half net.now) x.old x.new }
    ensures room { fall_room x.new ≤ fall_room x.old }
{
    while let Some(node) = list.pop() {
        if node < net.nodes() && lower(net, half, x, node) {
            list.push_around(net, node);
        }
    }
}

/// Whether a node is a pad, or its sum is at least 1 and does not pass it by too much.
fn stands_at(net: &Net, half: Half, x: &[i128], node: u32) -> bool
    requires built { IsBuilt net.now }
    requires node_in { node < net.now.nodes }
    requires raisable { IsRaisable (seen half net.now) x.now }
    ensures full { result ≡ true → IsFull (seen half net.now) x.now node }
    ensures trim { result ≡ true → IsTrim (seen half net.now) x.now node }
{
    if net.pad(node).is_some() {
        return true;
    }
    let spare = node_sum(net, half, x, node) - 1;
    let most = MOST_EXCESS * (net.around(node).len() as i128 + 1);
    if spare < 0 {
        return false;
    }
    if most < spare {
        return false;
    }
    true
}

/// Whether no node is to be moved, either way. It looks no further than the first one that is.
fn stands(net: &Net, half: Half, x: &[i128]) -> bool
    requires built { IsBuilt net.now }
    requires raisable { IsRaisable (seen half net.now) x.now }
    ensures full { result ≡ true → (i : ℕ) → i < net.now.nodes → IsFull (seen half net.now) x.now i }
    ensures trim { result ≡ true → (i : ℕ) → i < net.now.nodes → IsTrim (seen half net.now) x.now i }
{
    for node in 0..net.nodes() {
        if !stands_at(net, half, x, node) {
            return false;
        }
    }
    true
}

/// Raises nodes until each sum is at least 1, and counts the sweeps in which one rose. Tells besides whether it is known
/// that no sum passes 1 by too much.
pub(crate) fn raise_until_full(
    net: &Net,
    half: Half,
    x: &mut [i128],
    list: &mut WorkList,
) -> (u64, bool)
    requires built { IsBuilt net.now }
    requires raisable { IsRaisable (seen half net.now) x.old }
    ensures kept { IsRaising (seen half net.now) x.old x.new }
    ensures full { (i : ℕ) → i < net.now.nodes → IsFull (seen half net.now) x.new i }
    ensures trim { result.1 ≡ true → (i : ℕ) → i < net.now.nodes → IsTrim (seen half net.now) x.new i }
{
    if stands(net, half, x) {
        return (0, true);
    }
    let mut sweeps: u64 = 0;
    while raise_all(net, half, x, list) {
        raise_listed(net, half, x, list);
        sweeps = sweeps.saturating_add(1);
    }
    (sweeps, false)
}

/// Lowers nodes until no sum passes 1 by too much, and counts the sweeps in which one fell. Where that is known already,
/// no sum is looked at.
pub(crate) fn lower_until_trim(
    net: &Net,
    half: Half,
    x: &mut [i128],
    is_trim: bool,
    list: &mut WorkList,
) -> u64
    requires built { IsBuilt net.now }
    requires lowerable { IsLowerable (seen half net.now) x.old }
    requires trim { is_trim ≡ true → (i : ℕ) → i < net.now.nodes → IsTrim (seen half net.now) x.old i }
    ensures kept { IsLowering (seen half net.now) x.old x.new }
    ensures trim { (i : ℕ) → i < net.now.nodes → IsTrim (seen half net.now) x.new i }
{
    if is_trim {
        return 0;
    }
    let mut sweeps: u64 = 0;
    while lower_all(net, half, x, list) {
        lower_listed(net, half, x, list);
        sweeps = sweeps.saturating_add(1);
    }
    sweeps
}
