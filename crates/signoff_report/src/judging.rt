//! What the printed intervals say of the limits.
ghost use Rattle.std.specs.Prelude.{◌≡◌, ◌<◌, ◌^◌, ◌-ℤ◌, ◌*ℤ◌, pos, length, Some, None, unsigned_abs, slice_index_or};
ghost use Rattle.grid_net.specs.Network.{IsResistorOf};
ghost use Rattle.grid_net.specs.Limits.{IsInLimit, greatest_voltage};
ghost use Rattle.bound_check.specs.Certified.{nanovolt, nanoampere};
ghost use Rattle.em_rules.specs.Verdict.{verdict_by_ends};
ghost use Rattle.signoff_report.specs.Limits.{AreLimitsOf, net_at, branch_at, resistor_at};
ghost use Rattle.signoff_report.specs.Shown.{shown_voltage, shown_current};
ghost use Rattle.signoff_report.specs.Judged.{branch_verdict, node_verdict, drop_verdict, net_verdict};
ghost use Rattle.signoff_report.specs.inside.Intervals.{IsShort, longest_current, longest_voltage};

use crate::records::Limits;
use bound_check::{Certified, NANOAMPERE, NANOVOLT};
use em_rules::{Verdict, verdict};
use grid_net::Resistor;

/// What the printed interval of a branch's current says of the branch's limit. It takes no memory.
pub fn branch_verdict(certified: &Certified, limits: &Limits, branch: u32) -> Verdict
    requires limits { AreLimitsOf certified.now.net limits.now }
    requires branch { branch < length certified.now.net.resistors }
    ensures { result ≡ branch_verdict certified.now (branch_at certified.now limits.now branch) }
{
    current_verdict(current_shown(certified, branch), limit_at(limits, branch))
}

/// What the printed intervals of a net's voltages say of the limit of its drop: `Safe` where each of them keeps it,
/// `Unsafe` where one of them has no voltage that keeps it. It takes no memory.
pub fn net_verdict(certified: &Certified, limits: &Limits, net: u32) -> Verdict
    requires limits { AreLimitsOf certified.now.net limits.now }
    requires net { net < length limits.now.nets }
    ensures { result ≡ net_verdict certified.now limits.now net (net_at limits.now net) }
{
    let of_net = &limits.nets.as_slice()[net as usize];
    match of_net.drop {
        None => Verdict::NoLimit,
        Some(drop) => drop_verdict(certified, limits, net, of_net.supply, drop),
    }
}

// What the printed intervals of a net's voltages say of a limit of drops around a supply.
fn drop_verdict(
    certified: &Certified,
    limits: &Limits,
    net: u32,
    supply: i128,
    drop: i128,
) -> Verdict
    requires net_of { length limits.now.net_of ≡ certified.now.net.nodes }
    requires supply { IsInLimit greatest_voltage supply }
    ensures { result ≡ drop_verdict certified.now limits.now net supply drop }
{
    let net_of = limits.net_of.as_slice();
    let mut each_keeps = true;
    for node in 0..certified.net().nodes() {
        if net_of[node as usize] == net {
            match node_verdict(certified, node, supply, drop) {
                Verdict::Unsafe => return Verdict::Unsafe,
                Verdict::Safe => {}
                _ => each_keeps = false,
            }
        }
    }
    if each_keeps {
        Verdict::Safe
    } else {
        Verdict::Undecided
    }
}

// What the printed interval of a node's voltage says of a limit of drops around a supply.
fn node_verdict(certified: &Certified, node: u32, supply: i128, drop: i128) -> Verdict
    requires node { node < certified.now.net.nodes }
    requires supply { IsInLimit greatest_voltage supply }
    ensures { result ≡ node_verdict certified.now node supply drop }
{
    voltage_verdict(voltage_shown(certified, node), supply, drop)
}

// What an interval of voltages in nanovolts says of a limit of drops around a supply.
fn voltage_verdict(shown: (i128, i128), supply: i128, drop: i128) -> Verdict
    requires shown { IsShort longest_voltage shown }
    requires supply { IsInLimit greatest_voltage supply }
    ensures { result ≡ verdict_by_ends ((shown.0 *ℤ pos nanovolt) -ℤ supply) ((shown.1 *ℤ pos nanovolt) -ℤ supply)
        (Some (unsigned_abs drop)) }
{
    verdict(
        shown.0 * NANOVOLT - supply,
        shown.1 * NANOVOLT - supply,
        Some(drop.unsigned_abs()),
    )
}

// What an interval of currents in nanoamperes says of a limit in femtoamperes.
pub(crate) fn current_verdict(shown: (i128, i128), limit: Option<u128>) -> Verdict
    requires { IsShort longest_current shown }
    ensures { result ≡ verdict_by_ends (shown.0 *ℤ pos nanoampere) (shown.1 *ℤ pos nanoampere) limit }
{
    verdict(shown.0 * NANOAMPERE, shown.1 * NANOAMPERE, limit)
}

// The printed interval of a node's voltage, in nanovolts.
pub(crate) fn voltage_shown(certified: &Certified, node: u32) -> (i128, i128)
    requires { node < certified.now.net.nodes }
    ensures shown { result ≡ shown_voltage certified.now node }
    ensures short { IsShort longest_voltage result }
{
    let _high = certified.high();
    certified.voltage(node)
}

// The printed interval of a branch's current, in nanoamperes.
pub(crate) fn current_shown(certified: &Certified, branch: u32) -> (i128, i128)
    requires { branch < length certified.now.net.resistors }
    ensures shown { result ≡ shown_current certified.now (resistor_at certified.now.net branch) }
    ensures short { IsShort longest_current result }
{
    let _nodes = certified.net().nodes();
    let _high = certified.high();
    certified.current(branch)
}

// The limit of a branch.
pub(crate) fn limit_at(limits: &Limits, branch: u32) -> Option<u128>
    requires { branch < length limits.now.branches }
    ensures { result ≡ slice_index_or limits.now.branches branch None }
{
    limits.branches.as_slice()[branch as usize]
}

// The resistor of a branch.
pub(crate) fn resistor_at(certified: &Certified, branch: u32) -> Resistor
    requires { branch < length certified.now.net.resistors }
    ensures is { result ≡ resistor_at certified.now.net branch }
    ensures ends { IsResistorOf certified.now.net.nodes result }
{
    let net = certified.net();
    let _nodes = net.nodes();
    net.resistors()[branch as usize]
}

// The number of branches.
pub(crate) fn branch_count(certified: &Certified) -> u32
    ensures { result ≡ length certified.now.net.resistors }
{
    let net = certified.net();
    let _nodes = net.nodes();
    net.resistors().len() as u32
}

// The number of nets.
pub(crate) fn net_count(limits: &Limits) -> u32
    requires { length limits.now.nets < 2 ^ 32 }
    ensures { result ≡ length limits.now.nets }
{
    limits.nets.as_slice().len() as u32
}
