//! The capacitors that count.
ghost use Rattle.std.specs.Prelude.{◌≡◌, ◌≤◌, ◌<◌, ◌*◌, ◌^◌, pos, ◌+ℤ◌, ◌*ℤ◌, ◌≤ℤ◌, All, IfOk};
ghost use Rattle.std.specs.Int.{int_max};
ghost use Rattle.rounding.specs.Rounding.{floor_div};
ghost use Rattle.step_bounds.specs.Capacitors.{is_free as IsFree, is_held as IsHeld, free_end as end_without_pad, counts_at as node_that_counts, companion_ohms as ohms_over, companion_of as as_companion, companions as companions_of_caps};
ghost use Rattle.step_bounds.specs.inside.Extension.{AreCompanions};

use capacitors::{Cap, End};
use grid_net::Net;
use rounding::div_floor;
use std::alloc::{AllocError, Global};

/// A capacitor that counts, as it acts over a time step: a resistance, in nano-ohms, between its node and the voltage that
/// the node had before.
#[derive(Clone, Copy, Debug, PartialEq, Eq)]
pub struct Companion {
    pub node: u32,
    pub ohms: i128,
}

// 10^-18 seconds over 10^-24 farads, in nano-ohms.
const UNITS: i128 = 1_000_000_000_000_000;

/// Whether a number is a node without a pad.
pub(crate) fn is_free(net: &Net, node: u32) -> bool
    ensures { result ≡ IsFree net.now node }
{
    node < net.nodes() && net.pad(node).is_none()
}

// Whether an end is ground, or a node with a pad.
fn is_held(net: &Net, end: End) -> bool
    ensures { result ≡ IsHeld net.now end }
{
    match end {
        End::Node(node) => node < net.nodes() && net.pad(node).is_some(),
        End::Ground => true,
        End::Nowhere => false,
    }
}

// The node at one end, where it has no pad and the voltage of the other end is given.
fn free_end(net: &Net, end: End, other: End) -> Option<u32>
    ensures { result ≡ end_without_pad net.now end other }
{
    match end {
        End::Node(node) => if is_free(net, node) && is_held(net, other) {
            Some(node)
        } else {
            None
        },
        End::Ground | End::Nowhere => None,
    }
}

// The node at which a capacitor counts.
fn counts_at(net: &Net, cap: &Cap) -> Option<u32>
    ensures { result ≡ node_that_counts net.now cap.now }
{
    if 1 <= cap.farads {
        free_end(net, cap.a, cap.b).or(free_end(net, cap.b, cap.a))
    } else {
        None
    }
}

// Twice the time, in nano-ohms times 10^-24 farads.
fn twice_time(time: u128) -> i128
    requires { time ≤ 10 ^ 18 }
    ensures { result ≡ pos (2 * (time * 10 ^ 15)) }
{
    2 * (time as i128 * UNITS)
}

// Half of twice a time over a capacitance, rounded to the nearest number, and at least 1.
fn nearest_ohms(twice: i128, farads: i128) -> i128
    requires farads { pos 1 ≤ℤ farads }
    requires twice { farads ≤ℤ twice }
    requires small { twice ≤ℤ pos (10 ^ 36) }
    ensures { result ≡ int_max (pos 1) (floor_div (twice +ℤ farads) (pos 2 *ℤ farads)) }
{
    let nearest = div_floor(twice + farads, 2 * farads);
    nearest.max(1)
}

// The resistance of a capacitance over a time step.
fn companion_ohms(time: u128, farads: i128) -> i128
    requires time { time ≤ 10 ^ 18 }
    requires farads { pos 1 ≤ℤ farads }
    ensures { result ≡ ohms_over time farads }
{
    let twice = twice_time(time);
    if twice < farads {
        return 1;
    }
    nearest_ohms(twice, farads)
}

// A capacitor as it acts over a time step, if it counts.
fn companion_of(net: &Net, time: u128, cap: &Cap) -> Option<Companion>
    requires { time ≤ 10 ^ 18 }
    ensures { result ≡ as_companion net.now time cap.now }
{
    let node = counts_at(net, cap)?;
    Some(Companion {
        node,
        ohms: companion_ohms(time, cap.farads),
    })
}

/// The capacitors that count, in their order, as they act over a time step of 10^-18 seconds as a unit.
pub fn companions(
    alloc: Global,
    net: &Net,
    caps: &[Cap],
    time: u128,
) -> Result<Vec<Companion>, AllocError>
    requires { time ≤ 10 ^ 18 }
    ensures companions { IfOk result (λ v. v.items ≡ companions_of_caps net.now caps.now time) }
    ensures fit { IfOk result (λ v. AreCompanions net.now v.items) }
{
    let mut found = Vec::new(alloc);
    for cap in caps {
        if let Some(companion) = companion_of(net, time, cap) {
            found.push(companion)?;
        }
    }
    Ok(found)
}
