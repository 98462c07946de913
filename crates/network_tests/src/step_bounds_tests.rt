ghost use Rattle.std.specs.Prelude.{◌≡◌, ◌≤◌, ◌<◌, ◌^◌, ◌≤ℤ◌};
ghost use Rattle.step_bounds.specs.Changes.{AreChanges};

use crate::same::same;
use capacitors::{Cap, End};
use grid_net::{Fixed, Load, Net, Pad, Quantity, Resistor};
use rounding::{div_ceil, div_floor};
use std::process::Abort;
use step_bounds::*;
use wave_file::Change;

/// A volt, in yoctovolts.
const VOLT: i128 = 1_000_000_000_000_000_000_000_000;

/// A nanovolt, in yoctovolts: the unit in which voltages are printed.
const NANO: i128 = 1_000_000_000_000_000;

/// A milliampere, in femtoamperes.
const MILLI: i64 = 1_000_000_000_000;

/// A nanofarad, in 10^-24 farads.
const NANOFARAD: i128 = 1_000_000_000_000_000;

/// A nanosecond, in 10^-18 seconds.
const NANOSECOND: u128 = 1_000_000_000;

/// A pad of 1 V at p, an ohm from p to n and from p to m, and a load of 1 mA at n. Nodes in the order of their names: m, n, p.
fn one_load(rt: &(impl AllocGlobal + Abort)) -> Net {
    let ohms = 1_000_000_000;
    let resistors = vec![in rt.alloc();
        Resistor { a: 2, b: 1, ohms },
        Resistor { a: 0, b: 2, ohms },
    ]
    .expect(rt, "two resistors");
    let pads = vec![in rt.alloc();
        Pad {
            node: 2,
            volts: VOLT
        },
    ]
    .expect(rt, "a pad");
    let loads = vec![in rt.alloc();
        Load {
            node: 1,
            low: MILLI,
            high: MILLI
        },
    ]
    .expect(rt, "a load");
    Net::build(rt.alloc(), 3, resistors, pads, loads).expect(rt, "a network")
}

/// A capacitor between two ends.
fn between(a: End, b: End, farads: i128) -> Cap {
    Cap { a, b, farads }
}

/// A capacitor from n to ground.
fn at_n(farads: i128) -> Cap {
    between(End::Node(1), End::Ground, farads)
}

/// Steps of a network, with a solver that tells no lists of its length, so that nothing is proposed.
fn step_net(
    rt: &(impl AllocGlobal + Abort),
    net: &Net,
    caps: &[Cap],
    changes: &[Change],
    time: u128,
    steps: u32,
) -> Result<Steps, StepError>
    requires time { (1 ≤ time) × (time ≤ 10 ^ 18) }
    requires steps { (1 ≤ steps) × (steps ≤ 1000) }
    requires changes { AreChanges net.now changes.now }
{
    match net.supply() {
        Ok(()) => {}
        Err(_) => panic!(rt; "a node that is not supplied"),
    }
    match first_floating(net, caps) {
        None => {}
        Some(_) => panic!(rt; "a capacitor that floats"),
    }
    let mut solver = Fixed::new(Vec::new(rt.alloc()), Vec::new(rt.alloc()));
    step_all(rt.alloc(), net, caps, changes, time, steps, &mut solver)
}

/// The same with one change, from a step on, to 2 mA at n.
fn with_change(
    rt: &(impl AllocGlobal + Abort),
    net: &Net,
    caps: &[Cap],
    step: u32,
    steps: u32,
) -> Result<Steps, StepError>
    requires { (1 ≤ steps) × (steps ≤ 1000) }
{
    let nodes = net.nodes();
    assert!(rt; 1 < nodes, "the node n");
    let changes = [Change {
        step,
        node: 1,
        low: 2 * MILLI,
        high: 2 * MILLI,
    }];
    step_net(rt, net, caps, &changes, NANOSECOND, steps)
}

/// The same without changes.
fn without_change(
    rt: &(impl AllocGlobal + Abort),
    net: &Net,
    caps: &[Cap],
    steps: u32,
) -> Result<Steps, StepError>
    requires { (1 ≤ steps) × (steps ≤ 1000) }
{
    step_net(rt, net, caps, &[], NANOSECOND, steps)
}

/// The printed bounds of a node at each step.
fn printed(
    rt: &(impl AllocGlobal + Abort),
    stepped: Result<Steps, StepError>,
    node: usize,
) -> Vec<(i128, i128)> {
    let steps = match stepped {
        Ok(steps) => steps,
        Err(_) => panic!(rt; "no bounds"),
    };
    let mut printed = Vec::new(rt.alloc());
    for (high, low) in steps.high.as_slice().iter().zip(steps.low.as_slice()) {
        match (high.as_slice().get(node), low.as_slice().get(node)) {
            (Some(high), Some(low)) => printed
                .push((div_floor(*low, NANO), div_ceil(*high, NANO)))
                .expect(rt, "memory"),
            _ => panic!(rt; "no node"),
        }
    }
    printed
}

#[test]
fn one_capacitor_over_two_steps(rt: HostRuntime) {
    let net = one_load(&rt);
    let found = printed(&rt, with_change(&rt, &net, &[at_n(NANOFARAD)], 1, 2), 1);
    let wanted = [
        (998_999_999, 999_000_001),
        (998_499_999, 998_500_001),
        (998_249_999, 998_250_001),
    ];
    same(&rt, found.as_slice(), wanted.as_slice());
}

#[test]
fn no_change_keeps_the_digits(rt: HostRuntime) {
    let net = one_load(&rt);
    let found = printed(&rt, without_change(&rt, &net, &[at_n(NANOFARAD)], 2), 1);
    let wanted = [(998_999_999, 999_000_001); 3];
    same(&rt, found.as_slice(), wanted.as_slice());
}

// Without capacitors each step is at rest at once, from the step of the change on.
#[test]
fn a_change_without_a_capacitor(rt: HostRuntime) {
    let net = one_load(&rt);
    let found = printed(&rt, with_change(&rt, &net, &[], 2, 3), 1);
    let wanted = [
        (998_999_999, 999_000_001),
        (998_999_999, 999_000_001),
        (997_999_999, 998_000_001),
        (997_999_999, 998_000_001),
    ];
    same(&rt, found.as_slice(), wanted.as_slice());
}

// Two capacitors of half a nanofarad, one to the pad, are as one of a nanofarad to ground.
#[test]
fn two_capacitors_at_one_node(rt: HostRuntime) {
    let net = one_load(&rt);
    let caps = [
        at_n(NANOFARAD / 2),
        between(End::Node(2), End::Node(1), NANOFARAD / 2),
        between(End::Node(1), End::Nowhere, NANOFARAD),
        between(End::Node(2), End::Ground, NANOFARAD),
        at_n(0),
    ];
    let found = printed(&rt, with_change(&rt, &net, &caps, 1, 2), 1);
    let wanted = [
        (998_999_999, 999_000_001),
        (998_499_999, 998_500_001),
        (998_249_999, 998_250_001),
    ];
    same(&rt, found.as_slice(), wanted.as_slice());
}

#[test]
fn resistance_beyond_its_limit(rt: HostRuntime) {
    let net = one_load(&rt);
    // 0.1 femtofarads
    let stepped = without_change(&rt, &net, &[at_n(100_000_000)], 2);
    match stepped {
        Err(
            StepError::Range {
                step,
                quantity,
                at,
                number,
                before,
            },
        ) => {
            same(&rt, (step, quantity, at), (1, Quantity::Resistance, 2));
            same(&rt, number, 10_000_000_000_000_000);
            assert!(rt; before.high.as_slice().len() == 1);
            assert!(rt; before.low.as_slice().len() == 1);
        }
        _ => panic!(rt; "no refusal"),
    }
}

#[test]
fn resistance_of_a_capacitance(rt: HostRuntime) {
    let net = one_load(&rt);
    for (time, farads, ohms) in [
        (NANOSECOND, NANOFARAD, 1_000_000_000),
        (1, 1_000_000_000_000_000_000_000_000, 1),
        (1, 2_000_000_000_000_000, 1),
        (1, 400_000_000_000_000, 3),
        (1, 400_000_000_000_001, 2),
        (1, 666_666_666_666_667, 1),
        (
            1_000_000_000_000_000_000,
            1,
            1_000_000_000_000_000_000_000_000_000_000_000,
        ),
    ] {
        let found = companions(rt.alloc(), &net, &[at_n(farads)], time).expect(&rt, "memory");
        same(
            &rt,
            found.as_slice(),
            [Companion { node: 1, ohms }].as_slice(),
        );
    }
}

#[test]
fn the_first_that_floats(rt: HostRuntime) {
    let net = one_load(&rt);
    let floats = between(End::Node(1), End::Node(0), 1);
    for (cap, found) in [
        (floats, Some(0)),
        (between(End::Node(0), End::Node(1), 0), None),
        (between(End::Node(0), End::Node(0), 1), None),
        (between(End::Node(0), End::Node(2), 1), None),
        (between(End::Node(0), End::Ground, 1), None),
        (between(End::Nowhere, End::Node(1), 1), None),
    ] {
        same(&rt, first_floating(&net, &[cap]), found);
        same(&rt, first_floating(&net, &[cap, floats]), Some(0));
    }
}
