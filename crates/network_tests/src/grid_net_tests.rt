use crate::same::same_at;
use grid_net::hostile::{Alternating, Everywhere, Filling};
use grid_net::{Fixed, Load, Net, NetError, Pad, Quantity, Resistor, Solver};
use level_region::Region;
use std::process::Abort;

#[test]
fn a_network_tells_what_it_holds(rt: HostRuntime) {
    let resistors = vec![in rt.alloc();
        Resistor {
            a: 0,
            b: 1,
            ohms: 5
        },
        Resistor {
            a: 1,
            b: 0,
            ohms: 7
        },
        Resistor {
            a: 1,
            b: 1,
            ohms: 9
        },
        Resistor {
            a: 2,
            b: 1,
            ohms: 1
        },
    ]
    .expect(&rt, "four resistors");
    let pads = vec![in rt.alloc();
        Pad { node: 2, volts: 30 },
        Pad {
            node: 0,
            volts: -20
        },
        Pad { node: 2, volts: 30 },
    ]
    .expect(&rt, "three pads");
    let loads = vec![in rt.alloc();
        Load {
            node: 1,
            low: 1,
            high: 4
        },
        Load {
            node: 3,
            low: -6,
            high: -6
        },
        Load {
            node: 1,
            low: -3,
            high: 2
        },
    ]
    .expect(&rt, "three loads");
    let net = Net::build(rt.alloc(), 4, resistors, pads, loads).expect(&rt, "a network");
    assert!(rt; net.nodes() == 4);
    assert!(rt; net.resistors().len() == 4);
    let in_order = [
        Pad {
            node: 0,
            volts: -20,
        },
        Pad { node: 2, volts: 30 },
    ];
    assert!(rt; net.pads() == in_order.as_slice());
    let pads = [Some(-20), None, Some(30), None];
    let loads = [(0, 0), (-2, 6), (0, 0), (-6, -6)];
    for node in 0..4u32 {
        same_at(
            &rt,
            net.pad(node),
            pads[node as usize],
            ("the pad of", node),
        );
        same_at(
            &rt,
            net.load(node),
            loads[node as usize],
            ("the load of", node),
        );
    }
    assert!(rt; net.around(0) == [0, 1].as_slice());
    assert!(rt; net.around(1) == [0, 1, 2, 3].as_slice());
    assert!(rt; net.around(2) == [3].as_slice());
    assert!(rt; net.around(3).is_empty());
    let parts = net.into_parts();
    assert!(rt; parts.resistors.len() == 4);
    assert!(rt; parts.pads.as_slice() == in_order.as_slice());
    assert!(rt; parts.loads.len() == 4);
}

#[test]
fn small_calls(rt: HostRuntime) {
    let resistors = vec![in rt.alloc();
        Resistor {
            a: 0,
            b: 2,
            ohms: 5
        },
    ]
    .expect(&rt, "a resistor");
    let net = Net::build(
        rt.alloc(),
        2,
        resistors,
        Vec::new(rt.alloc()),
        Vec::new(rt.alloc()),
    );
    assert!(rt; matches!(net, Err(NetError::BadEnd { at: 0 })));
}

/// What refuses two nodes with a resistor, two pads and a load.
fn refusal(
    rt: &(impl AllocGlobal + Abort),
    resistor: Resistor,
    pads: [Pad; 2],
    load: i64,
) -> Option<NetError> {
    let resistors = vec![in rt.alloc();
        Resistor {
            a: 0,
            b: 1,
            ohms: 1
        },
        resistor,
    ]
    .expect(rt, "resistors");
    let pads = Vec::from_array(rt.alloc(), pads).expect(rt, "pads");
    let loads = vec![in rt.alloc();
        Load {
            node: 1,
            low: -999_999_999_999_999_998,
            high: 3
        },
        Load {
            node: 0,
            low: load,
            high: load
        },
    ]
    .expect(rt, "loads");
    Net::build(rt.alloc(), 2, resistors, pads, loads).err()
}

#[test]
fn refusals_and_their_order(rt: HostRuntime) {
    let whole = Resistor {
        a: 1,
        b: 0,
        ohms: 1_000_000_000_000,
    };
    let volts = 10_000_000_000_000_000_000_000_000;
    let amps = 2;
    let pads = [
        Pad {
            node: 1,
            volts: -volts,
        },
        Pad {
            node: 1,
            volts: -volts,
        },
    ];
    let out = |quantity: Quantity, at: u64, number: i128| Some(NetError::Range {
        quantity,
        at,
        number,
    });
    for (resistor, pads, load, want) in [
        (whole, pads, amps, None),
        (
            Resistor {
                a: 1,
                b: 2,
                ohms: 0,
            },
            pads,
            amps,
            Some(NetError::BadEnd { at: 1 }),
        ),
        (
            Resistor {
                a: 1,
                b: 0,
                ohms: 0,
            },
            [pads[0], Pad { node: 2, volts: 0 }],
            amps,
            Some(NetError::BadEnd { at: 1 }),
        ),
        (
            Resistor {
                a: 1,
                b: 0,
                ohms: 0,
            },
            pads,
            amps,
            out(Quantity::Resistance, 1, 0),
        ),
        (
            Resistor {
                a: 1,
                b: 0,
                ohms: 1_000_000_000_001,
            },
            pads,
            amps,
            out(Quantity::Resistance, 1, 1_000_000_000_001),
        ),
        (
            whole,
            [
                pads[0],
                Pad {
                    node: 1,
                    volts: -volts - 1,
                },
            ],
            amps,
            out(Quantity::Voltage, 1, -volts - 1),
        ),
        (
            whole,
            pads,
            amps + 1,
            out(Quantity::Loads, 0, 1_000_000_000_000_000_001),
        ),
        (
            whole,
            [pads[0], Pad { node: 1, volts }],
            amps,
            Some(NetError::PadConflict {
                node: 1,
                first: -volts,
                second: volts,
            }),
        ),
    ] {
        assert!(rt; refusal(&rt, resistor, pads, load) == want, "{load}");
    }
    let nodes = Net::build(
        rt.alloc(),
        2_000_001,
        Vec::new(rt.alloc()),
        Vec::new(rt.alloc()),
        Vec::new(rt.alloc()),
    );
    assert!(rt; nodes.err() == out(Quantity::Nodes, 0, 2_000_001));
}

/// A network of resistors of 1 ohm between these nodes, with a pad of 1 volt at each of these nodes.
fn joined(rt: &(impl AllocGlobal + Abort), nodes: u32, ends: &[(u32, u32)], pads: &[u32]) -> Net {
    let mut resistors = Vec::new(rt.alloc());
    for (a, b) in ends {
        resistors
            .push(Resistor {
                a: *a,
                b: *b,
                ohms: 1_000_000_000,
            })
            .expect(rt, "a resistor");
    }
    let mut sources = Vec::new(rt.alloc());
    for node in pads {
        sources
            .push(Pad {
                node: *node,
                volts: 1_000_000_000_000_000_000_000_000,
            })
            .expect(rt, "a pad");
    }
    Net::build(rt.alloc(), nodes, resistors, sources, Vec::new(rt.alloc())).expect(rt, "a network")
}

/// The levels of a network, with 99 for a node that has none, and the first node that is not supplied.
fn assert_levels(rt: &impl Abort, net: &Net, levels: &[u32], unsupplied: Option<u32>) {
    for node in 0..net.nodes() {
        let level = net.level(node).unwrap_or(99);
        assert!(rt;
            levels.get(node as usize) == Some(&level),
            "the level {level} of {node}"
        );
    }
    assert!(rt;
        net.supply().err() == unsupplied,
        "the first node that is not supplied"
    );
}

#[test]
fn levels_and_supply(rt: HostRuntime) {
    let none: [u32; 0] = [];
    // Two parts of which one has no pad: a, b, c, d with resistors a to b and c to d.
    let parts = joined(&rt, 4, [(0, 1), (2, 3)].as_slice(), [0].as_slice());
    assert_levels(&rt, &parts, [0, 1, 99, 99].as_slice(), Some(2));
    // A star with its pad at a tip.
    let star = joined(&rt, 4, [(0, 1), (0, 2), (3, 0)].as_slice(), [2].as_slice());
    assert_levels(&rt, &star, [1, 2, 0, 2].as_slice(), None);
    // The nearer of two pads counts.
    let chain = joined(
        &rt,
        5,
        [(0, 1), (2, 1), (3, 2), (3, 4)].as_slice(),
        [4, 0].as_slice(),
    );
    assert_levels(&rt, &chain, [0, 1, 2, 1, 0].as_slice(), None);
    // A resistor from a node to itself joins it to nothing.
    let own = joined(&rt, 3, [(1, 1), (0, 2), (2, 2)].as_slice(), [0].as_slice());
    assert_levels(&rt, &own, [0, 99, 1].as_slice(), Some(1));
    let empty = joined(&rt, 0, [].as_slice(), none.as_slice());
    assert_levels(&rt, &empty, none.as_slice(), None);
}

// A million nodes in a row, with a pad at the first one; the last resistor stands first in the list.
#[test]
fn levels_of_a_long_chain(rt: HostRuntime) {
    let nodes: u32 = 1_000_000;
    let mut ends = Vec::new(rt.alloc());
    for at in 1..nodes {
        ends.push((nodes - at - 1, nodes - at)).expect(&rt, "ends");
    }
    let net = joined(&rt, nodes, &ends, [0].as_slice());
    for node in 0..net.nodes() {
        assert!(rt; net.level(node) == Some(node), "the level of {node}");
    }
    assert!(rt; net.supply().is_ok(), "each node is supplied");
}

#[test]
fn what_is_told_is_proposed(rt: HostRuntime) {
    let net = joined(&rt, 2, [(0, 1)].as_slice(), [0].as_slice());
    let nodes = net.nodes();
    assert!(rt; nodes == 2);
    let mut work = Region::new(rt.alloc(), 4).expect(&rt, "a region");
    let high = vec![in rt.alloc(); 3, 4].expect(&rt, "a list");
    let low = vec![in rt.alloc(); 1, 2].expect(&rt, "a list");
    let mut told = Fixed::new(high, low);
    let mut x: [i128; 2] = [9, 9];
    let mut w: [i128; 2] = [9, 9];
    told.propose(&net, &mut work, &mut x, &mut w);
    assert!(rt; x == [3, 4] && w == [1, 2], "the two lists");
    let long = vec![in rt.alloc(); 3, 4, 5].expect(&rt, "a list");
    let other = vec![in rt.alloc(); 1, 2].expect(&rt, "a list");
    let mut unfit = Fixed::new(long, other);
    unfit.propose(&net, &mut work, &mut x, &mut w);
    assert!(rt; x == [3, 4] && w == [1, 2], "both slices stay");
    let mut everywhere = Everywhere::new(7);
    everywhere.propose(&net, &mut work, &mut x, &mut w);
    assert!(rt; x == [7, 7] && w == [7, 7], "one number");
    let mut alternating = Alternating::new();
    alternating.propose(&net, &mut work, &mut x, &mut w);
    assert!(rt;
        x == [i128::MIN, i128::MAX] && w == x,
        "two numbers in turn"
    );
    let mut filling = Filling::new();
    filling.propose(&net, &mut work, &mut x, &mut w);
    assert!(rt;
        x == [i128::MIN, i128::MIN] && work.left() == 0,
        "nothing is left"
    );
}
