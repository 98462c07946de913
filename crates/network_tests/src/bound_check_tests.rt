use bound_check::{Certified, Fails, Side, is_certificate, is_certificate_in, is_tight};
use grid_net::{Load, Net, Pad, Resistor};
use std::process::Abort;

/// A volt, in yoctovolts.
const VOLT: i128 = 1_000_000_000_000_000_000_000_000;
/// A milliampere, in femtoamperes.
const MILLI: i64 = 1_000_000_000_000;
/// An ohm, in nano-ohms.
const OHM: i128 = 1_000_000_000;

/// The answer of the test, which is the same with memory for the sums and without.
fn answer(
    rt: &(impl AllocGlobal + Abort),
    net: &Net,
    high: &[i128],
    low: &[i128],
) -> Result<(), Fails> {
    assert!(rt; high.len() == net.nodes() as usize);
    assert!(rt; low.len() == net.nodes() as usize);
    let without = is_certificate(net, high, low);
    assert!(rt; is_certificate_in(rt.alloc(), net, high, low) == without);
    without
}

fn refusal(node: u32, side: Side, found: i128) -> Result<(), Fails> {
    Err(Fails { node, side, found })
}

#[test]
fn one_resistor(rt: HostRuntime) {
    let above = 999000000000001000000000;
    let below = 998999999999999000000000;
    for (load, high, low, want) in [
        (MILLI, [above, VOLT], [below, VOLT], Ok(())),
        (
            MILLI,
            [above - 1000000000, VOLT],
            [below, VOLT],
            refusal(0, Side::High, 0),
        ),
        (
            MILLI,
            [above, VOLT - 1],
            [below, VOLT],
            refusal(1, Side::High, -1),
        ),
        (
            MILLI - 1,
            [above, VOLT],
            [below, VOLT],
            refusal(0, Side::High, 0),
        ),
        (
            MILLI,
            [above - 1, VOLT],
            [below, VOLT],
            refusal(0, Side::High, 0),
        ),
        (
            MILLI,
            [above, VOLT],
            [below + 1, VOLT],
            refusal(0, Side::Low, 0),
        ),
        (
            MILLI,
            [above, VOLT],
            [below, VOLT + 1],
            refusal(1, Side::Low, 1),
        ),
    ] {
        let resistors = vec![in rt.alloc();
            Resistor {
                a: 1,
                b: 0,
                ohms: OHM
            },
        ]
        .expect(&rt, "a resistor");
        let pads = vec![in rt.alloc();
            Pad {
                node: 1,
                volts: VOLT
            },
        ]
        .expect(&rt, "a pad");
        let loads = vec![in rt.alloc();
            Load {
                node: 0,
                low: load,
                high: load
            },
        ]
        .expect(&rt, "a load");
        let net = Net::build(rt.alloc(), 2, resistors, pads, loads).expect(&rt, "a network");
        assert!(rt;
            answer(&rt, &net, high.as_slice(), low.as_slice()) == want,
            "load {load}"
        );
    }
}

#[test]
fn empty_network(rt: HostRuntime) {
    let net = Net::build(
        rt.alloc(),
        0,
        Vec::new(rt.alloc()),
        Vec::new(rt.alloc()),
        Vec::new(rt.alloc()),
    )
    .expect(&rt, "a network");
    assert!(rt; answer(&rt, &net, &[], &[]) == Ok(()));
}

/// A chain of 1 ohm and 2 ohms from a pad of 1 V, with 1 mA drawn at its middle and 2 mA at its end: 997 mV and 993 mV.
#[test]
fn chain(rt: HostRuntime) {
    let resistors = vec![in rt.alloc();
        Resistor {
            a: 0,
            b: 1,
            ohms: OHM
        },
        Resistor {
            a: 2,
            b: 1,
            ohms: 2 * OHM
        },
    ]
    .expect(&rt, "two resistors");
    let pads = vec![in rt.alloc();
        Pad {
            node: 0,
            volts: VOLT
        },
    ]
    .expect(&rt, "a pad");
    let loads = vec![in rt.alloc();
        Load {
            node: 1,
            low: MILLI,
            high: MILLI
        },
        Load {
            node: 2,
            low: 2 * MILLI,
            high: 2 * MILLI
        },
    ]
    .expect(&rt, "two loads");
    let net = Net::build(rt.alloc(), 3, resistors, pads, loads).expect(&rt, "a network");
    let high: [i128; 3] = [VOLT, 997000000000002000000000, 993000000000004000000000];
    let low: [i128; 3] = [VOLT, 996999999999998000000000, 992999999999996000000000];
    for (node, to_high, to_low, want) in [
        (0usize, 0i128, 0i128, Ok(())),
        (2, -1, 0, refusal(2, Side::High, 0)),
        (1, -1, 0, refusal(1, Side::High, -1)),
        (2, 0, 1, refusal(2, Side::Low, 0)),
        (1, 0, 1, refusal(1, Side::Low, 1)),
        (0, -1, 0, refusal(0, Side::High, -1)),
    ] {
        let mut high = high;
        let mut low = low;
        high[node] += to_high;
        low[node] += to_low;
        assert!(rt;
            answer(&rt, &net, high.as_slice(), low.as_slice()) == want,
            "{node}: {to_high} and {to_low}"
        );
    }
}

/// A ring of four resistors of 1 ohm with a pad of 1 V, and at the corner across from it a load of 1 to 2 mA and a
/// resistor to itself: from 999 mV and 998 mV, where all is drawn, to 999.5 mV and 999 mV.
#[test]
fn ring_with_a_range(rt: HostRuntime) {
    let resistors = vec![in rt.alloc();
        Resistor {
            a: 0,
            b: 1,
            ohms: OHM
        },
        Resistor {
            a: 0,
            b: 2,
            ohms: OHM
        },
        Resistor {
            a: 3,
            b: 1,
            ohms: OHM
        },
        Resistor {
            a: 2,
            b: 3,
            ohms: OHM
        },
        Resistor {
            a: 3,
            b: 3,
            ohms: OHM
        },
    ]
    .expect(&rt, "five resistors");
    let pads = vec![in rt.alloc();
        Pad {
            node: 0,
            volts: VOLT
        },
    ]
    .expect(&rt, "a pad");
    let loads = vec![in rt.alloc();
        Load {
            node: 3,
            low: MILLI,
            high: 2 * MILLI
        },
    ]
    .expect(&rt, "a load");
    let net = Net::build(rt.alloc(), 4, resistors, pads, loads).expect(&rt, "a network");
    let high: [i128; 4] = [
        VOLT,
        999500000000002000000000,
        999500000000002000000000,
        999000000000003000000000,
    ];
    let low: [i128; 4] = [
        VOLT,
        998999999999998000000000,
        998999999999998000000000,
        997999999999997000000000,
    ];
    for (node, to_high, to_low, want) in [
        (0usize, 0i128, 0i128, Ok(())),
        (3, -1, 0, refusal(3, Side::High, 0)),
        (3, 0, 1, refusal(3, Side::Low, 0)),
        (1, 0, 1, refusal(1, Side::Low, 1)),
        (
            3,
            100000000000000000000000000000000000000,
            0,
            refusal(3, Side::HighValue, 100000000000000999000000000003000000000),
        ),
    ] {
        let mut high = high;
        let mut low = low;
        high[node] += to_high;
        low[node] += to_low;
        assert!(rt;
            answer(&rt, &net, high.as_slice(), low.as_slice()) == want,
            "{node}: {to_high} and {to_low}"
        );
    }
}

/// The network of one resistor of 1 ohm, with a pad of 1 V and a load of 1 mA.
fn one_ohm(rt: &(impl AllocGlobal + Abort)) -> Net {
    let resistors = vec![in rt.alloc();
        Resistor {
            a: 1,
            b: 0,
            ohms: OHM
        },
    ]
    .expect(rt, "a resistor");
    let pads = vec![in rt.alloc();
        Pad {
            node: 1,
            volts: VOLT
        },
    ]
    .expect(rt, "a pad");
    let loads = vec![in rt.alloc();
        Load {
            node: 0,
            low: MILLI,
            high: MILLI
        },
    ]
    .expect(rt, "a load");
    Net::build(rt.alloc(), 2, resistors, pads, loads).expect(rt, "a network")
}

/// What the test of tightness says of two lists that are a certificate.
fn looseness(rt: &impl Abort, net: &Net, high: &[i128], low: &[i128]) -> Result<(), (u32, i128)> {
    assert!(rt; high.len() == net.nodes() as usize);
    assert!(rt; low.len() == net.nodes() as usize);
    match is_certificate(net, high, low) {
        Ok(()) => is_tight(net, high, low),
        Err(_) => panic!(rt; "no certificate"),
    }
}

#[test]
fn where_lists_are_tight(rt: HostRuntime) {
    let net = one_ohm(&rt);
    let above = 999000000000001000000000;
    let below = 998999999999999000000000;
    for (high, low, want) in [
        ([above, VOLT], [below, VOLT], Ok(())),
        (
            [above + 128999999999, VOLT],
            [below - 128999999999, VOLT],
            Ok(()),
        ),
        ([above + 129000000000, VOLT], [below, VOLT], Err((0, 129))),
        (
            [above + 129000000000, VOLT],
            [below - 130000000000, VOLT],
            Err((0, 130)),
        ),
        ([above + 1000000000, VOLT + 1], [below, VOLT], Err((1, 1))),
        (
            [above + 1000000000, VOLT + 1],
            [below - 2000000000, VOLT - 2],
            Err((1, 2)),
        ),
    ] {
        assert!(rt;
            looseness(&rt, &net, high.as_slice(), low.as_slice()) == want,
            "{} and {}",
            high[0],
            low[0]
        );
    }
}

/// Keeps the network of one resistor with these two numbers at its node.
fn kept(rt: &(impl AllocGlobal + Abort), high: i128, low: i128) -> Certified {
    let net = one_ohm(rt);
    let high = vec![in rt.alloc(); high, VOLT].expect(rt, "a list");
    let low = vec![in rt.alloc(); low, VOLT].expect(rt, "a list");
    assert!(rt; high.len() == net.nodes() as usize);
    assert!(rt; low.len() == net.nodes() as usize);
    match is_certificate(&net, &high, &low) {
        Ok(()) => {}
        Err(_) => panic!(rt; "no certificate"),
    }
    match is_tight(&net, &high, &low) {
        Ok(()) => Certified::keep(net, high, low, 7),
        Err(_) => panic!(rt; "not tight"),
    }
}

/// The tightest lists and the loosest tight ones of one resistor print the same digits, and so do all between them,
/// since a printed digit goes up with its number.
#[test]
fn digits_of_one_resistor(rt: HostRuntime) {
    for (high, low) in [
        (999000000000001000000000, 998999999999999000000000),
        (999000000000129999999999, 998999999999870000000001),
    ] {
        let made = kept(&rt, high, low);
        assert!(rt;
            made.net().nodes() == 2 && made.high()[0] == high && made.low()[0] == low,
            "what is kept"
        );
        assert!(rt; made.sweeps() == 7, "the sweeps");
        let resistors = made.net().resistors().len();
        assert!(rt; resistors == 1, "one resistor");
        assert!(rt;
            made.voltage(0) == (998999999, 999000001),
            "the voltage at n"
        );
        assert!(rt;
            made.voltage(1) == (1000000000, 1000000000),
            "the voltage at p"
        );
        assert!(rt;
            made.current(0) == (999999, 1000001),
            "the current from p to n"
        );
    }
}
