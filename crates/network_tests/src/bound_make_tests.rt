use bound_check::{Certified, is_certificate, is_tight};
use bound_make::*;
use grid_net::hostile::{Alternating, Everywhere, Filling};
use grid_net::{Fixed, Load, Net, Pad, Resistor, Solver};
use level_region::Region;
use std::marker::Model;
use std::process::Abort;

/// An ohm, in nano-ohms.
const OHM: i128 = 1_000_000_000;

/// A volt, in yoctovolts.
const VOLT: i128 = 1_000_000_000_000_000_000_000_000;

/// A milliampere, in femtoamperes.
const MILLI: i64 = 1_000_000_000_000;

/// A pad at p, a resistor from p to n, and a load at n. Nodes in the order of their names: n, p.
fn one_resistor(rt: &(impl AllocGlobal + Abort), ohms: i128, volts: i128, amps: i64) -> Net {
    let resistors = vec![in rt.alloc(); Resistor { a: 1, b: 0, ohms }].expect(rt, "a resistor");
    let pads = vec![in rt.alloc(); Pad { node: 1, volts }].expect(rt, "a pad");
    let loads = vec![in rt.alloc();
        Load {
            node: 0,
            low: amps,
            high: amps
        },
    ]
    .expect(rt, "a load");
    Net::build(rt.alloc(), 2, resistors, pads, loads).expect(rt, "a network")
}

/// A small grid of a power and a ground net: ten resistors, a pad of each net, and a load between the two.
fn small_grid(rt: &(impl AllocGlobal + Abort)) -> Net {
    let mut resistors = Vec::new(rt.alloc());
    for (a, b, ohms) in [
        (0u32, 1u32, 1_666_666_667i128),
        (0, 11, 1_666_666_667),
        (1, 2, 612_500_000),
        (3, 4, 2_458_823_529),
        (4, 5, 1_666_666_667),
        (5, 6, 1_666_666_667),
        (6, 8, 1_666_666_667),
        (7, 8, 612_500_000),
        (9, 10, 2_011_764_706),
        (9, 11, 1_666_666_667),
    ] {
        resistors
            .push(Resistor { a, b, ohms })
            .expect(rt, "a resistor");
    }
    let pads = vec![in rt.alloc();
        Pad { node: 2, volts: 0 },
        Pad {
            node: 7,
            volts: 1_100_000_000_000_000_000_000_000
        },
    ]
    .expect(rt, "two pads");
    let amps: i64 = 333_300_000_000;
    let loads = vec![in rt.alloc();
        Load {
            node: 3,
            low: amps,
            high: amps
        },
        Load {
            node: 10,
            low: -amps,
            high: -amps
        },
    ]
    .expect(rt, "two loads");
    Net::build(rt.alloc(), 12, resistors, pads, loads).expect(rt, "a network")
}

/// What is certified of a network, tested anew.
fn certified<V: Solver>(rt: &(impl AllocGlobal + Abort), net: Net, solver: &mut V) -> Certified {
    match net.supply() {
        Ok(()) => {}
        Err(_) => panic!(rt; "a node that is not supplied"),
    }
    let made = match Certifier::reserve(rt.alloc(), net) {
        Ok(certifier) => certifier.certify(solver),
        Err(_) => panic!(rt; "no memory"),
    };
    match is_certificate(made.net(), made.high(), made.low()) {
        Ok(()) => {}
        Err(_) => panic!(rt; "no certificate"),
    }
    match is_tight(made.net(), made.high(), made.low()) {
        Ok(()) => {}
        Err(_) => panic!(rt; "not tight"),
    }
    made
}

/// The printed voltage of a node.
fn printed(rt: &impl Abort, made: &Certified, node: u32) -> (i128, i128) {
    let nodes = made.net().nodes();
    assert!(rt; node < nodes, "a node");
    made.voltage(node)
}

/// The two bounds of the first node.
fn first(rt: &impl Abort, made: &Certified) -> (i128, i128) {
    match (made.low().first(), made.high().first()) {
        (Some(low), Some(high)) => (*low, *high),
        _ => panic!(rt; "no node"),
    }
}

#[test]
fn hostile_proposals(rt: HostRuntime) {
    for number in [i128::MIN, i128::MAX, 0, VOLT] {
        let mut solver = Everywhere::new(number);
        let made = certified(&rt, one_resistor(&rt, OHM, VOLT, MILLI), &mut solver);
        assert!(rt;
            printed(&rt, &made, 0) == (998999999, 999000001),
            "{number}"
        );
        let grid = certified(&rt, small_grid(&rt), &mut solver);
        assert!(rt;
            printed(&rt, &grid, 3) == (1097309827, 1097309828),
            "{number}"
        );
    }
    let mut alternating = Alternating::new();
    let made = certified(&rt, one_resistor(&rt, OHM, VOLT, MILLI), &mut alternating);
    assert!(rt;
        printed(&rt, &made, 0) == (998999999, 999000001),
        "alternating"
    );
    let grid = certified(&rt, small_grid(&rt), &mut alternating);
    assert!(rt;
        printed(&rt, &grid, 10) == (2541167, 2541168),
        "alternating"
    );
    let mut filling = Filling::new();
    let made = certified(&rt, one_resistor(&rt, OHM, VOLT, MILLI), &mut filling);
    assert!(rt; printed(&rt, &made, 0) == (998999999, 999000001), "filling");
    let grid = certified(&rt, small_grid(&rt), &mut filling);
    assert!(rt; printed(&rt, &grid, 10) == (2541167, 2541168), "filling");
}

#[test]
fn a_proposal_that_is_tight_is_kept(rt: HostRuntime) {
    let high: [i128; 2] = [999000000000101000000000, VOLT];
    let low: [i128; 2] = [998999999999899000000000, VOLT];
    let x = Vec::from_array(rt.alloc(), high).expect(&rt, "a list");
    let w = Vec::from_array(rt.alloc(), low).expect(&rt, "a list");
    let mut solver = Fixed::new(x, w);
    let made = certified(&rt, one_resistor(&rt, OHM, VOLT, MILLI), &mut solver);
    assert!(rt; first(&rt, &made) == (low[0], high[0]), "both are kept");
    assert!(rt; made.sweeps() == 0, "no node moves");
}

#[test]
fn bounds_of_a_nano_ohm(rt: HostRuntime) {
    for number in [i128::MIN, 0, i128::MAX] {
        let mut solver = Everywhere::new(number);
        let made = certified(&rt, one_resistor(&rt, 1, 0, 1), &mut solver);
        let (low, high) = first(&rt, &made);
        assert!(rt;
            -1042 <= low && low <= high && high <= 1042,
            "{number}: {low} to {high}"
        );
    }
}

/// A chain of nodes that each have a resistor of 1 ohm to the one before, with a pad at the first.
fn chain(rt: &(impl AllocGlobal + Abort), nodes: u32) -> Net {
    let mut resistors = Vec::new(rt.alloc());
    for node in 1..nodes {
        resistors
            .push(Resistor {
                a: node - 1,
                b: node,
                ohms: OHM,
            })
            .expect(rt, "a resistor");
    }
    let pads = vec![in rt.alloc();
        Pad {
            node: 0,
            volts: VOLT
        },
    ]
    .expect(rt, "a pad");
    Net::build(rt.alloc(), nodes, resistors, pads, Vec::new(rt.alloc())).expect(rt, "a network")
}

/// The voltages at which 1 fA leaves each node of a chain but the first, towards the pad, times a sign. In the middle of
/// every ten thousand nodes a few neighbours are off by 1 mV.
fn proposal(rt: &(impl AllocGlobal + Abort), nodes: u32, sign: i128, neighbours: u32) -> Vec<i128> {
    let mut list = Vec::new(rt.alloc());
    let mut volts = VOLT;
    for node in 0..nodes {
        if node > 0 {
            let flow = i128::from(nodes - node);
            volts = volts.saturating_add(sign.saturating_mul(flow.saturating_mul(OHM)));
        }
        let off = if (node % 10_000).wrapping_sub(5_000) < neighbours {
            sign.saturating_mul(VOLT / 1000)
        } else {
            0
        };
        list.push(volts.saturating_sub(off)).expect(rt, "memory");
    }
    list
}

#[test]
fn a_good_proposal_takes_few_sweeps(rt: HostRuntime) {
    let nodes: u32 = 100_000;
    for (neighbours, most) in [(0u32, 0u64), (1, 2), (10, 2)] {
        let high = proposal(&rt, nodes, 1, neighbours);
        let low = proposal(&rt, nodes, -1, neighbours);
        let made = certified(&rt, chain(&rt, nodes), &mut Fixed::new(high, low));
        assert!(rt;
            made.sweeps() <= most,
            "{} sweeps where {neighbours} neighbours are off",
            made.sweeps()
        );
    }
}

/// A number from a row of numbers that looks random.
fn next(seed: &mut u64) -> u64 {
    *seed = seed
        .wrapping_mul(6364136223846793005)
        .wrapping_add(1442695040888963407);
    *seed >> 33
}

/// A ring of four nodes with a pad, whose resistances and loads look random.
fn random_ring(rt: &(impl AllocGlobal + Abort), seed: &mut u64) -> Net {
    let mut resistors = Vec::new(rt.alloc());
    for (a, b) in [(0u32, 1u32), (1, 2), (2, 3), (3, 0), (1, 3), (2, 2)] {
        let ohms = i128::from(next(seed) % 900) + 1;
        resistors
            .push(Resistor { a, b, ohms })
            .expect(rt, "a resistor");
    }
    let pads = vec![in rt.alloc();
        Pad {
            node: 0,
            volts: VOLT
        },
    ]
    .expect(rt, "a pad");
    let amps = i64::try_from(next(seed) % 1_000_000_000).unwrap_or(0);
    let loads = vec![in rt.alloc();
        Load {
            node: 1,
            low: -amps,
            high: amps
        },
        Load {
            node: 2,
            low: amps,
            high: amps
        },
    ]
    .expect(rt, "two loads");
    Net::build(rt.alloc(), 4, resistors, pads, loads).expect(rt, "a network")
}

#[test]
fn random_networks(rt: HostRuntime) {
    let mut seed: u64 = 1;
    for _ in 0..16u32 {
        let net = random_ring(&rt, &mut seed);
        let mut high = Vec::new(rt.alloc());
        let mut low = Vec::new(rt.alloc());
        for _ in 0..4u32 {
            high.push(VOLT.saturating_add(i128::from(next(&mut seed))))
                .expect(&rt, "memory");
            low.push(VOLT.saturating_sub(i128::from(next(&mut seed))))
                .expect(&rt, "memory");
        }
        let mut solver = Fixed::new(high, low);
        let _made = certified(&rt, net, &mut solver);
    }
}

/// Proposes nothing, takes all of the region, and remembers the least that there was of it.
#[derive(Drop)]
struct Taking {
    least: usize,
    proposals: u64,
}

impl Model for Taking {
    ghost use Rattle.std.specs.Prelude.{ℕ};

    ghost Value = { ℕ };

    ghost view = { λ solver. solver.proposals };
}

impl Solver for Taking {
    ghost use Rattle.std.specs.Prelude.{None};

    ghost told = { λ _. None };

    ghost proposals = { λ solver. solver };

    fn propose(&mut self, _net: &Net, work: &mut Region, _x: &mut [i128], _w: &mut [i128]) {
        self.proposals = self.proposals.saturating_add(1);
        let left = work.left();
        self.least = self.least.min(left);
        let _taken = work.cut(left);
    }
}

#[test]
fn each_proposal_has_all_but_the_work_list(rt: HostRuntime) {
    let net = small_grid(&rt);
    match net.supply() {
        Ok(()) => {}
        Err(_) => panic!(rt; "a node that is not supplied"),
    }
    let mut solver = Taking {
        least: usize::MAX,
        proposals: 0,
    };
    let mut work = region_for(rt.alloc(), net.nodes(), net.resistors().len()).expect(
        &rt, "a region",
    );
    certify_halves(rt.alloc(), &net, &net, &mut work, &mut solver).expect(&rt, "two lists");
    let cells = 14 * net.nodes() as usize + 8 * net.resistors().len() + 64;
    assert!(rt; cells <= solver.least, "{} cells of {cells}", solver.least);
}
