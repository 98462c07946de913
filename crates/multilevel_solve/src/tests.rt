use super::*;
use crate::parts::split;
use grid_net::{Load, Net, Pad, Resistor, Solver};
use level_region::Region;
use solve_levels::Words;
use std::alloc::Global;
use std::test::Fail;

const VOLT: i128 = 1_000_000_000_000_000_000_000_000;

#[test]
fn proposals_on_one_resistor(rt: HostRuntime) {
    let resistors = vec![in rt.alloc();
        Resistor {
            a: 1,
            b: 0,
            ohms: 1_000_000_000
        },
    ]
    .expect(&rt, "a resistor");
    let pads = vec![in rt.alloc();
        Pad {
            node: 1,
            volts: VOLT
        },
    ]
    .expect(&rt, "a pad");
    let milli: i64 = 1_000_000_000_000;
    let loads = vec![in rt.alloc();
        Load {
            node: 0,
            low: 0,
            high: milli
        },
    ]
    .expect(&rt, "a load");
    let net = Net::build(rt.alloc(), 2, resistors, pads, loads).expect(&rt, "a network");
    // A region of no cell.
    let mut work = Region::new(rt.alloc(), 0).expect(&rt, "a region");
    let mut x: [i128; 2] = [5, 6];
    let mut w: [i128; 2] = [7, 8];
    let mut null = Null::new();
    null.propose(&net, &mut work, &mut x, &mut w);
    assert!(rt; x == [5, 6] && w == [7, 8], "the slices stay");
    let mut plain = Plain::new();
    plain.propose(&net, &mut work, &mut x, &mut w);
    assert!(rt; x == [VOLT, VOLT], "nothing is drawn: {} {}", x[0], x[1]);
    assert!(rt;
        w == [VOLT - VOLT / 1000, VOLT],
        "a milliampere is drawn: {} {}",
        w[0],
        w[1]
    );
}

// A network of nodes alone.
fn bare(alloc: Global, nodes: u32) -> Result<Net, Fail> {
    let net = Net::build(
        alloc,
        nodes,
        Vec::new(alloc),
        Vec::new(alloc),
        Vec::new(alloc),
    )?;
    Ok(net)
}

// Two pads, and a resistor between them.
fn two_pads(alloc: Global) -> Result<Net, Fail> {
    let resistors = vec![in alloc;
        Resistor {
            a: 0,
            b: 1,
            ohms: 1
        },
    ]?;
    let pads = vec![in alloc;
        Pad {
            node: 0,
            volts: VOLT
        },
        Pad { node: 1, volts: 7 },
    ]?;
    Ok(Net::build(alloc, 2, resistors, pads, Vec::new(alloc))?)
}

#[test]
fn a_node_alone(rt: HostRuntime) -> Result<(), Fail> {
    let net = bare(rt.alloc(), 1)?;
    let mut work = Region::new(rt.alloc(), 200)?;
    let mut x: [i128; 1] = [3];
    let mut w: [i128; 1] = [4];
    if net.nodes() == 1 {
        Multilevel::new().propose(&net, &mut work, &mut x, &mut w);
    }
    assert!(rt; x == [0] && w == [0], "{} {}", x[0], w[0]);
    Ok(())
}

#[test]
fn pads_keep_their_voltages(rt: HostRuntime) -> Result<(), Fail> {
    let net = two_pads(rt.alloc())?;
    let mut work = Region::new(rt.alloc(), 200)?;
    let mut x: [i128; 2] = [5, 6];
    let mut w: [i128; 2] = [5, 6];
    if net.nodes() == 2 {
        Multilevel::new().propose(&net, &mut work, &mut x, &mut w);
    }
    assert!(rt; x == [VOLT, 7] && w == [VOLT, 7], "{} {}", x[1], w[1]);
    Ok(())
}

#[test]
fn region_of_no_cell(rt: HostRuntime) -> Result<(), Fail> {
    let net = two_pads(rt.alloc())?;
    let mut work = Region::new(rt.alloc(), 0)?;
    let mut x: [i128; 2] = [5, 6];
    let mut w: [i128; 2] = [5, 6];
    if net.nodes() == 2 {
        Multilevel::new().propose(&net, &mut work, &mut x, &mut w);
    }
    assert!(rt; x == [VOLT, VOLT] && w == [VOLT, VOLT], "{} {}", x[1], w[1]);
    Ok(())
}

// A resistor of 1 nano-ohm.
fn short(a: u32, b: u32) -> Resistor {
    Resistor { a, b, ohms: 1 }
}

// A resistor of 1000 ohms.
fn kilo(a: u32, b: u32) -> Resistor {
    Resistor {
        a,
        b,
        ohms: 1_000_000_000_000,
    }
}

// Two clusters of 1 nano-ohm, of two and of three nodes, between resistors of 1000 ohms: nodes 0 and 1, nodes 2 to 4, and
// a pad at node 5. Nodes 1 and 3 draw 1 mA each.
fn two_clusters(alloc: Global) -> Result<Net, Fail> {
    let resistors = vec![in alloc;
        short(0, 1),
        kilo(1, 2),
        short(2, 3),
        short(3, 4),
        kilo(4, 5),
        kilo(0, 4),
    ]?;
    let pads = vec![in alloc;
        Pad {
            node: 5,
            volts: VOLT
        },
    ]?;
    let loads = vec![in alloc;
        Load {
            node: 1,
            low: 1_000_000_000_000,
            high: 1_000_000_000_000
        },
        Load {
            node: 3,
            low: 1_000_000_000_000,
            high: 1_000_000_000_000
        },
    ]?;
    Ok(Net::build(alloc, 6, resistors, pads, loads)?)
}

// Whether what leaves a node and what is drawn there add up to what a tight list asks: of the high list, whose flows are
// rounded down; of the low list with the sign -1, by what comes and is fed there.
fn is_tight(net: &Net, x: &[i128], node: u32, sign: i128) -> bool {
    let mut sum = if node == 1 || node == 3 {
        sign.saturating_mul(1_000_000_000_000)
    } else {
        0
    };
    let mut most: i128 = 65;
    for resistor in net.resistors() {
        if resistor.a == node || resistor.b == node {
            let other = resistor.end_across(node);
            let here = x.get(node as usize).copied().unwrap_or(0);
            let there = x.get(other as usize).copied().unwrap_or(0);
            let apart = here.saturating_sub(there).saturating_mul(sign);
            let flow = apart.checked_div_euclid(resistor.ohms).unwrap_or(0);
            sum = flow.saturating_add(sum);
            most = most.saturating_add(64);
        }
    }
    1 <= sum && sum <= most
}

#[test]
fn parts_of_two_clusters(rt: HostRuntime) -> Result<(), Fail> {
    let net = two_clusters(rt.alloc())?;
    let mut cells: [i128; 100] = [7; 100];
    let mut words = Words::new(&mut cells);
    let parts = split(&mut words, &net);
    assert!(rt; parts.is_some());
    if let Some((between, inside)) = parts {
        assert_eq!(rt; between.nodes, 2);
        assert_eq!(rt; inside.nodes, 3);
        let wanted: [(u32, u32, u32); 6] = [
            (0, 0, 3),
            (1, 0, 0),
            (2, 1, 3),
            (3, 1, 1),
            (4, 1, 2),
            (5, 2, 3),
        ];
        for (node, of_between, of_inside) in wanted {
            assert_eq!(rt; between.number(&words, node), of_between);
            assert_eq!(rt; inside.number(&words, node), of_inside);
        }
        assert!(rt; inside.has(&words, 3, 4) && !inside.has(&words, 1, 2));
    }
    Ok(())
}

#[test]
fn two_pads_are_no_clusters(rt: HostRuntime) -> Result<(), Fail> {
    let net = two_pads(rt.alloc())?;
    let mut cells: [i128; 100] = [7; 100];
    let mut words = Words::new(&mut cells);
    assert!(rt; split(&mut words, &net).is_none());
    assert_eq!(rt; words.low(), 0);
    Ok(())
}

#[test]
fn clusters_are_solved(rt: HostRuntime) -> Result<(), Fail> {
    let net = two_clusters(rt.alloc())?;
    let mut work = Region::new(rt.alloc(), 300)?;
    let mut x: [i128; 6] = [0; 6];
    let mut w: [i128; 6] = [0; 6];
    if net.nodes() == 6 {
        Multilevel::new().propose(&net, &mut work, &mut x, &mut w);
    }
    for node in 0..5_u32 {
        assert!(rt; is_tight(&net, &x, node, 1), "the high list at node {node}");
        assert!(rt; is_tight(&net, &w, node, -1), "the low list at node {node}");
    }
    assert!(rt; x[5] == VOLT && w[5] == VOLT);
    Ok(())
}

// A chain of four resistors of 1 ohm, with a pad at its end. Nodes 1 and 3 draw 1 mA each.
fn chain(alloc: Global, volts: i128) -> Result<Net, Fail> {
    let ohm = 1_000_000_000;
    let resistors = vec![in alloc;
        Resistor {
            a: 0,
            b: 1,
            ohms: ohm
        },
        Resistor {
            a: 1,
            b: 2,
            ohms: ohm
        },
        Resistor {
            a: 2,
            b: 3,
            ohms: ohm
        },
        Resistor {
            a: 3,
            b: 4,
            ohms: ohm
        },
    ]?;
    let pads = vec![in alloc; Pad { node: 4, volts }]?;
    let milli = 1_000_000_000_000;
    let loads = vec![in alloc;
        Load {
            node: 1,
            low: milli,
            high: milli
        },
        Load {
            node: 3,
            low: milli,
            high: milli
        },
    ]?;
    Ok(Net::build(alloc, 5, resistors, pads, loads)?)
}

// Asks for one list alone of the chain, and answers whether that one is tight and the other is left as it was.
fn one_list(
    alloc: Global,
    solver: &mut Multilevel,
    work: &mut Region,
    volts: i128,
    sign: i128,
) -> Result<bool, Fail> {
    let net = chain(alloc, volts)?;
    let mut wanted: [i128; 5] = [0; 5];
    let mut other: [i128; 5] = [i128::MIN; 5];
    if net.nodes() == 5 {
        work.reset();
        if sign == 1 {
            solver.propose(&net, work, &mut wanted, &mut other);
        } else {
            solver.propose(&net, work, &mut other, &mut wanted);
        }
    }
    let mut is_good = wanted[4] == volts && other == [i128::MIN; 5];
    for node in 0..4_u32 {
        is_good = is_good && is_tight(&net, &wanted, node, sign);
    }
    Ok(is_good)
}

#[test]
fn levels_are_kept(rt: HostRuntime) -> Result<(), Fail> {
    let alloc = rt.alloc();
    let mut solver = Multilevel::new();
    let mut work = Region::new(alloc, 300)?;
    for step in 0..4_u32 {
        let volts = VOLT + i128::from(step);
        assert!(rt;
            one_list(alloc, &mut solver, &mut work, volts, 1)?,
            "high at step {step}"
        );
        let lower = volts - 7;
        assert!(rt;
            one_list(alloc, &mut solver, &mut work, lower, -1)?,
            "low at step {step}"
        );
    }
    // Another region of the same size, with nothing in it.
    let mut anew = Region::new(alloc, 300)?;
    assert!(rt;
        one_list(alloc, &mut solver, &mut anew, VOLT, -1)?,
        "in another region"
    );
    Ok(())
}
