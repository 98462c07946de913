//! Small networks with shorts, and one whose million nodes are one group.
ghost use Rattle.std.specs.Prelude.{◌≡◌, ◌<◌, ◌≤ℤ◌, All, IfOk};

use crate::same::{same, same_at};
use grid_net::{Load, Net, Pad, Resistor};
use group_net::*;
use std::alloc::{AllocError, Global};
use std::test::Fail;

// A network of so many nodes.
fn network(
    alloc: Global,
    nodes: u32,
    resistors: Vec<Resistor>,
    pads: Vec<Pad>,
    loads: Vec<Load>,
) -> Result<Net, Fail>
    requires { All (λ l. l.low ≤ℤ l.high) loads.items }
    ensures { IfOk result (λ net. net.nodes ≡ nodes) }
{
    match Net::build(alloc, nodes, resistors, pads, loads) {
        Ok(net) => Ok(net),
        Err(_) => Err(Fail::from("refused")),
    }
}

#[test]
fn shorts_are_merged(rt: HostRuntime) -> Result<(), Fail> {
    let alloc = rt.alloc();
    let resistors = vec![in alloc;
        Resistor {
            a: 1,
            b: 3,
            ohms: 5
        },
        Resistor {
            a: 2,
            b: 4,
            ohms: 7
        },
        Resistor {
            a: 0,
            b: 1,
            ohms: 9
        },
    ]?;
    let pads = vec![in alloc;
        Pad { node: 4, volts: 30 },
        Pad { node: 2, volts: -5 },
        Pad { node: 3, volts: 30 },
    ]?;
    let loads = vec![in alloc;
        Load {
            node: 1,
            low: 1,
            high: 4
        },
        Load {
            node: 3,
            low: -3,
            high: 2
        },
        Load {
            node: 2,
            low: 6,
            high: 6
        },
    ]?;
    let net = network(alloc, 5, resistors, pads, loads)?;
    let merged = merge_net(alloc, net, &[(3, 1), (0, 0), (4, 3)]).map_err(|_| "refused")?;
    same(
        &rt,
        merged.groups.group.as_slice(),
        [0u32, 1, 2, 1, 1].as_slice(),
    );
    same(
        &rt,
        merged.groups.firsts.as_slice(),
        [0u32, 1, 2].as_slice(),
    );
    let kept = [
        Resistor {
            a: 1,
            b: 1,
            ohms: 5,
        },
        Resistor {
            a: 2,
            b: 1,
            ohms: 7,
        },
        Resistor {
            a: 0,
            b: 1,
            ohms: 9,
        },
    ];
    same(&rt, merged.net.resistors(), kept.as_slice());
    let pads = [Pad { node: 1, volts: 30 }, Pad { node: 2, volts: -5 }];
    same(&rt, merged.net.pads(), pads.as_slice());
    assert!(rt; merged.net.nodes() == 3);
    let added = [(0i64, 0i64), (-2, 6), (6, 6)];
    for node in 0..3u32 {
        assert!(rt; node < merged.net.nodes());
        same_at(
            &rt,
            merged.net.load(node),
            added[node as usize],
            ("the load of", node),
        );
    }
    Ok(())
}

// The pads of two groups, 0 with 2 and 1 with 3 and 4, where node 2 has this voltage.
fn two_groups(alloc: Global, second: i128) -> Result<GroupError, Fail> {
    let pads = vec![in alloc;
        Pad { node: 4, volts: 12 },
        Pad { node: 3, volts: 10 },
        Pad {
            node: 2,
            volts: second
        },
        Pad { node: 1, volts: 10 },
        Pad { node: 0, volts: 7 },
    ]?;
    let net = network(alloc, 5, Vec::new(alloc), pads, Vec::new(alloc))?;
    match merge_net(alloc, net, &[(2, 0), (4, 1), (1, 3)]) {
        Ok(_) => Err(Fail::from("merged")),
        Err(error) => Ok(error),
    }
}

#[test]
fn the_first_pad_that_differs_is_told(rt: HostRuntime) -> Result<(), Fail> {
    let first_group = GroupError::PadConflict {
        node: 0,
        first: 7,
        second: 5,
    };
    let second_group = GroupError::PadConflict {
        node: 1,
        first: 10,
        second: 12,
    };
    assert!(rt; two_groups(rt.alloc(), 5)? == first_group);
    assert!(rt; two_groups(rt.alloc(), 7)? == second_group);
    Ok(())
}

// Nodes in a row, each shorted to the next.
fn chain(alloc: Global, nodes: u32) -> Result<Vec<(u32, u32)>, AllocError>
    ensures { IfOk result (λ shorts. All (λ s. (s.0 < nodes) × (s.1 < nodes)) shorts.items) }
{
    let mut shorts = Vec::new(alloc);
    for node in 1..nodes {
        shorts.push((node - 1, node))?;
    }
    Ok(shorts)
}

#[test]
fn a_million_nodes_are_one(rt: HostRuntime) -> Result<(), Fail> {
    let alloc = rt.alloc();
    let pads = vec![in alloc;
        Pad {
            node: 999_999,
            volts: 3
        },
        Pad { node: 0, volts: 3 },
    ]?;
    let loads = vec![in alloc;
        Load {
            node: 999_999,
            low: -1,
            high: 5
        },
        Load {
            node: 500_000,
            low: -2,
            high: 6
        },
    ]?;
    let net = network(alloc, 1_000_000, Vec::new(alloc), pads, loads)?;
    let merged = merge_net(alloc, net, &chain(alloc, 1_000_000)?).map_err(|_| "refused")?;
    assert!(rt; merged.net.nodes() == 1);
    same(
        &rt,
        merged.net.pads(),
        [Pad { node: 0, volts: 3 }].as_slice(),
    );
    same(&rt, merged.net.load(0), (-3, 11));
    Ok(())
}
