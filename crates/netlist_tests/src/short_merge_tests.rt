//! Small netlists with shorts.
ghost use Rattle.std.specs.Prelude.{◌≡◌, ◌<◌, ◌≤ℤ◌, ◌^◌, length, All, IfOk};
ghost use Rattle.spice_grid.specs.Caps.{EndAmong};
ghost use Rattle.short_merge.specs.Netlist.{IsNetlist};

use crate::same::same;
use entry_list::Entries;
use grid_net::{Load, Net, Pad, Resistor};
use outside::Name;
use short_merge::*;
use spice_grid::{Cap, End, Named};
use std::alloc::{AllocError, Global};
use std::test::Fail;

fn names_of(alloc: Global, given: &[&[u8]]) -> Result<Vec<Name>, AllocError>
    ensures { IfOk result (λ names. length names.items ≡ length given.now) }
{
    let mut names = Vec::new(alloc);
    for name in given {
        names.push(Name::new(alloc, name)?)?;
    }
    Ok(names)
}

// A netlist with these names of nodes.
fn netlist(
    alloc: Global,
    given: &[&[u8]],
    shorts: Vec<(u32, u32)>,
    resistors: Vec<Resistor>,
    pads: Vec<Pad>,
    loads: Vec<Load>,
    caps: Vec<Cap>,
) -> Result<Named, Fail>
    requires few { length given.now < 2 ^ 32 }
    requires shorts { All (λ s. (s.0 < length given.now) × (s.1 < length given.now)) shorts.items }
    requires ranges { All (λ l. l.low ≤ℤ l.high) loads.items }
    requires ends { EndAmong (length given.now) caps.items }
    ensures { IfOk result IsNetlist }
{
    let names = names_of(alloc, given)?;
    match Net::build(alloc, given.len() as u32, resistors, pads, loads) {
        Ok(net) => Ok(Named {
            net,
            names: Entries::new(names),
            shorts: Entries::new(shorts),
            caps: Entries::new(caps),
        }),
        Err(_) => Err(Fail::from("refused")),
    }
}

const VOLT: i128 = 1_000_000_000_000_000_000_000_000;

// The cards `R1 a b 0`, `R2 b c 1`, `V1 a 0 1` and `I1 c 0 0.5`, and a source at b where it is given.
fn three_nodes(alloc: Global, at_b: Option<i128>, caps: Vec<Cap>) -> Result<Named, Fail>
    requires { EndAmong 3 caps.items }
    ensures { IfOk result IsNetlist }
{
    let mut pads = vec![in alloc;
        Pad {
            node: 0,
            volts: VOLT
        },
    ]?;
    if let Some(volts) = at_b {
        pads.push(Pad { node: 1, volts })?;
    }
    let resistors = vec![in alloc;
        Resistor {
            a: 1,
            b: 2,
            ohms: 1_000_000_000
        },
    ]?;
    let loads = vec![in alloc;
        Load {
            node: 2,
            low: 500_000_000_000_000,
            high: 500_000_000_000_000
        },
    ]?;
    netlist(
        alloc,
        &[b"a", b"b", b"c"],
        vec![in alloc; (0, 1)]?,
        resistors,
        pads,
        loads,
        caps,
    )
}

fn conflict_of(merged: Result<Merged, MergeError>) -> Result<(Name, i128, i128), Fail> {
    match merged {
        Err(
            MergeError::PadConflict {
                name,
                first,
                second,
            },
        ) => Ok((name, first, second)),
        Ok(_) => Err(Fail::from("merged")),
        Err(MergeError::Want) => Err(Fail::from("want of memory")),
    }
}

#[test]
fn shorts_are_merged(rt: HostRuntime) -> Result<(), Fail> {
    let alloc = rt.alloc();
    let merged = merge(alloc, three_nodes(alloc, Some(VOLT), Vec::new(alloc))?).map_err(
        |_| "refused",
    )?;
    assert!(rt; merged.names.as_slice().len() == 2);
    for (name, bytes) in merged.names.as_slice().iter().zip([b"a", b"c"]) {
        same(&rt, name.bytes(), bytes.as_slice());
    }
    same(&rt, merged.group.as_slice(), [0u32, 0, 1].as_slice());
    same(
        &rt,
        merged.net.resistors(),
        [Resistor {
            a: 0,
            b: 1,
            ohms: 1_000_000_000,
        }]
        .as_slice(),
    );
    same(
        &rt,
        merged.net.pads(),
        [Pad {
            node: 0,
            volts: VOLT,
        }]
        .as_slice(),
    );
    assert!(rt; merged.net.nodes() == 2);
    same(
        &rt,
        merged.net.load(1),
        (500_000_000_000_000, 500_000_000_000_000),
    );
    Ok(())
}

#[test]
fn pads_of_a_group_that_differ(rt: HostRuntime) -> Result<(), Fail> {
    let alloc = rt.alloc();
    let higher = VOLT + VOLT / 10;
    let (name, first, second) = conflict_of(merge(
        alloc,
        three_nodes(alloc, Some(higher), Vec::new(alloc))?,
    ))?;
    same(&rt, name.bytes(), b"a".as_slice());
    same(&rt, (first, second), (VOLT, higher));
    Ok(())
}

// A short to ground and one from a node to itself: the group bears the name of ground.
#[test]
fn a_short_to_ground(rt: HostRuntime) -> Result<(), Fail> {
    let alloc = rt.alloc();
    let pads = vec![in alloc; Pad { node: 0, volts: 0 }]?;
    let shorts = vec![in alloc; (2, 0), (1, 1)]?;
    let named = netlist(
        alloc,
        &[b"0", b"m", b"n"],
        shorts,
        Vec::new(alloc),
        pads,
        Vec::new(alloc),
        Vec::new(alloc),
    )?;
    let merged = merge(alloc, named).map_err(|_| "refused")?;
    assert!(rt; merged.names.as_slice().len() == 2);
    for (name, bytes) in merged.names.as_slice().iter().zip([b"0", b"m"]) {
        same(&rt, name.bytes(), bytes.as_slice());
    }
    same(&rt, merged.group.as_slice(), [0u32, 1, 0].as_slice());
    same(
        &rt,
        merged.net.pads(),
        [Pad { node: 0, volts: 0 }].as_slice(),
    );
    Ok(())
}

// The ends of capacitors that are nodes are those of their groups.
#[test]
fn capacitors_by_groups(rt: HostRuntime) -> Result<(), Fail> {
    let alloc = rt.alloc();
    let caps = vec![in alloc;
        Cap {
            a: End::Node(2),
            b: End::Node(1),
            farads: 5
        },
        Cap {
            a: End::Ground,
            b: End::Nowhere,
            farads: 0
        },
    ]?;
    let named = three_nodes(alloc, None, caps)?;
    let merged = merge(alloc, named).map_err(|_| "refused")?;
    same(
        &rt,
        merged.caps.as_slice(),
        [
            Cap {
                a: End::Node(1),
                b: End::Node(0),
                farads: 5,
            },
            Cap {
                a: End::Ground,
                b: End::Nowhere,
                farads: 0,
            },
        ]
        .as_slice(),
    );
    Ok(())
}

// A netlist without shorts comes back as it was.
#[test]
fn small_calls(rt: HostRuntime) -> Result<(), Fail> {
    let alloc = rt.alloc();
    let resistors = vec![in alloc;
        Resistor {
            a: 1,
            b: 0,
            ohms: 7
        },
    ]?;
    let pads = vec![in alloc; Pad { node: 1, volts: 30 }]?;
    let loads = vec![in alloc;
        Load {
            node: 0,
            low: -2,
            high: 3
        },
    ]?;
    let named = netlist(
        alloc,
        &[b"n", b"p"],
        Vec::new(alloc),
        resistors,
        pads,
        loads,
        Vec::new(alloc),
    )?;
    let merged = merge(alloc, named).map_err(|_| "refused")?;
    for (name, bytes) in merged.names.as_slice().iter().zip([b"n", b"p"]) {
        same(&rt, name.bytes(), bytes.as_slice());
    }
    same(&rt, merged.group.as_slice(), [0u32, 1].as_slice());
    same(
        &rt,
        merged.net.resistors(),
        [Resistor {
            a: 1,
            b: 0,
            ohms: 7,
        }]
        .as_slice(),
    );
    same(
        &rt,
        merged.net.pads(),
        [Pad { node: 1, volts: 30 }].as_slice(),
    );
    assert!(rt; merged.net.nodes() == 2);
    same(&rt, merged.net.load(0), (-2, 3));
    Ok(())
}
