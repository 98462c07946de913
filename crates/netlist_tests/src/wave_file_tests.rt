//! Waves that are read, for names and for a netlist's groups. What each line says, and where a text is refused, is told by cases.
use crate::same::same;
use WavesKind::UnknownNode;
use outside::{Name, Place};
use short_merge::{Merged, merge};
use spice_grid::read_netlist;
use std::alloc::Global;
use std::process::Abort;
use wave_file::*;

static GROUPS: [&[u8]; 4] = [b"0", b"at", b"m", b"n"];

/// The names of groups.
fn names(rt: &impl Abort, alloc: Global) -> Vec<Name> {
    let mut names = Vec::new(alloc);
    for text in &GROUPS {
        let name = Name::new(alloc, text).expect(rt, "memory");
        names.push(name).expect(rt, "memory");
    }
    names
}

/// The line `at STEP NODE CURRENT`.
fn change(step: u32, node: u32, current: i64) -> Change {
    Change {
        step,
        node,
        low: current,
        high: current,
    }
}

#[test]
fn waves_of_names(rt: HostRuntime) {
    let names = names(&rt, rt.alloc());
    let waves = read_group_waves(rt.alloc(), b"at 1 n 2m\nat 1000 at -0.5f\n", &names).expect(
        &rt, "waves",
    );
    same(
        &rt,
        waves.changes.as_slice(),
        [change(1, 3, 2_000_000_000_000), change(1000, 1, -1)].as_slice(),
    );
}

/// The groups of p and of n, to which a short joins s.
fn merged(rt: &impl Abort, alloc: Global) -> Merged {
    let named = read_netlist(alloc, b"V1 p 0 1\nR1 p n 1\nR2 n s 0\n.end\n").expect(
        rt,
        "a netlist",
    );
    merge(alloc, named).expect(rt, "groups")
}

#[test]
fn waves_of_groups(rt: HostRuntime) {
    let merged = merged(&rt, rt.alloc());
    let waves = read_waves(rt.alloc(), b"at 1 p 2m\nat 1 n 1m\n", &merged).expect(&rt, "waves");
    same(
        &rt,
        waves.changes.as_slice(),
        [
            change(1, 1, 2_000_000_000_000),
            change(1, 0, 1_000_000_000_000),
        ]
        .as_slice(),
    );
}

#[test]
fn node_that_names_no_group(rt: HostRuntime) {
    let merged = merged(&rt, rt.alloc());
    let place = Place { line: 1, word: 3 };
    let kind = UnknownNode;
    same(
        &rt,
        read_waves(rt.alloc(), b"at 1 s 1m\n", &merged).err(),
        Some(WavesError { place, kind }),
    );
}

#[test]
fn one_law(rt: HostRuntime) {
    texts_have_one_waves(&names(&rt, rt.alloc()));
}
