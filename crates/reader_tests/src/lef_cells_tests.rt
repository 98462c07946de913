//! Cells that are read and joined. What each section says, and where a text is refused, is told by cases.
use crate::same::same;
use grid_gen::CELLS;
use lef_cells::{Cells, read_cells};
use std::process::Abort;

/// A name, a width and a height.
type SaidSite = (&'static [u8], u64, u64);

/// A name, whether it is a block, a width and a height.
type SaidMacro = (&'static [u8], bool, u64, u64);

const GENERATED_SITES: &[SaidSite] = &[(b"unit", 200_000, 1_400_000)];

const GENERATED_MACROS: &[SaidMacro] = &[
    (b"C0", false, 1_400_000, 1_400_000),
    (b"C1", false, 1_400_000, 1_400_000),
    (b"C2", false, 1_400_000, 1_400_000),
    (b"C3", false, 1_400_000, 1_400_000),
];

fn compare_sites(rt: &impl Abort, cells: &Cells, said: &[SaidSite]) {
    same(rt, cells.sites.as_slice().len(), said.len());
    for (site, want) in cells.sites.as_slice().iter().zip(said) {
        same(rt, (site.name.bytes(), site.width, site.height), *want);
    }
}

fn compare_macros(rt: &impl Abort, cells: &Cells, said: &[SaidMacro]) {
    same(rt, cells.macros.as_slice().len(), said.len());
    for (cell, want) in cells.macros.as_slice().iter().zip(said) {
        same(
            rt,
            (cell.name.bytes(), cell.block, cell.width, cell.height),
            *want,
        );
    }
}

#[test]
fn generated_cells(rt: HostRuntime) {
    let cells = read_cells(rt.alloc(), CELLS).expect(&rt, "cells");
    compare_sites(&rt, &cells, GENERATED_SITES);
    compare_macros(&rt, &cells, GENERATED_MACROS);
}

/// Cells of which some names are those of the made-up designs.
const OTHER: &[u8] = b"MACRO C4 CLASS BLOCK ; SIZE 5 BY 6 ; END C4
MACRO C0 CLASS BLOCK ; SIZE 1 BY 1 ; END C0
SITE unit SIZE 9 BY 9 ; END unit
SITE C0 SIZE 7 BY 8 ; END C0
";

const JOINED_SITES: &[SaidSite] = &[(b"unit", 200_000, 1_400_000), (b"C0", 7_000_000, 8_000_000)];

const JOINED_MACROS: &[SaidMacro] = &[
    (b"C0", false, 1_400_000, 1_400_000),
    (b"C1", false, 1_400_000, 1_400_000),
    (b"C2", false, 1_400_000, 1_400_000),
    (b"C3", false, 1_400_000, 1_400_000),
    (b"C4", true, 5_000_000, 6_000_000),
];

#[test]
fn joined_cells(rt: HostRuntime) {
    let first = read_cells(rt.alloc(), CELLS).expect(&rt, "cells");
    let second = read_cells(rt.alloc(), OTHER).expect(&rt, "other cells");
    let joined = first.join(second).expect(&rt, "memory");
    compare_sites(&rt, &joined, JOINED_SITES);
    compare_macros(&rt, &joined, JOINED_MACROS);
}
