use crate::same::{same, same_at};
use geom_rect::Run;
use run_index::*;
use std::test::Fail;

fn run(from: i64, to: i64) -> Run {
    Run { from, to }
}

// An entry of a group with these cells across; along it has one cell, at `place`.
fn entry(group: u32, from: i64, to: i64, place: i64) -> Entry {
    Entry {
        group,
        across: run(from, to),
        along: run(place, place.wrapping_add(1)),
    }
}

#[test]
fn entries_at_the_edges_of_a_window(rt: HostRuntime) -> Result<(), Fail> {
    let entries = vec![in rt.alloc();
        entry(1, 0, 10, 0),
        entry(1, 20, 30, 1),
        entry(2, 5, 25, 2),
        entry(1, 12, 12, 3),
        entry(1, 18, 11, 4),
        entry(1, 9, 21, 5),
    ]?;
    let index = RunIndex::new(rt.alloc(), entries)?;
    // The group, the window, and where the runs are that are found.
    let cases: [(u32, Run, &[i64]); 8] = [
        (1, run(10, 20), &[5]),
        (1, run(9, 20), &[0, 5]),
        (1, run(10, 21), &[5, 1]),
        (2, run(10, 20), &[2]),
        (2, run(24, 25), &[2]),
        (2, run(25, 26), &[]),
        (3, run(-100, 100), &[]),
        (1, run(15, 15), &[]),
    ];
    for (group, window, want) in cases {
        let found = index.found(rt.alloc(), group, window)?;
        let mut places: Vec<i64> = found.iter().map(|run| run.from).collect(rt.alloc())?;
        places.sort()?;
        let mut want = want.to_vec(rt.alloc())?;
        want.sort()?;
        same_at(&rt, places, want, group);
    }
    Ok(())
}

// A run of each kind of length and place, the next state of a generator of numbers, and its numbers.
fn next(state: u64) -> u64 {
    state
        .wrapping_mul(6_364_136_223_846_793_005)
        .wrapping_add(1_442_695_040_888_963_407)
}

#[test]
fn many_entries_as_by_a_look_at_all(rt: HostRuntime) -> Result<(), Fail> {
    let mut state = 11_u64;
    let mut entries = Vec::new(rt.alloc());
    for place in 0..500_i64 {
        state = next(state);
        let from = (state >> 40 & 1023) as i64;
        let length = (state >> 55) as i64;
        let group = (state >> 33 & 3) as u32;
        entries.push(entry(
            group,
            from,
            from.wrapping_add(length).wrapping_sub(40),
            place,
        ))?;
    }
    let index = RunIndex::new(rt.alloc(), entries.clone()?)?;
    for _ in 0..200 {
        state = next(state);
        let from = (state >> 40 & 1023) as i64;
        let window = run(from, from.wrapping_add((state >> 58) as i64));
        let group = (state >> 33 & 3) as u32;
        let mut want = Vec::new(rt.alloc());
        for entry in &entries {
            let shared = entry.across.from.max(window.from) < entry.across.to.min(window.to);
            if entry.group == group && shared {
                want.push(entry.along.from)?;
            }
        }
        let found = index.found(rt.alloc(), group, window)?;
        let mut places: Vec<i64> = found.iter().map(|run| run.from).collect(rt.alloc())?;
        places.sort()?;
        same_at(&rt, places, want, from);
    }
    Ok(())
}

// A million entries that each have two cells across, one that has all, and a million windows.
#[test]
fn a_million_entries_and_windows(rt: HostRuntime) -> Result<(), Fail> {
    let mut entries = vec![in rt.alloc(); entry(0, 0, 10_000_000, -1)]?;
    for place in 0..1_000_000_i64 {
        let from = place.wrapping_mul(10);
        entries.push(entry(0, from, from.wrapping_add(2), place))?;
    }
    let index = RunIndex::new(rt.alloc(), entries)?;
    let mut count = 0_usize;
    for place in 0..1_000_000_i64 {
        let from = place.wrapping_mul(10);
        let found = index.found(rt.alloc(), 0, run(from, from.wrapping_add(5)))?;
        count = count.wrapping_add(found.len());
    }
    same(&rt, count, 2_000_000);
    Ok(())
}
