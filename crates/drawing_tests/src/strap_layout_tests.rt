use crate::same::{same, same_at};
use entry_list::Entries;
use geom_rect::{Axis, Drawn, Rect, Run, Shape};
use std::alloc::{AllocError, Global};
use std::test::Fail;
use strap_layout::*;

// The strap of a net at a centre, over its reach.
fn strap(net: u32, centre: i64, from: i64, to: i64) -> Drawn {
    Drawn {
        net,
        layer: 3,
        axis: Axis::Y,
        centre,
        width: 4000,
        from,
        to,
        shape: Shape::Stripe,
    }
}

#[test]
fn straps_of_two_nets(rt: HostRuntime) -> Result<(), Fail> {
    let rule = StrapRule {
        layer: 3,
        axis: Axis::Y,
        nets: Entries::new(vec![in rt.alloc(); 8, 5]?),
        width: 4000,
        pitch: 80_000,
        apart: 40_000,
        offset: 20_000,
        number: None,
    };
    let core = Rect {
        x1: 0,
        y1: 0,
        x2: 200_000,
        y2: 100_000,
    };
    let reach = [
        Run {
            from: -170,
            to: 100_170,
        },
        Run {
            from: -9000,
            to: 109_000,
        },
    ];
    let drawn = straps(rt.alloc(), &rule, core, &reach)?;
    let want = [
        strap(8, 20_000, -170, 100_170),
        strap(8, 100_000, -170, 100_170),
        strap(8, 180_000, -170, 100_170),
        strap(5, 60_000, -9000, 109_000),
        strap(5, 140_000, -9000, 109_000),
    ];
    same(&rt, drawn.as_slice(), want.as_slice());
    Ok(())
}

// The nets and centres of horizontal straps, 4000 wide and with 40000 from net to net, over a core from 0 up to `top`.
fn centres(
    alloc: Global,
    nets: &[u32],
    top: i64,
    pitch: i64,
    offset: i64,
    number: Option<u64>,
) -> Result<Vec<(u32, i64)>, AllocError> {
    if pitch < 1 {
        return Ok(Vec::new(alloc));
    }
    let rule = StrapRule {
        layer: 0,
        axis: Axis::X,
        nets: Entries::new(Vec::from_slice(alloc, nets)?),
        width: 4000,
        pitch,
        apart: 40_000,
        offset,
        number,
    };
    let core = Rect {
        x1: 7,
        y1: 0,
        x2: 8,
        y2: top,
    };
    let reach = vec![in alloc; Run { from: 7, to: 8 }; nets.len()]?;
    let drawn = straps(alloc, &rule, core, &reach)?;
    drawn
        .iter()
        .map(|strap| (strap.net, strap.centre))
        .collect(alloc)
}

#[test]
fn lines_that_are_drawn(rt: HostRuntime) -> Result<(), Fail> {
    // The nets, the core's upper edge, the pitch, the offset and the stated number, and what is drawn.
    let cases: [(&str, &[u32], i64, i64, i64, Option<u64>, &[(u32, i64)]); 13] = [
        (
            "the first strap on the core's edge",
            &[0, 1],
            200_000,
            80_000,
            2000,
            None,
            &[
                (0, 2000),
                (0, 82_000),
                (0, 162_000),
                (1, 42_000),
                (1, 122_000),
            ],
        ),
        (
            "the first strap half a unit too low",
            &[0, 1],
            200_000,
            80_000,
            1999,
            None,
            &[(0, 81_999), (0, 161_999), (1, 41_999), (1, 121_999)],
        ),
        (
            "the last strap on the far edge",
            &[0],
            200_000,
            80_000,
            198_000,
            None,
            &[(0, 198_000)],
        ),
        (
            "an offset beyond the core",
            &[0, 1],
            200_000,
            80_000,
            300_000,
            None,
            &[],
        ),
        (
            "an offset before the core",
            &[0, 1],
            200_000,
            80_000,
            -300_000,
            None,
            &[
                (0, 20_000),
                (0, 100_000),
                (0, 180_000),
                (1, 60_000),
                (1, 140_000),
            ],
        ),
        (
            "lines before the core count",
            &[0, 1],
            200_000,
            80_000,
            -300_000,
            Some(5),
            &[(0, 20_000), (1, 60_000)],
        ),
        (
            "a pitch below the width",
            &[7],
            200_000,
            1000,
            2000,
            Some(3),
            &[(7, 2000), (7, 3000), (7, 4000)],
        ),
        ("no net", &[], 200_000, 80_000, 2000, None, &[]),
        ("no line", &[0, 1], 200_000, 80_000, 2000, Some(0), &[]),
        (
            "one line of each",
            &[0, 1],
            200_000,
            80_000,
            2000,
            Some(1),
            &[(0, 2000), (1, 42_000)],
        ),
        (
            "a net twice",
            &[3, 3],
            50_000,
            80_000,
            2000,
            None,
            &[(3, 2000), (3, 42_000)],
        ),
        ("a core without area", &[0], 0, 1, 0, None, &[]),
        (
            "a core of the strap's width",
            &[0],
            4000,
            1,
            -17,
            None,
            &[(0, 2000)],
        ),
    ];
    for (name, nets, top, pitch, offset, number, want) in cases {
        let drawn = centres(rt.alloc(), nets, top, pitch, offset, number)?;
        same_at(&rt, drawn.as_slice(), want, name);
    }
    Ok(())
}

// The core, the offset, the pitch and the distance of the nets go to the ends of their type.
#[test]
fn numbers_up_to_the_ends(rt: HostRuntime) -> Result<(), Fail> {
    let rule = StrapRule {
        layer: 3,
        axis: Axis::Y,
        nets: Entries::new(vec![in rt.alloc(); 0, 1]?),
        width: 2,
        pitch: i64::MAX,
        apart: i64::MIN,
        offset: i64::MAX,
        number: Some(u64::MAX),
    };
    let core = Rect {
        x1: i64::MIN,
        y1: 0,
        x2: i64::MAX,
        y2: 0,
    };
    let reach = [Run { from: 0, to: 0 }, Run { from: 0, to: 0 }];
    let drawn = straps(rt.alloc(), &rule, core, &reach)?;
    let centres: Vec<i64> = drawn.iter().map(|strap| strap.centre).collect(rt.alloc())?;
    let want = [-1, i64::MAX - 1, -2, i64::MAX - 2];
    same(&rt, centres.as_slice(), want.as_slice());
    Ok(())
}

#[test]
fn a_million_lines(rt: HostRuntime) -> Result<(), Fail> {
    let drawn = centres(rt.alloc(), &[0], 1_003_999, 1, -1_000_000, None)?;
    assert!(rt; drawn.len() == 1_000_000);
    same(&rt, drawn[0], (0, 2000));
    same(&rt, drawn[999_999], (0, 1_001_999));
    Ok(())
}

// Whether a rule that draws three lines of each of its two nets draws at most this many.
fn draws_at_most(alloc: Global, most: usize) -> Result<bool, AllocError> {
    let rule = StrapRule {
        layer: 3,
        axis: Axis::Y,
        nets: Entries::new(vec![in alloc; 8, 5]?),
        width: 4000,
        pitch: 80_000,
        apart: 10_000,
        offset: 20_000,
        number: None,
    };
    let core = Rect {
        x1: 0,
        y1: 0,
        x2: 200_000,
        y2: 100_000,
    };
    let reach = [Run { from: 0, to: 1 }, Run { from: 2, to: 3 }];
    match straps_up_to(alloc, &rule, core, &reach, most)? {
        Some(drawn) => Ok(drawn.len() == 6),
        None => Ok(false),
    }
}

#[test]
fn straps_up_to_a_limit(rt: HostRuntime) -> Result<(), Fail> {
    assert!(rt; draws_at_most(rt.alloc(), 6)?);
    assert!(rt; !draws_at_most(rt.alloc(), 5)?);
    assert!(rt; !draws_at_most(rt.alloc(), 0)?);
    Ok(())
}
