use crate::same::{same, same_at};
use geom_rect::*;
use std::alloc::{AllocError, Global};
use std::test::Fail;

fn rect(x1: i64, y1: i64, x2: i64, y2: i64) -> Rect {
    Rect { x1, y1, x2, y2 }
}

#[test]
fn rectangles_that_meet_and_overlap(rt: HostRuntime) {
    let square = rect(0, 0, 10, 10);
    // Another rectangle, whether it shares a point with the square, and whether it shares an area.
    let cases = [
        ("inside", rect(2, 3, 4, 5), true, true),
        ("around", rect(-1, -1, 11, 11), true, true),
        ("crossing", rect(-5, 4, 15, 6), true, true),
        ("one unit in common", rect(9, 9, 20, 20), true, true),
        ("touching at an edge", rect(10, 2, 20, 8), true, false),
        ("touching at a corner", rect(10, 10, 20, 20), true, false),
        ("one unit apart", rect(11, 0, 20, 10), false, false),
        (
            "beside in x and above in y",
            rect(2, 11, 4, 20),
            false,
            false,
        ),
        ("a point inside", rect(5, 5, 5, 5), true, false),
        ("a point on the edge", rect(0, 5, 0, 5), true, false),
        ("a point outside", rect(5, -1, 5, -1), false, false),
        ("a line across", rect(-5, 5, 15, 5), true, false),
        ("a line outside", rect(-5, -1, 15, -1), false, false),
    ];
    for (name, other, meet, overlap) in cases {
        same_at(&rt, meets(square, other), meet, name);
        same_at(&rt, meets(other, square), meet, ("turned round", name));
        same_at(&rt, overlaps(square, other), overlap, name);
        same_at(
            &rt,
            overlaps(other, square),
            overlap,
            ("turned round", name),
        );
    }
}

#[test]
fn a_grown_rectangle(rt: HostRuntime) {
    let small = Rect {
        x1: 0,
        y1: -1,
        x2: 3,
        y2: 4,
    };
    same(&rt, grown(small, 2), rect(-2, -3, 5, 6));
}

// A list of runs of (from, to).
fn list(alloc: Global, ends: &[(i64, i64)]) -> Result<Vec<Run>, AllocError> {
    ends.iter()
        .map(|&(from, to)| Run { from, to })
        .collect(alloc)
}

#[test]
fn runs_and_joins(rt: HostRuntime) -> Result<(), Fail> {
    let cases: [(&str, &[(i64, i64)], &[(i64, i64)], &[(i64, i64)]); 12] = [
        (
            "two that touch, cut",
            &[(0, 5), (5, 9)],
            &[(6, 7)],
            &[(0, 6), (7, 9)],
        ),
        ("nothing covered", &[], &[(0, 5)], &[]),
        ("nothing blocked", &[(3, 4)], &[], &[(3, 4)]),
        (
            "out of order and overlapping",
            &[(6, 9), (0, 4), (2, 7)],
            &[],
            &[(0, 9)],
        ),
        (
            "apart by one cell",
            &[(0, 4), (5, 9)],
            &[],
            &[(0, 4), (5, 9)],
        ),
        ("all blocked", &[(0, 4), (5, 9)], &[(-3, 7), (6, 20)], &[]),
        ("the ends blocked", &[(0, 9)], &[(7, 9), (0, 2)], &[(2, 7)]),
        ("blocked beside", &[(0, 9)], &[(-2, 0), (9, 12)], &[(0, 9)]),
        (
            "a block over two",
            &[(0, 4), (6, 9)],
            &[(3, 7)],
            &[(0, 3), (7, 9)],
        ),
        (
            "blocks that overlap",
            &[(0, 9)],
            &[(2, 6), (3, 4), (5, 7)],
            &[(0, 2), (7, 9)],
        ),
        ("no cell covered", &[(4, 4), (7, 7)], &[], &[]),
        ("no cell blocked", &[(0, 9)], &[(4, 4)], &[(0, 9)]),
    ];
    for (name, covered, blocked, want) in cases {
        let covered = list(rt.alloc(), covered)?;
        let blocked = list(rt.alloc(), blocked)?;
        let want = list(rt.alloc(), want)?;
        let answer = runs(rt.alloc(), &covered, &blocked)?;
        same_at(&rt, answer.as_slice(), want.as_slice(), name);
    }
    Ok(())
}

// Each covered run has ten cells, with ten between it and the next. They stand in falling order, and a blocked run
// takes one cell of each.
#[test]
fn a_million_runs(rt: HostRuntime) -> Result<(), Fail> {
    let mut covered = Vec::new(rt.alloc());
    let mut blocked = Vec::new(rt.alloc());
    let mut from = 20_000_000_i64;
    for _ in 0..1_000_000 {
        covered.push(Run {
            from,
            to: from.wrapping_add(10),
        })?;
        blocked.push(Run {
            from: from.wrapping_add(4),
            to: from.wrapping_add(5),
        })?;
        from = from.wrapping_sub(20);
    }
    let answer = runs(rt.alloc(), &covered, &blocked)?;
    assert!(rt; answer.len() == 2_000_000);
    same(&rt, answer[0], Run { from: 20, to: 24 });
    same(&rt, answer[1], Run { from: 25, to: 30 });
    same(
        &rt,
        answer[1_999_999],
        Run {
            from: 20_000_005,
            to: 20_000_010,
        },
    );
    Ok(())
}
