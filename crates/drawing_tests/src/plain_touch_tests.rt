//! A hundred drawings that are made up: their first touch by the sweep of `grid_pieces` and by all pairs.
use crate::kept::{in_order, keeping, next, stack};
use crate::same::same_at;
use geom_rect::{Axis, Rect, Shape};
use grid_pieces::{Piece, Touching, first_touch};
use plain_drawing::first_touch_by_pairs;
use std::alloc::{AllocError, Global};
use std::test::Fail;

// A piece on one of three layers, of one of two nets, within 40 units of 0.
fn made_piece(state: u64) -> Piece {
    let bits = state >> 24;
    let from = (bits % 40) as i64;
    let length = (bits / 64 % 8) as i64;
    Piece {
        net: (bits / 512 % 2) as u32,
        layer: (bits / 1024 % 3) as u32,
        axis: if bits / 4096 % 2 == 0 {
            Axis::X
        } else {
            Axis::Y
        },
        centre: (bits / 8192 % 40) as i64,
        width: (bits / 524_288 % 3) as i64 * 2 + 2,
        from,
        to: from + length + 1,
        shape: Shape::Stripe,
    }
}

// The layers of a stack, the lower one first, its net and its crossing.
type Made = (u32, u32, u32, Rect);

fn made_stack(state: u64) -> Made {
    let bits = state >> 24;
    let x = (bits % 40) as i64;
    let y = (bits / 64 % 40) as i64;
    let from = (bits / 4096 % 2) as u32;
    let rect = Rect {
        x1: x,
        y1: y,
        x2: x + 3,
        y2: y + 2,
    };
    (
        (bits / 8192 % 2) as u32,
        from,
        from + 1 + (bits / 16384 % 3) as u32,
        rect,
    )
}

// The first touch of the pieces and two stacks: by the sweep, and by all pairs.
fn touches_of(
    alloc: Global,
    pieces: &[Piece],
    one: Made,
    other: Made,
) -> Result<(Option<Touching>, Option<Touching>), AllocError> {
    let kept = keeping(alloc, pieces)?;
    let stacks = [
        stack(alloc, one.0, one.1, one.2, in_order(one.3)),
        stack(alloc, other.0, other.1, other.2, in_order(other.3)),
    ];
    let swept = first_touch(alloc, &kept, &stacks)?;
    let paired = first_touch_by_pairs(alloc, &kept, &stacks)?;
    Ok((swept, paired))
}

#[test]
fn a_hundred_drawings(rt: HostRuntime) -> Result<(), Fail> {
    let mut state = 20_261_128_u64;
    let mut touching = 0_u64;
    for round in 0..100_u64 {
        let mut pieces = Vec::new(rt.alloc());
        for _ in 0..round % 13 {
            state = next(state);
            pieces.push(made_piece(state))?;
        }
        state = next(state);
        let one = made_stack(state);
        state = next(state);
        let other = made_stack(state);
        let (swept, paired) = touches_of(rt.alloc(), &pieces, one, other)?;
        same_at(&rt, swept, paired, ("round", round));
        if swept.is_some() {
            touching = touching.wrapping_add(1);
        }
    }
    assert!(rt; touching > 10 && touching < 90, "{touching} drawings touch");
    Ok(())
}
