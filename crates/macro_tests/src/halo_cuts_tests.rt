//! A stripe from ( 1800 0 ) to ( 2200 10000 ) on the second routing layer, drawn by the first grid.
use crate::same::same_at;
use entry_list::Entries;
use geom_rect::{Axis, Drawn, Rect, Shape};
use halo_cuts::*;
use placed_blocks::PlacedBlock;
use std::alloc::{AllocError, Global};
use std::process::Abort;
use std::test::Fail;

const STRIPE: Drawn = Drawn {
    net: 0,
    layer: 1,
    axis: Axis::Y,
    centre: 2000,
    width: 400,
    from: 0,
    to: 10000,
    shape: Shape::Stripe,
};

// A block that cuts on the second routing layer alone, and reaches from 3000 to 5000 in y with its halo.
fn block(alloc: Global, grid: Option<u32>, x2: i64) -> Result<PlacedBlock, AllocError> {
    let grown = Rect {
        x1: 1000,
        y1: 3000,
        x2,
        y2: 5000,
    };
    Ok(PlacedBlock {
        component: 0,
        outline: grown,
        grown,
        domain: Some(0),
        grid,
        pins: Entries::new(Vec::new(alloc)),
        obstructions: Entries::new(Vec::new(alloc)),
        cuts: Entries::new(vec![in alloc; false, true]?),
    })
}

// How many runs are left of a stripe on this layer, and where the last begins.
fn left(
    rt: &impl Abort,
    alloc: Global,
    block: PlacedBlock,
    layer: u32,
) -> Result<(usize, i64), AllocError> {
    let blocks = vec![in alloc; block]?;
    let shapes = [GridShape {
        grid: 0,
        shape: Drawn { layer, ..STRIPE },
    }];
    let left = cut_shapes(alloc, &blocks, &shapes)?;
    match left.last() {
        Some(last) => Ok((left.len(), last.from)),
        None => panic!(rt; "nothing is left"),
    }
}

#[test]
fn a_stripe_over_halos(rt: HostRuntime) -> Result<(), Fail> {
    let alloc = rt.alloc();
    same_at(
        &rt,
        left(&rt, alloc, block(alloc, Some(1), 1801)?, 1)?,
        (2, 5000),
        "part of its width",
    );
    same_at(
        &rt,
        left(&rt, alloc, block(alloc, None, 4000)?, 1)?,
        (2, 5000),
        "a block without a grid",
    );
    same_at(
        &rt,
        left(&rt, alloc, block(alloc, Some(1), 1800)?, 1)?,
        (1, 0),
        "it touches",
    );
    same_at(
        &rt,
        left(&rt, alloc, block(alloc, Some(0), 4000)?, 1)?,
        (1, 0),
        "its own grid",
    );
    same_at(
        &rt,
        left(&rt, alloc, block(alloc, Some(1), 4000)?, 0)?,
        (1, 0),
        "another layer",
    );
    Ok(())
}
