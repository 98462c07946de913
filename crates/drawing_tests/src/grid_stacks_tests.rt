//! The small design, crossings at their edges, refusals in their order, and grids of a million pieces.
ghost use Rattle.lef_tech.specs.Limits.{TechKeeps};

use crate::fitting::{TECH, connect_keeps, fitting, same_axis};
use crate::same::{same, same_at};
use geom_rect::{Axis, Rect, Shape};
use grid_pieces::{Block, Counted, DrawError, Piece, StackAt};
use grid_stacks::{Connect, stacks};
use lef_tech::{LayerRef, Tech, read_tech};
use std::alloc::{AllocError, Global};
use std::test::Fail;
use via_arrays::StackError;

// The stacks of metal1 and metal4, at 2000 units; a second connect of the same layers, which allows one column, is not
// used.
fn stacks_of(
    alloc: Global,
    tech: &Tech,
    pieces: &[Piece],
    blocks: &[Block],
) -> Result<Vec<StackAt>, DrawError>
    requires { TechKeeps tech.now }
{
    let connect = Connect {
        from: 0,
        to: 3,
        max_columns: None,
        max_rows: None,
    };
    let second = Connect {
        max_columns: Some(1),
        ..connect
    };
    let kept = fitting(alloc, tech, pieces)?;
    if kept.len() != pieces.len()
        || !connect_keeps(tech, &connect)
        || !connect_keeps(tech, &second)
    {
        return Err(DrawError::NoRows);
    }
    stacks(alloc, tech, &kept, &[connect, second], blocks, 2000)
}

fn rail(net: u32, centre: i64) -> Piece {
    Piece {
        net,
        layer: 0,
        axis: Axis::X,
        centre,
        width: 340,
        from: 0,
        to: 8000,
        shape: Shape::FollowPin,
    }
}

fn strap(net: u32, centre: i64) -> Piece {
    Piece {
        net,
        layer: 3,
        axis: Axis::Y,
        centre,
        width: 960,
        from: -170,
        to: 2970,
        shape: Shape::Stripe,
    }
}

// A blockage that is not grown; grown it lies over everything.
fn block(layer: LayerRef, x1: i64, y1: i64, x2: i64, y2: i64) -> Block {
    let far = 1 << 60;
    Block {
        layer,
        plain: Rect { x1, y1, x2, y2 },
        grown: Rect {
            x1: -far,
            y1: -far,
            x2: far,
            y2: far,
        },
    }
}

// The places of the stacks, of net, x and y.
fn places_of(alloc: Global, stacks: &[StackAt]) -> Result<Vec<(u32, i64, i64)>, AllocError> {
    stacks.iter().map(|at| (at.net, at.x, at.y)).collect(alloc)
}

#[test]
fn stacks_of_the_small_design(rt: HostRuntime) -> Result<(), Fail> {
    let alloc = rt.alloc();
    let Ok(tech) = read_tech(alloc, TECH.as_bytes()) else {
        assert!(rt; false, "the technology is read");
        return Ok(());
    };
    let pieces = [rail(1, 0), strap(1, 2000), rail(0, 2800), strap(0, 6000)];
    let both: &[(u32, i64, i64)] = &[(0, 6000, 2800), (1, 2000, 0)];
    // A blockage, and where stacks stand.
    let cases = [
        ("none", block(LayerRef::Cut(9), 0, 0, 8000, 2800), both),
        (
            "inside",
            block(LayerRef::Routing(1), 1900, -10, 2100, 10),
            &both[..1],
        ),
        (
            "inside, a cut layer",
            block(LayerRef::Cut(2), 1900, -10, 2100, 10),
            &both[..1],
        ),
        (
            "at a corner",
            block(LayerRef::Cut(0), 6479, 2969, 6500, 3000),
            &both[1..],
        ),
        (
            "beside a corner",
            block(LayerRef::Cut(0), 6480, 2970, 6500, 3000),
            both,
        ),
        (
            "on the lower layer",
            block(LayerRef::Routing(0), 1900, -10, 2100, 10),
            both,
        ),
        (
            "on the upper layer",
            block(LayerRef::Routing(3), 1900, -10, 2100, 10),
            both,
        ),
        (
            "over both",
            block(LayerRef::Routing(2), 0, -170, 8000, 2970),
            &[],
        ),
    ];
    for (what, block, want) in cases {
        match stacks_of(alloc, &tech, &pieces, &[block]) {
            Ok(found) => {
                same_at(&rt, places_of(alloc, &found)?.as_slice(), want, what);
                for at in &found {
                    let arrays = at.stack.arrays.as_slice();
                    same_at(&rt, arrays.len(), 3, what);
                    let count = arrays.first().map(|array| (array.columns, array.rows));
                    same_at(&rt, count, Some((3, 1)), what);
                }
            }
            Err(_) => assert!(rt; false, "{what}"),
        }
    }
    Ok(())
}

#[test]
fn crossings_at_their_edges(rt: HostRuntime) -> Result<(), Fail> {
    let alloc = rt.alloc();
    let Ok(tech) = read_tech(alloc, TECH.as_bytes()) else {
        assert!(rt; false, "the technology is read");
        return Ok(());
    };
    // Where the rail at 0 begins and ends, where the strap at 2000 does, and whether a stack stands.
    let cases = [
        (1520, 2480, -170, 170, true),
        (1521, 2480, -170, 170, false),
        (1520, 2479, -170, 170, false),
        (1520, 2480, -169, 170, false),
        (1520, 2480, -170, 169, false),
        (-9000, 9000, -9000, 9000, true),
        (2480, 9000, -170, 170, false),
    ];
    for (from, to, low, high, want) in cases {
        let flat = Piece {
            from,
            to,
            ..rail(0, 0)
        };
        let upright = Piece {
            from: low,
            to: high,
            ..strap(0, 2000)
        };
        match stacks_of(alloc, &tech, &[flat, upright], &[]) {
            Ok(found) => same_at(&rt, !found.is_empty(), want, (from, to, low, high)),
            Err(_) => assert!(rt; false, "{from} {to} {low} {high}"),
        }
    }
    Ok(())
}

#[test]
fn refusals_in_their_order(rt: HostRuntime) -> Result<(), Fail> {
    let alloc = rt.alloc();
    let Ok(tech) = read_tech(alloc, TECH.as_bytes()) else {
        assert!(rt; false, "the technology is read");
        return Ok(());
    };
    // Too narrow for a cut.
    let narrow = |piece: Piece| Piece {
        width: 200,
        ..piece
    };
    let on_metal5 = Piece {
        layer: 4,
        ..rail(2, 9000)
    };
    let first = [
        narrow(rail(1, 0)),
        strap(1, 2000),
        narrow(rail(0, 2800)),
        strap(0, 6000),
    ];
    match stacks_of(alloc, &tech, &first, &[]) {
        Err(DrawError::Stack(error, x, y)) => {
            same(&rt, (error, x, y), (StackError::NoCutFits(0), 6000, 2800));
        }
        _ => assert!(rt; false, "no cut fits"),
    }
    match stacks_of(alloc, &tech, &[first[0], first[1], on_metal5], &[]) {
        Err(DrawError::NoSheet(layer)) => same(&rt, layer, 4),
        _ => assert!(rt; false, "a layer has no sheet resistance"),
    }
    Ok(())
}

// The places by all pairs.
fn by_all_pairs(
    alloc: Global,
    pieces: &[Piece],
    blocks: &[Block],
) -> Result<Vec<(u32, i64, i64)>, AllocError> {
    let mut places = Vec::new(alloc);
    for flat in pieces {
        for upright in pieces {
            if stands(flat, upright, blocks) {
                places.push((flat.net, upright.centre, flat.centre))?;
            }
        }
    }
    places.sort()?;
    Ok(places)
}

// Whether a stack stands at a crossing of the two.
fn stands(flat: &Piece, upright: &Piece, blocks: &[Block]) -> bool {
    let low = flat.centre.wrapping_sub(flat.width / 2);
    let high = flat.centre.wrapping_add(flat.width / 2);
    let left = upright.centre.wrapping_sub(upright.width / 2);
    let right = upright.centre.wrapping_add(upright.width / 2);
    for block in blocks {
        let r = block.plain;
        if r.x1 < right && left < r.x2 && r.y1 < high && low < r.y2 {
            return false;
        }
    }
    same_axis(flat.axis, Axis::X)
        && same_axis(upright.axis, Axis::Y)
        && flat.net == upright.net
        && flat.from <= left
        && right <= flat.to
        && upright.from <= low
        && high <= upright.to
}

// The next state of a generator of numbers.
fn next(state: u64) -> u64 {
    state
        .wrapping_mul(6_364_136_223_846_793_005)
        .wrapping_add(1_442_695_040_888_963_407)
}

// Rails and straps, each with its centre after that of the one before, and blockages between their layers.
fn small_grid(alloc: Global, state: &mut u64) -> Result<(Vec<Piece>, Vec<Block>), AllocError> {
    let mut pieces = Vec::new(alloc);
    let mut blocks = Vec::new(alloc);
    let mut centre = 0_i64;
    for k in 0..16 {
        *state = next(*state);
        let bits = *state >> 33;
        let from = (bits % 12) as i64 * 1000 - 500;
        let length = (bits / 16 % 40) as i64;
        let net = (bits / 1024 % 2) as u32;
        centre = centre.wrapping_add((bits / 4096 % 900) as i64 + 1);
        let piece = if bits / 2048 % 2 == 0 {
            rail(net, centre)
        } else {
            strap(net, centre)
        };
        pieces.push(Piece {
            from,
            to: from + 1000 + length * 200,
            ..piece
        })?;
        if k % 4 == 0 {
            blocks.push(block(
                LayerRef::Cut(1),
                from,
                length * 150,
                from + 900,
                length * 150 + 700,
            ))?;
        }
    }
    Ok((pieces, blocks))
}

#[test]
fn small_grids_as_by_all_pairs(rt: HostRuntime) -> Result<(), Fail> {
    let alloc = rt.alloc();
    let Ok(tech) = read_tech(alloc, TECH.as_bytes()) else {
        assert!(rt; false, "the technology is read");
        return Ok(());
    };
    let mut state = 7_u64;
    let mut total = 0_usize;
    for round in 0..300 {
        let (pieces, blocks) = small_grid(alloc, &mut state)?;
        match stacks_of(alloc, &tech, &pieces, &blocks) {
            Ok(found) => {
                total = total.wrapping_add(found.len());
                let found = places_of(alloc, &found)?;
                same_at(
                    &rt,
                    found,
                    by_all_pairs(alloc, &pieces, &blocks)?,
                    ("round", round),
                );
            }
            Err(_) => assert!(rt; false, "round {round}"),
        }
    }
    assert!(rt; total > 300, "{total} stacks");
    Ok(())
}

// This many pieces like the first, each with its centre 1000 units after that of the one before.
fn row(pieces: &mut Vec<Piece>, first: Piece, count: usize) -> Result<(), AllocError> {
    let mut centre = first.centre;
    for _ in 0..count {
        pieces.push(Piece { centre, ..first })?;
        centre = centre.wrapping_add(1000);
    }
    Ok(())
}

#[test]
fn half_a_million_by_half_a_million(rt: HostRuntime) -> Result<(), Fail> {
    let alloc = rt.alloc();
    let Ok(tech) = read_tech(alloc, TECH.as_bytes()) else {
        assert!(rt; false, "the technology is read");
        return Ok(());
    };
    let span = |piece: Piece| Piece {
        width: 400,
        from: 0,
        to: 1000,
        ..piece
    };
    let mut pieces = Vec::new(alloc);
    row(&mut pieces, span(rail(0, 0)), 500_000)?;
    row(&mut pieces, span(strap(0, 1_000_000_000)), 500_000)?;
    match stacks_of(alloc, &tech, &pieces, &[]) {
        Ok(found) => assert!(rt; found.len() == 0),
        Err(_) => assert!(rt; false, "no stack is refused"),
    }
    Ok(())
}

#[test]
fn more_than_a_million_stacks(rt: HostRuntime) -> Result<(), Fail> {
    let alloc = rt.alloc();
    let Ok(tech) = read_tech(alloc, TECH.as_bytes()) else {
        assert!(rt; false, "the technology is read");
        return Ok(());
    };
    let long = |piece: Piece| Piece {
        from: -1_000,
        to: 20_000_000,
        ..piece
    };
    let mut pieces = Vec::new(alloc);
    row(&mut pieces, long(rail(0, 0)), 1001)?;
    row(&mut pieces, long(strap(0, 10_000_000)), 1000)?;
    match stacks_of(alloc, &tech, &pieces, &[]) {
        Err(DrawError::TooMany(counted)) => same(&rt, counted, Counted::Stacks),
        _ => assert!(rt; false, "too many stacks stand"),
    }
    Ok(())
}
