//! A hundred drawings that are made up: where their stacks stand by the search of `grid_stacks`, and by all pairs.
ghost use Rattle.lef_tech.specs.Limits.{TechKeeps};

use crate::fitting::{TECH, connect_keeps, fitting};
use crate::kept::next;
use crate::same::same_at;
use geom_rect::{Axis, Rect, Shape};
use grid_pieces::{Block, DrawError, Piece, StackAt};
use grid_stacks::{Connect, Site, stacks};
use lef_tech::{LayerRef, Tech, read_tech};
use plain_drawing::sites_by_pairs;
use std::alloc::{AllocError, Global};
use std::test::Fail;

// Where a stack stands: its net, x, y, lowest and highest layer, and its crossing.
type Place = (u32, i64, i64, u32, u32, Rect);

fn of_stack(at: &StackAt) -> Place {
    (at.net, at.x, at.y, at.stack.from, at.stack.to, at.crossing)
}

fn of_site(site: &Site) -> Place {
    (site.net, site.x, site.y, site.from, site.to, site.crossing)
}

// Where stacks of metal1 and metal4 and of metal1 and metal2 stand at 2000 units: by the search, and by all pairs.
fn places_of(
    alloc: Global,
    tech: &Tech,
    pieces: &[Piece],
    blocks: &[Block],
) -> Result<(Vec<Place>, Vec<Place>), DrawError>
    requires { TechKeeps tech.now }
{
    let first = Connect {
        from: 0,
        to: 3,
        max_columns: None,
        max_rows: None,
    };
    let second = Connect {
        max_columns: Some(1),
        ..first
    };
    let third = Connect { to: 1, ..first };
    let kept = fitting(alloc, tech, pieces)?;
    if kept.len() != pieces.len()
        || !connect_keeps(tech, &first)
        || !connect_keeps(tech, &second)
        || !connect_keeps(tech, &third)
    {
        return Err(DrawError::NoRows);
    }
    let connects = [first, second, third];
    let searched = stacks(alloc, tech, &kept, &connects, blocks, 2000)?;
    let paired = sites_by_pairs(alloc, tech, &kept, &connects, blocks)?;
    Ok((
        searched.iter().map(of_stack).collect(alloc)?,
        paired.iter().map(of_site).collect(alloc)?,
    ))
}

// A piece of one of two nets on one of the layers, along the layer's direction, whose centre comes after that of the
// piece before it.
fn made_piece(place: u32, state: u64) -> Piece {
    let bits = state >> 24;
    let layer = (bits % 4) as u32;
    let from = (bits / 16 % 1500) as i64;
    let length = (bits / 65_536 % 4000) as i64;
    Piece {
        net: (bits / 4 % 2) as u32,
        layer,
        axis: if layer % 2 == 0 { Axis::X } else { Axis::Y },
        centre: place as i64 * 400 + (bits / 8 % 300) as i64,
        width: (bits / 4096 % 3) as i64 * 200 + 400,
        from,
        to: from + length + 3000,
        shape: Shape::Stripe,
    }
}

// A blockage of one of the layers from metal1 to metal3, which is not grown.
fn made_block(state: u64) -> Block {
    let bits = state >> 24;
    let x = (bits / 16 % 4000) as i64;
    let y = (bits / 65_536 % 4000) as i64;
    let rect = Rect {
        x1: x,
        y1: y,
        x2: x + 4000,
        y2: y + 3000,
    };
    let layer = match bits % 4 {
        0 => LayerRef::Routing(0),
        1 => LayerRef::Routing(1),
        2 => LayerRef::Cut(1),
        _ => LayerRef::Routing(2),
    };
    Block {
        layer,
        plain: rect,
        grown: rect,
    }
}

#[test]
fn a_hundred_drawings_of_stacks(rt: HostRuntime) -> Result<(), Fail> {
    let alloc = rt.alloc();
    let Ok(tech) = read_tech(alloc, TECH.as_bytes()) else {
        assert!(rt; false, "the technology is read");
        return Ok(());
    };
    let mut state = 20_261_128_u64;
    let mut standing = 0_u64;
    let mut obstructed = 0_u64;
    for round in 0..100_u32 {
        let mut pieces = Vec::new(alloc);
        for place in 0..round % 20 {
            state = next(state);
            pieces.push(made_piece(place, state))?;
        }
        state = next(state);
        let block = made_block(state);
        match (
            places_of(alloc, &tech, &pieces, &[]),
            places_of(alloc, &tech, &pieces, &[block]),
        ) {
            (Ok(free), Ok(blocked)) => {
                same_at(&rt, free.0.as_slice(), free.1.as_slice(), ("round", round));
                same_at(
                    &rt,
                    blocked.0.as_slice(),
                    blocked.1.as_slice(),
                    ("round", round),
                );
                if !free.0.is_empty() {
                    standing = standing.wrapping_add(1);
                }
                if blocked.0.len() < free.0.len() {
                    obstructed = obstructed.wrapping_add(1);
                }
            }
            _ => assert!(rt; false, "round {round}"),
        }
    }
    assert!(rt;
        standing > 30 && obstructed > 3,
        "{standing} with stacks, {obstructed} obstructed"
    );
    Ok(())
}
