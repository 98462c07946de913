//! Pieces of straps and rails, their touches, and lists of a million of them.
ghost use Rattle.std.specs.Prelude.{◌≡◌, ◌↔◌, All, IfOk, IsTrue};
ghost use Rattle.grid_pieces.specs.Limits.{DrawnKeeps, OneAxis};

use crate::kept::{in_order, keeping, stack};
use crate::same::{same, same_at};
use geom_rect::{Axis, Drawn, Rect, Shape, meets};
use grid_pieces::*;
use lef_tech::LayerRef;
use std::alloc::{AllocError, Global};
use std::test::Fail;

fn rect(x1: i64, y1: i64, x2: i64, y2: i64) -> Rect {
    Rect { x1, y1, x2, y2 }
}

// A vertical stripe of width 960 on layer 3, as in the small design.
fn strap(net: u32, centre: i64) -> Drawn {
    Drawn {
        net,
        layer: 3,
        axis: Axis::Y,
        centre,
        width: 960,
        from: -170,
        to: 2970,
        shape: Shape::Stripe,
    }
}

fn rail(net: u32, centre: i64) -> Drawn {
    Drawn {
        net,
        layer: 0,
        axis: Axis::X,
        centre,
        width: 340,
        from: 0,
        to: 8000,
        shape: Shape::FollowPin,
    }
}

fn piece(shape: Drawn, from: i64, to: i64) -> Piece {
    Piece {
        net: shape.net,
        layer: shape.layer,
        axis: shape.axis,
        centre: shape.centre,
        width: shape.width,
        from,
        to,
        shape: shape.shape,
    }
}

fn blocked(layer: u32, plain: Rect, grown: Rect) -> Block {
    Block {
        layer: LayerRef::Routing(layer),
        plain,
        grown,
    }
}

fn is_along(shape: &Drawn, axis: Axis) -> bool
    ensures { IsTrue result ↔ (shape.now.axis ≡ axis) }
{
    shape.axis == axis
}

// Whether the shape keeps what is asked of shapes, with its coordinates within 2^60 of 0.
fn drawn_keeps(shape: &Drawn) -> bool
    ensures { IsTrue result → DrawnKeeps shape.now }
{
    let far = 1 << 60;
    if shape.width < 2 || shape.width >= 1 << 32 || shape.from > shape.to {
        return false;
    }
    if shape.centre < -far || shape.centre > far {
        return false;
    }
    shape.from >= -far && shape.to <= far
}

// The shapes along the axis that keep what is asked of shapes.
fn drawn_keeping(alloc: Global, axis: Axis, shapes: &[Drawn]) -> Result<Vec<Drawn>, AllocError>
    ensures keep { IfOk result (λ kept. All DrawnKeeps kept.items) }
    ensures one_axis { IfOk result (λ kept. OneAxis kept.items) }
{
    let mut kept = Vec::new(alloc);
    for shape in shapes {
        if is_along(shape, axis) && drawn_keeps(shape) {
            kept.push(*shape)?;
        }
    }
    Ok(kept)
}

// The pieces of those of the shapes.
fn pieces_along(
    alloc: Global,
    axis: Axis,
    shapes: &[Drawn],
    blocks: &[Block],
) -> Result<Vec<Piece>, AllocError> {
    let kept = drawn_keeping(alloc, axis, shapes)?;
    pieces(alloc, &kept, blocks)
}

#[test]
fn straps_cut_by_blockages(rt: HostRuntime) -> Result<(), Fail> {
    let shapes = [strap(1, 6000), strap(0, 2000)];
    let ground = piece(strap(0, 2000), -170, 2970);
    let power = piece(strap(1, 6000), -170, 2970);
    let across_power = blocked(
        3,
        rect(5900, 1300, 6100, 1500),
        rect(5620, 1020, 6380, 1780),
    );
    let at_ground = blocked(3, rect(1600, -50, 1700, 50), rect(1320, -330, 1980, 330));
    let beside = blocked(3, rect(1000, 0, 1240, 100), rect(720, -280, 1520, 380));
    let other = blocked(1, rect(1900, -10, 2100, 10), rect(1760, -150, 2240, 150));
    let cut = Block {
        layer: LayerRef::Cut(3),
        plain: rect(0, 0, 8000, 2800),
        grown: rect(0, 0, 8000, 2800),
    };
    let none = pieces_along(rt.alloc(), Axis::Y, &shapes, &[])?;
    same(&rt, none.as_slice(), [ground, power].as_slice());
    let one = pieces_along(rt.alloc(), Axis::Y, &shapes, &[across_power])?;
    same(
        &rt,
        one.as_slice(),
        [
            ground,
            piece(strap(1, 6000), -170, 1020),
            piece(strap(1, 6000), 1780, 2970),
        ]
        .as_slice(),
    );
    let end = pieces_along(rt.alloc(), Axis::Y, &shapes, &[at_ground])?;
    same(
        &rt,
        end.as_slice(),
        [piece(strap(0, 2000), 330, 2970), power].as_slice(),
    );
    let passed = pieces_along(rt.alloc(), Axis::Y, &shapes, &[beside, other, cut])?;
    same(&rt, passed.as_slice(), [ground, power].as_slice());
    Ok(())
}

#[test]
fn rails_share_an_edge(rt: HostRuntime) -> Result<(), Fail> {
    let turned = [rail(0, 0), rail(1, 2800), rail(1, 2800), rail(0, 5600)];
    let kept = pieces_along(rt.alloc(), Axis::X, &turned, &[])?;
    same(
        &rt,
        kept.as_slice(),
        [
            piece(rail(0, 0), 0, 8000),
            piece(rail(0, 5600), 0, 8000),
            piece(rail(1, 2800), 0, 8000),
        ]
        .as_slice(),
    );
    same(
        &rt,
        first_touch(rt.alloc(), &keeping(rt.alloc(), &kept)?, &[])?,
        None,
    );
    let alike = [rail(0, 0), rail(1, 2800), rail(0, 2800), rail(1, 5600)];
    let kept = pieces_along(rt.alloc(), Axis::X, &alike, &[])?;
    let shared = rect(0, 2630, 8000, 2970);
    let touching = Touching {
        layer: 0,
        first: shared,
        second: shared,
        same: false,
    };
    same(
        &rt,
        first_touch(rt.alloc(), &keeping(rt.alloc(), &kept)?, &[])?,
        Some(touching),
    );
    Ok(())
}

#[test]
fn the_first_kind_of_a_piece(rt: HostRuntime) -> Result<(), Fail> {
    let stripe = rail(0, 0);
    let shapes = [
        rail(0, 0),
        Drawn {
            from: 2000,
            to: 9000,
            shape: Shape::Stripe,
            ..stripe
        },
        Drawn {
            from: 12000,
            to: 13000,
            shape: Shape::Ring,
            ..stripe
        },
        Drawn {
            from: 9000,
            to: 12000,
            ..stripe
        },
    ];
    let whole = pieces_along(rt.alloc(), Axis::X, &shapes, &[])?;
    let one = Piece {
        shape: Shape::Ring,
        ..piece(stripe, 0, 13000)
    };
    same(&rt, whole.as_slice(), [one].as_slice());
    let block = blocked(0, rect(0, 0, 0, 0), rect(1000, -500, 2000, 500));
    let last = blocked(0, rect(0, 0, 0, 0), rect(9000, 160, 12000, 500));
    let parts = pieces_along(rt.alloc(), Axis::X, &shapes, &[block, last])?;
    let rail = piece(stripe, 0, 1000);
    let middle = Piece {
        shape: Shape::Stripe,
        ..piece(stripe, 2000, 9000)
    };
    let ring = Piece {
        shape: Shape::Ring,
        ..piece(stripe, 12000, 13000)
    };
    same(&rt, parts.as_slice(), [rail, middle, ring].as_slice());
    Ok(())
}

// A list of pieces on a layer, each from its rectangle's left to its right edge.
fn flat(alloc: Global, list: &[(u32, u32, Rect)]) -> Result<Vec<Piece>, AllocError> {
    list.iter()
        .map(|&(net, layer, r)| Piece {
            net,
            layer,
            axis: Axis::X,
            centre: r.y1.wrapping_add(r.y2) / 2,
            width: r.y2.wrapping_sub(r.y1),
            from: r.x1,
            to: r.x2,
            shape: Shape::Stripe,
        })
        .collect(alloc)
}

#[test]
fn stacks_touch_strictly_inside(rt: HostRuntime) -> Result<(), Fail> {
    let here = rect(0, 0, 10, 10);
    let one = (0, 1, 4, here);
    let apart = (1, 0, 2, rect(100, 10, 120, 20));
    // a piece's layer and rectangle, and where the first stack touches it
    let cases = [
        ("at the lower end", 1, here, None),
        ("at the upper end", 4, here, None),
        ("inside", 2, here, Some((here, here))),
        (
            "inside, at a corner",
            3,
            rect(-4, -4, 0, 0),
            Some((rect(-4, -4, 0, 0), here)),
        ),
        ("inside, apart", 3, rect(-4, -4, -1, 0), None),
    ];
    for (name, layer, r, want) in cases {
        let pieces = flat(rt.alloc(), &[(0, layer, r)])?;
        let found = touch_of_two(rt.alloc(), &pieces, one, apart)?.map(|t| (t.first, t.second));
        same_at(&rt, found, want, name);
    }
    let corner = rect(10, 10, 20, 20);
    let between = Touching {
        layer: 3,
        first: here,
        second: corner,
        same: false,
    };
    same(
        &rt,
        touch_of_two(rt.alloc(), &[], one, (1, 2, 4, corner))?,
        Some(between),
    );
    Ok(())
}

// The first touch of the pieces and two stacks, whose crossings are put in order.
fn touch_of_two(
    alloc: Global,
    pieces: &[Piece],
    one: (u32, u32, u32, Rect),
    other: (u32, u32, u32, Rect),
) -> Result<Option<Touching>, AllocError> {
    let kept = keeping(alloc, pieces)?;
    let stacks = [
        stack(alloc, one.0, one.1, one.2, in_order(one.3)),
        stack(alloc, other.0, other.1, other.2, in_order(other.3)),
    ];
    first_touch(alloc, &kept, &stacks)
}

// The first touch by all pairs.
fn by_all_pairs(pieces: &[Piece]) -> Option<(u32, Rect, Rect, bool)> {
    let mut best = None;
    for (i, a) in pieces.iter().enumerate() {
        for b in &pieces[..i] {
            let one = rect(
                a.from,
                a.centre.wrapping_sub(a.width / 2),
                a.to,
                a.centre.wrapping_add(a.width / 2),
            );
            let other = rect(
                b.from,
                b.centre.wrapping_sub(b.width / 2),
                b.to,
                b.centre.wrapping_add(b.width / 2),
            );
            if a.layer == b.layer && meets(one, other) {
                let found = (a.layer, one.min(other), one.max(other), a.net == b.net);
                best = match best {
                    Some(least) if least < found => Some(least),
                    _ => Some(found),
                };
            }
        }
    }
    best
}

#[test]
fn the_same_as_by_all_pairs(rt: HostRuntime) -> Result<(), Fail> {
    let mut seed = 12345_u64;
    let mut touches = 0_u64;
    for round in 0..3000_u64 {
        let mut list = Vec::new(rt.alloc());
        for _ in 0..round % 12 {
            seed = seed
                .wrapping_mul(6364136223846793005)
                .wrapping_add(1442695040888963407);
            let bits = seed >> 24;
            let x = (bits % 32) as i64;
            let y = (bits / 32 % 32) as i64;
            let w = (bits / 1024 % 8) as i64;
            let h = (bits / 8192 % 8) as i64;
            let net = (bits / 65536 % 2) as u32;
            let layer = (bits / 131072 % 2) as u32;
            list.push((net, layer, rect(x, 2 * y, x + w + 1, 2 * y + 2 * (h + 1))))?;
        }
        let pieces = flat(rt.alloc(), &list)?;
        let found = first_touch(rt.alloc(), &keeping(rt.alloc(), &pieces)?, &[])?.map(|t| (
            t.layer, t.first, t.second, t.same,
        ));
        same_at(&rt, found, by_all_pairs(&pieces), ("round", round));
        if found.is_some() {
            touches = touches.wrapping_add(1);
        }
    }
    assert!(rt; touches > 500 && touches < 2800, "{touches} touches");
    Ok(())
}

#[test]
fn a_million_pieces_apart(rt: HostRuntime) -> Result<(), Fail> {
    let mut pieces = Vec::new(rt.alloc());
    let mut centre = 0_i64;
    for _ in 0..1_000_000 {
        pieces.push(Piece {
            net: 0,
            layer: 3,
            axis: Axis::X,
            centre,
            width: 400,
            from: 0,
            to: 1000,
            shape: Shape::Stripe,
        })?;
        centre = centre.wrapping_add(1000);
    }
    same(
        &rt,
        first_touch(rt.alloc(), &keeping(rt.alloc(), &pieces)?, &[])?,
        None,
    );
    Ok(())
}

// A million straps over the whole width, of which a last one touches the first at its right end.
#[test]
fn a_million_long_pieces(rt: HostRuntime) -> Result<(), Fail> {
    let mut pieces = Vec::new(rt.alloc());
    let mut centre = 0_i64;
    let first = Piece {
        net: 0,
        layer: 3,
        axis: Axis::X,
        centre,
        width: 400,
        from: 0,
        to: 1_000_000_000,
        shape: Shape::Stripe,
    };
    for _ in 0..1_000_000 {
        pieces.push(Piece { centre, ..first })?;
        centre = centre.wrapping_add(1000);
    }
    let end = Piece {
        net: 1,
        centre: 400,
        from: 1_000_000_000,
        to: 1_000_000_001,
        ..first
    };
    pieces.push(end)?;
    let touching = Touching {
        layer: 3,
        first: rect(0, -200, 1_000_000_000, 200),
        second: rect(1_000_000_000, 200, 1_000_000_001, 600),
        same: false,
    };
    same(
        &rt,
        first_touch(rt.alloc(), &keeping(rt.alloc(), &pieces)?, &[])?,
        Some(touching),
    );
    Ok(())
}

// A million lines of one layer and a million blockages of this layer, each over the middle of one line, and one over
// the ends of all.
#[test]
fn a_million_lines_and_blockages(rt: HostRuntime) -> Result<(), Fail> {
    let mut shapes = Vec::new(rt.alloc());
    let over_all = rect(900, -1000, 1000, 1_000_000_000);
    let mut blocks = vec![in rt.alloc(); blocked(0, over_all, over_all)]?;
    let mut centre = 0_i64;
    for _ in 0..1_000_000 {
        shapes.push(Drawn {
            centre,
            width: 400,
            to: 1000,
            ..rail(0, 0)
        })?;
        let middle = rect(400, centre, 500, centre.wrapping_add(200));
        blocks.push(blocked(0, middle, middle))?;
        centre = centre.wrapping_add(1000);
    }
    let kept = pieces_along(rt.alloc(), Axis::X, &shapes, &blocks)?;
    assert!(rt; kept.len() == 2_000_000);
    let ends = kept.last().map(|piece| (piece.from, piece.to));
    same(&rt, ends, Some((500, 900)));
    Ok(())
}
