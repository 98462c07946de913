//! The first touch.
ghost use Rattle.std.specs.Prelude.{◌≡◌, ◌↔◌, ◌+◌, ◌<◌, All, IsTrue, IfOk, length};
ghost use Rattle.grid_pieces.specs.Limits.{PieceKeeps};
ghost use Rattle.grid_pieces.specs.Touch.{metal, Finds};
ghost use Rattle.plain_drawing.specs.inside.Least.{IsLeast, IsTouchAt, IsTouchTo, TouchInOrder, lesser};

use crate::metal::metal_of;
use crate::order::{comes_after, rect_order};
use geom_rect::meets;
use grid_pieces::{Metal, Piece, StackAt, Touching};
use std::alloc::{AllocError, Global};

/// The first touch of pieces and stacks, by all pairs: what `first_touch` of `grid_pieces` answers.
pub fn first_touch_by_pairs(
    alloc: Global,
    pieces: &[Piece],
    stacks: &[StackAt],
) -> Result<Option<Touching>, AllocError>
    requires { All PieceKeeps pieces.now }
    ensures { IfOk result (Finds (metal pieces.now stacks.now)) }
{
    let all = metal_of(alloc, pieces, stacks)?;
    Ok(least_touch(&all))
}

fn least_touch(all: &[Metal]) -> Option<Touching>
    ensures { Finds all.now result }
{
    let mut least = None;
    for one in 0..all.len() {
        least = with_touches_of(all, one, least);
    }
    least
}

// The least of a touch and of those of the metal at a place.
fn with_touches_of(all: &[Metal], one: usize, least: Option<Touching>) -> Option<Touching>
    requires one { one < length all.now }
    requires least { IsLeast (IsTouchTo all.now one 0) least }
    ensures { IsLeast (IsTouchTo all.now (one + 1) 0) result }
{
    let mut least = least;
    for other in 0..all.len() {
        least = lesser(least, touch_at(all, one, other));
    }
    least
}

// The touch of the metal at two places, the lesser rectangle first.
fn touch_at(all: &[Metal], i: usize, j: usize) -> Option<Touching>
    requires i { i < length all.now }
    requires j { j < length all.now }
    ensures { IsLeast (IsTouchAt all.now i j) result }
{
    if i == j {
        return None;
    }
    if !touch_in_order(all[i], all[j]) {
        return None;
    }
    Some(touch_of(all[i], all[j]))
}

fn touch_in_order(one: Metal, other: Metal) -> bool
    ensures { IsTrue result ↔ TouchInOrder one other }
{
    one.layer == other.layer
        && meets(one.rect, other.rect)
        && !rect_order(one.rect, other.rect).is_gt()
}

fn touch_of(one: Metal, other: Metal) -> Touching
    ensures layer { result.layer ≡ one.layer }
    ensures first { result.first ≡ one.rect }
    ensures second { result.second ≡ other.rect }
    ensures same { IsTrue result.same ↔ (one.net ≡ other.net) }
{
    Touching {
        layer: one.layer,
        first: one.rect,
        second: other.rect,
        same: one.net == other.net,
    }
}

fn lesser(a: Option<Touching>, b: Option<Touching>) -> Option<Touching>
    ensures { result ≡ lesser a b }
{
    match (a, b) {
        (None, b) => b,
        (a, None) => a,
        (Some(a), Some(b)) => Some(if comes_after(a, b) { b } else { a }),
    }
}
