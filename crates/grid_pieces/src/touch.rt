ghost use Rattle.std.specs.Prelude.{◌≡◌, ◌↔◌, All, IfOk, IsTrue};
ghost use Rattle.std.specs.Bool.{MatchBool};
ghost use Rattle.std.specs.List.Sorted.{IsPermutation};
ghost use Rattle.geom_rect.specs.Rect.{IsInOrder};
ghost use Rattle.grid_pieces.specs.declared.metal.Metal.{Metal};
ghost use Rattle.grid_pieces.specs.inside.Sweep.{AreInOrder, AreLeast, IsTwin, OneNet, OtherNet};
ghost use Rattle.grid_pieces.specs.Limits.{PieceKeeps, StackKeeps};
ghost use Rattle.grid_pieces.specs.Touch.{metal, IsFirstTouch, Finds};

use crate::metal::{Metal, metal_of};
use crate::piece::{Piece, StackAt};
use crate::place::{first_place, second_place};
use geom_rect::Rect;
use std::alloc::{AllocError, Global};

/// Two rectangles of metal that touch on a layer, the lesser first, and whether they are of one net.
#[derive(Clone, Copy, Debug, PartialEq, Eq)]
pub struct Touching {
    pub layer: u32,
    pub first: Rect,
    pub second: Rect,
    pub same: bool,
}

/// The first touch of two different pieces on one layer, of a piece and a stack on a layer strictly inside the stack,
/// or of two different stacks on a layer strictly inside both. None where nothing touches.
pub fn first_touch(
    alloc: Global,
    pieces: &[Piece],
    stacks: &[StackAt],
) -> Result<Option<Touching>, AllocError>
    requires pieces { All PieceKeeps pieces.now }
    requires stacks { All StackKeeps stacks.now }
    ensures { IfOk result (Finds (metal pieces.now stacks.now)) }
{
    let mut metal = metal_of(alloc, pieces, stacks)?;
    sort(&mut metal);
    first_in_order(alloc, &metal)
}

fn sort(metal: &mut [Metal])
    ensures same { IsPermutation metal.old metal.new }
    ensures in_order { AreInOrder metal.new }
{
    metal.sort_unstable_by_key(|m| (m.layer, m.rect.x1, m.rect.y1, m.rect.x2, m.rect.y2));
}

// The first touch in metal that is in order.
fn first_in_order(alloc: Global, metal: &[Metal]) -> Result<Option<Touching>, AllocError>
    requires upright { All (λ (m : Metal). IsInOrder m.rect) metal.now }
    requires in_order { AreInOrder metal.now }
    ensures { IfOk result (Finds metal.now) }
{
    let first = first_place(alloc, metal)?;
    if first == metal.len() {
        return Ok(None);
    }
    let second = second_place(metal, first);
    Ok(Some(touch_at(metal, first, second)))
}

// The touch of the metal at two places, of which the first is the least that touches a later one, and the second the
// least later one that it touches.
fn touch_at(metal: &[Metal], first: usize, second: usize) -> Touching
    requires upright { All (λ (m : Metal). IsInOrder m.rect) metal.now }
    requires in_order { AreInOrder metal.now }
    requires places { AreLeast metal.now first second }
    ensures { IsFirstTouch metal.now result }
{
    let one = metal[first];
    let second = metal[second].rect;
    Touching {
        layer: one.layer,
        first: one.rect,
        second,
        same: one_net(metal, one, second),
    }
}

// Whether all metal with the rectangle of `one` on its layer, or with this second rectangle there, is of its net.
fn one_net(metal: &[Metal], one: Metal, second: Rect) -> bool
    ensures { MatchBool result (OneNet metal.now one second) (OtherNet metal.now one second) }
{
    for m in metal {
        if is_twin(m, one, second) && m.net != one.net {
            return false;
        }
    }
    true
}

fn is_twin(m: &Metal, one: Metal, second: Rect) -> bool
    ensures { IsTrue result ↔ IsTwin m.now one second }
{
    m.layer == one.layer && (same_rect(m.rect, one.rect) || same_rect(m.rect, second))
}

fn same_rect(a: Rect, b: Rect) -> bool
    ensures { IsTrue result ↔ (a ≡ b) }
{
    a.x1 == b.x1 && a.y1 == b.y1 && a.x2 == b.x2 && a.y2 == b.y2
}
