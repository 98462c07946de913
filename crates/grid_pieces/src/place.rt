ghost use Rattle.std.specs.Prelude.{◌↔◌, ◌≡◌, ◌<◌, ◌≤◌, ℕ, IsTrue, IfOk, length, slice_index_or};
ghost use Rattle.grid_pieces.specs.declared.metal.Metal.{Metal};
ghost use Rattle.grid_pieces.specs.inside.Sweep.{Touch, IsSwept, IsSweptTo, NoneBeside, IsFirstPlace};

use crate::metal::Metal;
use crate::open::{Open, beside};
use geom_rect::meets;
use std::alloc::{AllocError, Global};

// Whether two of the metal touch.
pub(crate) fn touch(one: &Metal, other: &Metal) -> bool
    ensures { IsTrue result ↔ Touch one.now other.now }
{
    one.layer == other.layer && meets(one.rect, other.rect)
}

// The least place of metal that touches metal at a later place, or the number of all where there is none. The metal is
// in order.
//
// This sweeps in x. Until the first touch is seen, the open metal lies apart in y: what lies beside the next metal is
// taken out before the next is put in, since it either touches it or ends before it. From then on nothing is put in,
// and what is taken out and touches can only be a lesser place.
pub(crate) fn first_place(alloc: Global, metal: &[Metal]) -> Result<usize, AllocError>
    requires { IsSwept metal.now }
    ensures { IfOk result (IsFirstPlace metal.now) }
{
    let mut lying = Open::new(alloc);
    let mut first = metal.len();
    for at in 0..metal.len() {
        first = close(&mut lying, metal, at, first);
        if first == metal.len() {
            lying.insert(metal[at].rect.y1, at)?;
        }
    }
    Ok(first)
}

// What lies beside `at` is taken out of the open metal. The answer is the least of `first` and the places taken out
// that touch `at`.
fn close(lying: &mut Open, metal: &[Metal], at: usize, first: usize) -> usize
    requires swept { IsSwept metal.now }
    requires within { at < length metal.now }
    requires state { IsSweptTo metal.now lying.old first at }
    ensures state { IsSweptTo metal.now lying.new result at }
    ensures clear { NoneBeside metal.now lying.new at }
{
    let mut first = first;
    while let Some((edge, place)) = beside(lying, metal, at) {
        lying.remove(&edge);
        if touch(&metal[place], &metal[at]) {
            first = first.min(place);
        }
    }
    first
}

// The least place after `first` of metal that touches it, where there is one.
pub(crate) fn second_place(metal: &[Metal], first: usize) -> usize
    requires { first < length metal.now }
    ensures behind { first < result }
    ensures within { result ≤ length metal.now }
    ensures none { (j : ℕ) (d : Metal) → first < j → j < result
        → Touch (slice_index_or metal.now first d) (slice_index_or metal.now j d) → ⊥ }
    ensures touches { (d : Metal) → result < length metal.now
        → Touch (slice_index_or metal.now first d) (slice_index_or metal.now result d) }
{
    let mut at = first + 1;
    while at < metal.len() && !touch(&metal[first], &metal[at]) {
        at += 1;
    }
    at
}
