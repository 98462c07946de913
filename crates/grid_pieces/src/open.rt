ghost use Rattle.std.specs.Prelude.{◌≡◌, ◌<◌, ◌<ℤ◌, ℕ, ℤ, MatchOption, length, slice_index_or};
ghost use Rattle.grid_pieces.specs.declared.metal.Metal.{Metal};
ghost use Rattle.grid_pieces.specs.inside.Sweep.{IsSwept, AreOpen, Has, Beside, NoneBeside, IsBeside, IsLastUpTo};

use crate::metal::Metal;
use std::alloc::Global;
use std::collections::BTreeMap;

// The open metal of a sweep in x: places in a list of metal, by the lower edges of their rectangles. No two of them
// share a y.
pub(crate) type Open = BTreeMap<i64, usize>;

// Open metal that shares a y with the metal at `at`, if there is any: its lower edge and its place.
pub(crate) fn beside(lying: &Open, metal: &[Metal], at: usize) -> Option<(i64, usize)>
    requires swept { IsSwept metal.now }
    requires within { at < length metal.now }
    requires are { AreOpen metal.now lying.now at }
    ensures { MatchOption result (NoneBeside metal.now lying.now at)
        (λ p. IsBeside metal.now lying.now at p.0 p.1) }
{
    let (edge, place) = last_up_to(lying, metal[at].rect.y2)?;
    if metal[place].rect.y2 < metal[at].rect.y1 {
        return None;
    }
    Some((edge, place))
}

// The open metal with the greatest lower edge up to `edge`.
fn last_up_to(lying: &Open, edge: i64) -> Option<(i64, usize)>
    ensures { MatchOption result ((other : ℤ) (place : ℕ) → Has lying.now other place
        → edge <ℤ other) (IsLastUpTo lying.now edge) }
{
    let (last, place) = lying.range(..=edge).next_back()?;
    Some((*last, *place))
}
