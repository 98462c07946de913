ghost use Rattle.std.specs.Prelude.{◌≡◌, ◌<◌, ◌≤◌, ◌⊎◌, ◌↔◌, ℕ, MatchOption, OnOk};
ghost use Rattle.grid_stacks.specs.inside.Standing.{Lies, IsNextFrom};

use std::alloc::{AllocError, Global};
use std::collections::BTreeSet;

// The upright pieces that a sweep in y has met: their places in a list.
pub(crate) type Lying = BTreeSet<usize>;

// The least place from `from` on.
pub(crate) fn next_from(lying: &Lying, from: usize) -> Option<usize>
    ensures { MatchOption result ((p : ℕ) → Lies lying.now p → p < from) (IsNextFrom lying.now from) }
{
    let next = lying.range(from..).next()?;
    Some(*next)
}

pub(crate) fn put_in(lying: &mut Lying, place: usize) -> Result<(), AllocError>
    ensures there { OnOk result (Lies lying.new place) }
    ensures others { OnOk result ((p : ℕ) → Lies lying.old p → Lies lying.new p) }
{
    lying.insert(place)?;
    Ok(())
}

pub(crate) fn take_out(lying: &mut Lying, place: usize)
    ensures { (p : ℕ) → (p ≡ place → ⊥) → Lies lying.old p → Lies lying.new p }
{
    lying.remove(&place);
}
