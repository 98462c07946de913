ghost use Rattle.std.specs.Prelude.{◌↔◌, ◌<◌, ◌≤◌, ℕ, IsTrue, length};
ghost use Rattle.wire_chains.specs.inside.Run.{AreLevel, GoesOn, via_of};

use crate::via::{ViaAt, is_joined, lies_on};

// The place after the vias from `from` on that stand together with it on one layer.
pub(crate) fn level_end(all: &[ViaAt], from: usize) -> usize
    requires { from < length all.now }
    ensures some { from < result }
    ensures within { result ≤ length all.now }
    ensures level { (k : ℕ) → from ≤ k → k < result → AreLevel (via_of all.now from) (via_of all.now k) }
    ensures behind { result < length all.now → AreLevel (via_of all.now from) (via_of all.now result) → ⊥ }
{
    let first = all[from];
    let mut to = from + 1;
    while to < all.len() && lies_on(&first, first.layer, &all[to]) {
        to += 1;
    }
    to
}

// Whether the vias from `to` on go on from those before.
pub(crate) fn goes_on(all: &[ViaAt], to: usize) -> bool
    requires { 0 < to }
    ensures { IsTrue result ↔ GoesOn all.now to }
{
    to < all.len() && is_joined(&all[to - 1], &all[to])
}
