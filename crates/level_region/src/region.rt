ghost use Rattle.std.specs.Prelude.{◌≡◌, ◌+◌, ◌<◌, ◌≤◌, ◌^◌, pos, length, replicate, IfOk};
ghost use Rattle.std.specs.Borrow.{sem};
ghost use Rattle.level_region.specs.Block.{left_of, part_of, hull_of, IsWithin, AreApart};
ghost use Rattle.level_region.specs.Cuts.{IsCut};
ghost use Rattle.level_region.specs.Lends.{LendsPart, LendsTwoParts};

use crate::pairs::{begins_first, hull, split_first, split_gap};
use crate::span::Span;
use std::alloc::{AllocError, Global};
use std::marker::Model;
use std_alloc::vec::run_mut;

/// A block of cells, each one a number of 128 bits. Spans are cut from its front, and given back all at once.
/// Only `new` takes memory.
#[derive(Drop)]
pub struct Region {
    cells: Vec<i128>,
    used: usize,
}

impl Model for Region {
    ghost use Rattle.std.specs.Prelude.{◌≤◌, length};
    ghost use Rattle.level_region.specs.Block.{Block};

    ghost Value = { Block };

    ghost view = { λ r. record { cells = r.cells.items; used = r.used } };

    ghost invariant = { λ r. r.used ≤ length r.cells.items };
}

impl Region {
    /// A region of `cells` cells, each one 0, none of them used. It is made in one allocation.
    pub fn new(alloc: Global, cells: usize) -> Result<Region, AllocError>
        ensures { IfOk result (λ region. region ≡ record { cells = replicate cells (pos 0); used = 0 }) }
    {
        let cells = vec![in alloc; 0; cells]?;
        Ok(Region { cells, used: 0 })
    }

    /// The next `n` cells, which are used from now on and hold what they held. `None` exactly where fewer than `n`
    /// are left; then nothing changes.
    pub fn cut(&mut self, n: usize) -> Option<Span>
        ensures { IsCut self.old n result self.new }
    {
        if self.left() < n {
            return None;
        }
        let start = self.used;
        self.used += n;
        Some(Span { start, len: n })
    }

    /// How many cells are not used yet.
    pub fn left(&self) -> usize
        ensures left { result ≡ left_of self.now }
        ensures within { self.now.used ≤ length self.now.cells }
        ensures fits { length self.now.cells < 2 ^ 64 }
    {
        self.cells.len() - self.used
    }

    /// The numbers in a span's cells, to be read. The span ends within the used cells.
    pub fn get(&self, span: Span) -> &[i128]
        requires { IsWithin span self.now }
        ensures value { result.now ≡ part_of self.now span }
        ensures len { length result.now ≡ span.len }
    {
        &self.cells[span.start..span.start + span.len]
    }

    /// The numbers in a span's cells, to be read and written. The span ends within the used cells.
    pub fn get_mut(&mut self, span: Span) -> &mut [i128]
        requires { IsWithin span self.old }
        ensures* written { sem 𝓛 (LendsPart self.entry span result) }
        ensures value { result.now ≡ part_of self.old span }
        ensures len { length result.now ≡ span.len }
    {
        let _used = self.used;
        let end = span.start + span.len;
        run_mut(&mut self.cells, span.start, end)
    }

    /// The numbers in the cells of two spans, to be read and written. Both spans end within the used cells, and they
    /// do not overlap.
    ///
    /// What the region holds once the slices are given back is known to a reader of the clause, and not to the prover
    /// at a call, which follows two slices only out of a slice. A caller that goes on with the region in a proof
    /// takes `get_mut` of one span that has the cells of both, and `split_at_mut` of that.
    pub fn two_mut(&mut self, a: Span, b: Span) -> (&mut [i128], &mut [i128])
        requires a_within { IsWithin a self.old }
        requires b_within { IsWithin b self.old }
        requires apart { AreApart a b }
        ensures* written { sem 𝓛 (LendsTwoParts self.entry a b result) }
        ensures first { result.0.now ≡ part_of self.old a }
        ensures second { result.1.now ≡ part_of self.old b }
    {
        let cells = self.hull_mut(a, b);
        let (low, others) = split_first(cells, a, b);
        let (_, high) = split_gap(others, a, b);
        if begins_first(a, b) {
            (low, high)
        } else {
            (high, low)
        }
    }

    // The cells from the first one of two spans to the last one.
    fn hull_mut(&mut self, a: Span, b: Span) -> &mut [i128]
        requires a_within { IsWithin a self.old }
        requires b_within { IsWithin b self.old }
        requires apart { AreApart a b }
        ensures* written { sem 𝓛 (LendsPart self.entry (hull_of a b) result) }
        ensures value { result.now ≡ part_of self.old (hull_of a b) }
        ensures len { length result.now ≡ (hull_of a b).len }
    {
        let _used = self.used;
        let span = hull(a, b);
        self.get_mut(span)
    }

    /// Nothing is used any more. The cells hold what they held.
    pub fn reset(&mut self)
        ensures { self.new ≡ record self.old { used = 0 } }
    {
        self.used = 0;
    }
}
