//! Solvers that try to do harm, for the tests of whatever takes a solver. They tell no lists. Contracts see of each
//! how many proposals it was asked for, and of the one that writes one number which number that is.

ghost use Rattle.std.specs.Prelude.{◌≡◌, ℕ, None, length};

use crate::network::Net;
use crate::solver::Solver;
use level_region::Region;
use std::marker::Model;

/// Proposes one number for each node, in both lists.
#[derive(Drop)]
pub struct Everywhere {
    number: i128,
    proposals: u64,
}

impl Model for Everywhere {
    ghost use Rattle.grid_net.specs.Solver.{OneNumber};

    ghost Value = { OneNumber };

    ghost view = { λ solver. record { number = solver.number; proposals = solver.proposals } };
}

impl Everywhere {
    /// A solver that proposes this number everywhere.
    pub fn new(number: i128) -> Everywhere
        ensures { result ≡ record { number = number; proposals = 0 } }
    {
        Everywhere {
            number,
            proposals: 0,
        }
    }
}

impl Solver for Everywhere {
    ghost told = { λ _. None };

    ghost proposals = { λ solver. solver.proposals };

    fn propose(&mut self, _net: &Net, _work: &mut Region, x: &mut [i128], w: &mut [i128]) {
        self.proposals = self.proposals.saturating_add(1);
        x.fill(self.number);
        w.fill(self.number);
    }
}

/// Proposes the least and the greatest number of 128 bits in turn, node by node, in both lists.
#[derive(Drop)]
pub struct Alternating {
    proposals: u64,
}

impl Model for Alternating {
    ghost use Rattle.std.specs.Prelude.{ℕ};

    ghost Value = { ℕ };

    ghost view = { λ solver. solver.proposals };
}

impl Alternating {
    /// A solver that alternates.
    pub fn new() -> Alternating
        ensures { result ≡ 0 }
    {
        Alternating { proposals: 0 }
    }
}

// Writes the least and the greatest number in turn.
fn alternate(x: &mut [i128]) {
    let mut next = i128::MIN;
    for entry in x.iter_mut() {
        *entry = next;
        next = if next == i128::MIN {
            i128::MAX
        } else {
            i128::MIN
        };
    }
}

impl Solver for Alternating {
    ghost told = { λ _. None };

    ghost proposals = { λ solver. solver };

    fn propose(&mut self, _net: &Net, _work: &mut Region, x: &mut [i128], w: &mut [i128]) {
        self.proposals = self.proposals.saturating_add(1);
        alternate(x);
        alternate(w);
    }
}

/// Cuts the whole region and fills it with the least number of 128 bits, and both lists too.
#[derive(Drop)]
pub struct Filling {
    proposals: u64,
}

impl Model for Filling {
    ghost use Rattle.std.specs.Prelude.{ℕ};

    ghost Value = { ℕ };

    ghost view = { λ solver. solver.proposals };
}

impl Filling {
    /// A solver that fills.
    pub fn new() -> Filling
        ensures { result ≡ 0 }
    {
        Filling { proposals: 0 }
    }
}

// Cuts what is left of a region, and fills it.
fn fill_all(work: &mut Region)
    ensures { length work.new.cells ≡ length work.old.cells }
{
    let left = work.left();
    if let Some(all) = work.cut(left) {
        work.get_mut(all).fill(i128::MIN);
    }
}

impl Solver for Filling {
    ghost told = { λ _. None };

    ghost proposals = { λ solver. solver };

    fn propose(&mut self, _net: &Net, work: &mut Region, x: &mut [i128], w: &mut [i128]) {
        self.proposals = self.proposals.saturating_add(1);
        fill_all(work);
        x.fill(i128::MIN);
        w.fill(i128::MIN);
    }
}
