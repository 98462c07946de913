ghost use Rattle.std.specs.Prelude.{◌≡◌, ℕ, None};

use grid_net::{Net, Solver};
use level_region::Region;
use std::marker::Model;

/// A solver that proposes what stands in the two slices already. Contracts see how many proposals it was asked for.
#[derive(Drop)]
pub struct Null {
    proposals: u64,
}

impl Model for Null {
    ghost use Rattle.std.specs.Prelude.{ℕ};

    ghost Value = { ℕ };

    ghost view = { λ solver. solver.proposals };
}

impl Null {
    /// A solver that leaves the slices. It takes no memory.
    pub fn new() -> Null
        ensures { result ≡ 0 }
    {
        Null { proposals: 0 }
    }
}

impl Solver for Null {
    ghost told = { λ _. None };

    ghost proposals = { λ solver. solver };

    fn propose(&mut self, _net: &Net, _work: &mut Region, _x: &mut [i128], _w: &mut [i128]) {
        self.proposals = self.proposals.saturating_add(1);
    }
}
