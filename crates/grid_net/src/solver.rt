ghost use Rattle.std.specs.Prelude.{◌≡◌, ℕ, ℤ, ◌≤◌, ◌+◌, ◌-◌, ◌^◌, List, length, Option, Some, IfSome, min};
ghost use Rattle.outside.specs.Counts.{Rose};
ghost use Rattle.grid_net.specs.Solver.{Proposes};

use crate::network::Net;
use level_region::Region;
use std::marker::Model;

/// Proposes two lists of voltages, from which the lists of a certificate are made: a high one and a low one.
///
/// Nothing is promised of the numbers, unless the solver tells the two lists; what it tells never changes. A proposal
/// cannot fail, and takes no memory but the region's.
pub trait Solver {
    /// The two lists that the solver proposes, where it tells them.
    ghost told: { Self → Option (List ℤ × List ℤ) };

    /// How many proposals the solver was asked for. The count stands still at 2^64 - 1.
    ghost proposals: { Self → ℕ };

    /// Proposes a high list in `x` and a low list in `w`, each with one entry for each node, in yoctovolts. The region
    /// is lent to be worked in, and keeps its number of cells.
    fn propose(&mut self, net: &Net, work: &mut Region, x: &mut [i128], w: &mut [i128])
        requires x_size { length x.old ≡ net.now.nodes }
        requires w_size { length w.old ≡ net.now.nodes }
        ensures kept { told self.new ≡ told self.old }
        ensures counted { proposals self.old ≤ proposals self.new }
        ensures asked { Rose (proposals self.old) (proposals self.new) }
        ensures cells { length work.new.cells ≡ length work.old.cells }
        ensures proposed { IfSome (told self.old) (λ lists. Proposes net.now lists x.new w.new) };
}

/// A solver that tells the two lists that it is made of, and proposes them where each has one entry for each node.
/// Where one has another length, it leaves both slices as they are.
#[derive(Drop)]
pub struct Fixed {
    x: Vec<i128>,
    w: Vec<i128>,
    proposals: u64,
}

impl Model for Fixed {
    ghost use Rattle.grid_net.specs.Solver.{TwoLists};

    ghost Value = { TwoLists };

    ghost view = { λ solver. record { x = solver.x.items; w = solver.w.items; proposals = solver.proposals } };
}

impl Fixed {
    /// A solver that tells these two lists. It takes no memory.
    pub fn new(x: Vec<i128>, w: Vec<i128>) -> Fixed
        ensures { result ≡ record { x = x.items; w = w.items; proposals = 0 } }
    {
        Fixed { x, w, proposals: 0 }
    }
}

impl Solver for Fixed {
    ghost told = { λ solver. Some (solver.x, solver.w) };

    ghost proposals = { λ solver. solver.proposals };

    fn propose(&mut self, net: &Net, _work: &mut Region, x: &mut [i128], w: &mut [i128]) {
        self.proposals = self.proposals.saturating_add(1);
        let nodes = net.nodes() as usize;
        if self.x.len() == nodes && self.w.len() == nodes {
            x.copy_from_slice(&self.x);
            w.copy_from_slice(&self.w);
        }
    }
}
