//! The bounds of step 0.
ghost use Rattle.std.specs.Prelude.{◌≡◌, ◌≤◌, ◌<◌, ℕ, length, IfOk, IsOk};
ghost use Rattle.outside.specs.Counts.{Rose};
ghost use Rattle.grid_net.specs.Level.{IsSupplied};
ghost use Rattle.grid_net.specs.Certificate.{IsCertificate, IsTight};

use crate::lists::Bounds;
use bound_make::certify_halves;
use grid_net::{Net, Solver};
use level_region::Region;
use std::alloc::{AllocError, Global};

/// The bounds of step 0: a tight certificate of the network.
pub(crate) fn first_bounds<V: Solver>(
    alloc: Global,
    net: &Net,
    work: &mut Region,
    solver: &mut V,
) -> Result<Bounds, AllocError>
    requires { (i : ℕ) → i < net.now.nodes → IsSupplied net.now i }
    ensures certificate { IfOk result (λ b. IsCertificate net.now b.high.items b.low.items) }
    ensures tight { IfOk result (λ b. IsTight net.now b.high.items b.low.items) }
    ensures high_size { IfOk result (λ b. length b.high.items ≡ net.now.nodes) }
    ensures low_size { IfOk result (λ b. length b.low.items ≡ net.now.nodes) }
    ensures asked { IsOk result → Rose (V.proposals solver.old) (V.proposals solver.new) }
    ensures counted { V.proposals solver.old ≤ V.proposals solver.new }
    ensures told { V.told solver.new ≡ V.told solver.old }
    ensures cells { length work.new.cells ≡ length work.old.cells }
{
    let (high, low) = certify_halves(alloc, net, net, work, solver)?;
    Ok(Bounds { high, low })
}
