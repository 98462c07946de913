//! What a certificate means for existence. Each law is a function whose body only recalls laws of a certificate.
ghost use Rattle.std.specs.Prelude.{◌<◌, ◌≤ℤ◌, ℕ, ℤ};
ghost use Rattle.grid_net.specs.Network.{Network, IsNetwork};
ghost use Rattle.grid_net.specs.Certificate.{HighHolds, LowHolds};
ghost use Rattle.bound_check.specs.Example.{example, example_drawn};
ghost use Rattle.solution_exists.specs.Existence.{EachIsSupplied, AreDrawn};

use bound_check::{maximum_principle, worked_example};

/// A certificate asks for supply without saying so: where its sums hold, each node is joined to a pad by resistors, and so
/// there is a solution.
pub fn a_certificate_supplies()
    ensures { (net : Network) (high low : ℕ → ℤ) → IsNetwork net → HighHolds net high → LowHolds net low
        → EachIsSupplied net }
{}

/// And so its low list is nowhere above its high list, between which that solution lies.
pub fn bounds_are_in_order()
    ensures { (net : Network) (high low : ℕ → ℤ) → IsNetwork net → HighHolds net high → LowHolds net low → (i : ℕ)
        → i < net.nodes → low i ≤ℤ high i }
{
    maximum_principle();
}

/// The premises of existence are met: each node of the worked network is supplied, and its load can be drawn.
pub fn worked_network()
    ensures supplied { EachIsSupplied example }
    ensures drawn { AreDrawn example 1 example_drawn }
{
    worked_example();
}
