//! What a step certificate proves, over plain lists and whole numbers without a bound.
ghost use Rattle.std.specs.Prelude.{◌≡◌, ◌+◌, ℕ, ℤ, List};
ghost use Rattle.grid_net.specs.Network.{Network};
ghost use Rattle.grid_net.specs.Limits.{IsBuilt};
ghost use Rattle.capacitors.specs.declared.Cap.{Cap};
ghost use Rattle.wave_file.specs.declared.record.Change.{Change};
ghost use Rattle.step_bounds.specs.Capacitors.{companions as companions_of_caps};
ghost use Rattle.step_bounds.specs.Changes.{AreChanges};
ghost use Rattle.step_bounds.specs.StepCertificate.{IsStepCertificate};
ghost use Rattle.step_bounds.specs.SteppedSolution.{SteppedSolutionsLieBetween};

use bound_check::{maximum_principle, one_sided_principle};
use grid_net::built_network;

/// Where the lists of all steps are a step certificate, every stepped solution lies between them, at each step and node,
/// whatever its denominator. A solution need not exist.
pub fn stepped_solutions_lie_between()
    ensures { (net : Network) (caps : List Cap) (changes : List Change) (time last : ℕ) (high low : List (List ℤ))
        → IsBuilt net → AreChanges net changes
        → IsStepCertificate net (companions_of_caps net caps time) changes (last + 1) high low
        → SteppedSolutionsLieBetween net (companions_of_caps net caps time) changes last high low }
{
    maximum_principle();
    one_sided_principle();
    built_network();
}
