//! All steps.
ghost use Rattle.std.specs.Prelude.{◌≡◌, ◌≤◌, ◌<◌, ◌+◌, ◌^◌, ℕ, None, IfOk, IfErr, IsOk};
ghost use Rattle.outside.specs.Counts.{Rose};
ghost use Rattle.grid_net.specs.Level.{IsSupplied};
ghost use Rattle.step_bounds.specs.Capacitors.{companions as companions_of_caps, first_floating};
ghost use Rattle.step_bounds.specs.Changes.{AreChanges};
ghost use Rattle.step_bounds.specs.StepCertificate.{IsStepCertificate, KeepStepLimits};
ghost use Rattle.step_bounds.specs.SteppedSolution.{SteppedSolutionsLieBetween};
ghost use Rattle.step_bounds.specs.Refusal.{IsStepRefusal};
ghost use Rattle.step_bounds.specs.inside.Step.{IsErrorAt};

use crate::error::StepError;
use crate::extension::extension_of;
use crate::first::first_bounds;
use crate::laws::stepped_solutions_lie_between;
use crate::lists::Lists;
use crate::loads::{advance, loads_of};
use crate::network::region_of_steps;
use crate::passed::Passed;
use crate::step::bounds_over;
use crate::steps::Steps;
use capacitors::Cap;
use grid_net::{Net, Solver};
use std::alloc::Global;
use wave_file::Change;

// The error of a step, with the lists of the steps before.
fn error_at(step: u32, passed: Passed, lists: Lists) -> StepError
    ensures { IsErrorAt step passed lists result }
{
    match passed {
        Passed::Limit {
            quantity,
            at,
            number,
        } => StepError::Range {
            step,
            quantity,
            at,
            number,
            before: lists.into_steps(),
        },
        Passed::Want => StepError::Want,
    }
}

/// Bounds of all time steps from 0 to `steps`, each of `time` in 10^-18 seconds: a high and a low voltage for each step and
/// node. Whatever the solver proposes, they bound every solution of Ohm's and Kirchhoff's laws with the capacitors by the
/// backward Euler rule, for all loads within their ranges.
///
/// Step 0 is the network by itself. A capacitor counts where its capacitance is above 0, one end is a node without a pad, and
/// the other is ground or a node with a pad; each other one has no effect. From the step of a change on, the load of its node
/// is its range.
///
/// There are from 1 to 1000 steps of at most one second. Each node is supplied, and no capacitor floats. Each change names a
/// node, with a low end that is not above its high end; their steps do not fall, and no two name one node at one step.
/// Errors: a quantity of a step's network passes its limit; want of memory.
pub fn step_all<V: Solver>(
    alloc: Global,
    net: &Net,
    caps: &[Cap],
    changes: &[Change],
    time: u128,
    steps: u32,
    solver: &mut V,
) -> Result<Steps, StepError>
    requires time { (1 ≤ time) × (time ≤ 10 ^ 18) }
    requires steps { (1 ≤ steps) × (steps ≤ 1000) }
    requires supplied { (i : ℕ) → i < net.now.nodes → IsSupplied net.now i }
    requires nothing_floats { first_floating net.now caps.now ≡ None }
    requires changes { AreChanges net.now changes.now }
    ensures certificate { IfOk result (λ s.
        IsStepCertificate net.now (companions_of_caps net.now caps.now time) changes.now (steps + 1) s.high s.low) }
    ensures bounds { IfOk result (λ s.
        SteppedSolutionsLieBetween net.now (companions_of_caps net.now caps.now time) changes.now steps s.high s.low) }
    ensures keep_limits { IfOk result (λ s.
        KeepStepLimits net.now (companions_of_caps net.now caps.now time) changes.now steps s.high s.low) }
    ensures refused { IfErr result (λ e.
        IsStepRefusal net.now (companions_of_caps net.now caps.now time) changes.now steps e) }
    ensures asked { IsOk result → Rose (V.proposals solver.old) (V.proposals solver.new) }
    ensures told { V.told solver.new ≡ V.told solver.old }
{
    stepped_solutions_lie_between();
    let extension = extension_of(alloc, net, caps, time)?;
    let mut work = region_of_steps(alloc, net, &extension)?;
    let mut loads = loads_of(alloc, net)?;
    let mut lists = Lists {
        high: Vec::new(alloc),
        low: Vec::new(alloc),
    };
    lists.add(first_bounds(alloc, net, &mut work, solver)?)?;
    let mut reached = 0;
    for t in 0..steps {
        reached = advance(&mut loads, changes, reached, t + 1);
        match bounds_over(alloc, net, &extension, &loads, &lists, t, &mut work, solver) {
            Ok(bounds) => lists.add(bounds)?,
            Err(passed) => return Err(error_at(t + 1, passed, lists)),
        }
    }
    Ok(lists.into_steps())
}
