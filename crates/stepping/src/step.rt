//! From the bytes of a netlist and of a wave file to the texts.
ghost use Rattle.std.specs.Prelude.{◌≡◌, ◌≤◌, ◌^◌, ℕ, ℤ, List, All, IsOk, IfOk, IfErr, length};
ghost use Rattle.outside.specs.Counts.{Rose};
ghost use Rattle.judging.specs.Stage.{GivesNetwork};
ghost use Rattle.short_merge.specs.declared.merged.Merged.{Merged as Groups};
ghost use Rattle.spice_grid.specs.declared.named.Named.{Named};
ghost use Rattle.step_bounds.specs.declared.steps.Steps.{Steps as Lists};
ghost use Rattle.step_texts.specs.Texts.{steps_certificate, steps_report};
ghost use Rattle.wave_file.specs.declared.record.Waves.{Waves as Changes};
ghost use Rattle.wave_file.specs.Keeps.{WavesKeep};
ghost use Rattle.stepping.specs.Inputs.{CanBeStepped};
ghost use Rattle.stepping.specs.Refusal.{IsUnstepped};
ghost use Rattle.stepping.specs.Stepped.{StepsNetwork, StepsThrough, LieWithinSteps};
ghost use Rattle.stepping.specs.inside.Errors.{error_answer};
ghost use Rattle.stepping.specs.inside.Tested.{StopsAtLimit};

use crate::refused::waves_refused;
use crate::stepped::Stepped;
use crate::tested::refused_network;
use answers::Answer;
use entry_list::Entries;
use grid_net::Solver;
use judging::read_network;
use short_merge::Merged;
use std::alloc::{AllocError, Global};
use step_bounds::{StepError, Steps, step_all};
use step_texts::{certificate_of_steps, report_of_steps};
use wave_file::{Waves, read_group_waves, texts_have_one_waves};

/// The length of a step, in 10^-18 seconds, from 1 to 10^18, and the number of steps after step 0, from 1 to 1000.
#[derive(Clone, Copy)]
pub struct Times {
    pub time: u128,
    pub steps: u32,
}

/// Steps the text of a netlist, with the waves of its loads, out of what the solver proposes.
///
/// The order is: the netlist's text is read, its shorts are merged, the text of the waves is read for the groups; then
/// capacitors that float, the number of steps and the supply are tested; the steps are certified one after the other; and
/// the texts of the certificate and of the report are made.
/// Error: the answer to a text that is refused, to a capacitor that floats, to too many steps, to a group without supply, to
/// a quantity that passes its limit at some step, or to want of memory.
pub fn step_through<V: Solver>(
    alloc: Global,
    netlist: &str,
    netlist_text: &[u8],
    waves: &str,
    waves_text: &[u8],
    times: Times,
    solver: &mut V,
) -> Result<Stepped, Answer>
    requires time { (1 ≤ times.time) × (times.time ≤ 10 ^ 18) }
    requires steps { (1 ≤ times.steps) × (times.steps ≤ 1000) }
    // The two texts are those of lists that are a certificate of all steps, and every solution over the steps lies within the
    // intervals that the report prints.
    ensures stepped { IfOk result (λ stepped. (named : Named) × (merged : Groups) × (waves : Changes) × (lists : Lists)
        × StepsThrough (record { netlist = netlist_text.now; waves = waves_text.now }) times.time times.steps named merged
        waves lists stepped
        × LieWithinSteps times.time times.steps merged waves lists) }
    ensures refused { IfErr result (λ answer. IsUnstepped netlist.now waves.now
        (record { netlist = netlist_text.now; waves = waves_text.now }) times.time times.steps answer) }

    // The solver was asked, and what it tells stays.
    ensures asked { IsOk result → Rose (V.proposals solver.old) (V.proposals solver.new) }
    ensures told { V.told solver.new ≡ V.told solver.old }
{
    match read_network(alloc, netlist, netlist_text) {
        Ok(merged) => step_merged(alloc, &merged, waves, waves_text, times, solver),
        Err(answer) => Err(answer),
    }
}

/// Reads the waves of the groups, and steps their network.
fn step_merged<V: Solver>(
    alloc: Global,
    merged: &Merged,
    waves: &str,
    waves_text: &[u8],
    times: Times,
    solver: &mut V,
) -> Result<Stepped, Answer>
    requires time { (1 ≤ times.time) × (times.time ≤ 10 ^ 18) }
    requires steps { (1 ≤ times.steps) × (times.steps ≤ 1000) }
    requires names { length merged.now.names ≡ merged.now.net.nodes }
    ensures stepped { IfOk result (λ stepped. (netlist_text : List ℕ) (named : Named)
        → GivesNetwork netlist_text named merged.now → (waves : Changes) × (lists : Lists)
        × StepsThrough (record { netlist = netlist_text; waves = waves_text.now }) times.time times.steps named merged.now
        waves lists stepped
        × LieWithinSteps times.time times.steps merged.now waves lists) }
    ensures refused { IfErr result (λ answer. (netlist netlist_text : List ℕ) (named : Named)
        → GivesNetwork netlist_text named merged.now
        → IsUnstepped netlist waves.now (record { netlist = netlist_text; waves = waves_text.now }) times.time times.steps
        answer) }
    ensures asked { IsOk result → Rose (V.proposals solver.old) (V.proposals solver.new) }
    ensures told { V.told solver.new ≡ V.told solver.old }
{
    let names = merged.names.as_slice();
    texts_have_one_waves(names);
    let changes = match read_group_waves(alloc, waves_text, names) {
        Ok(changes) => changes,
        Err(error) => return Err(waves_refused(alloc, waves, error)),
    };
    if let Some(answer) = refused_network(alloc, merged, times.steps) {
        return Err(answer);
    }
    step_network(alloc, merged, &changes, times, solver)
}

/// Certifies the steps of a network that can be stepped, and makes their texts.
fn step_network<V: Solver>(
    alloc: Global,
    merged: &Merged,
    changes: &Waves,
    times: Times,
    solver: &mut V,
) -> Result<Stepped, Answer>
    requires time { (1 ≤ times.time) × (times.time ≤ 10 ^ 18) }
    requires steps { (1 ≤ times.steps) × (times.steps ≤ 1000) }
    requires names { length merged.now.names ≡ merged.now.net.nodes }
    requires changes { WavesKeep merged.now.net.nodes changes.now }
    requires can { CanBeStepped merged.now times.steps }
    ensures stepped { IfOk result (λ stepped. (lists : Lists)
        × StepsNetwork merged.now changes.now times.time times.steps lists stepped
        × LieWithinSteps times.time times.steps merged.now changes.now lists) }
    ensures refused { IfErr result (λ answer. StopsAtLimit merged.now changes.now times.time times.steps answer) }
    ensures asked { IsOk result → Rose (V.proposals solver.old) (V.proposals solver.new) }
    ensures told { V.told solver.new ≡ V.told solver.old }
{
    let caps = merged.caps.as_slice();
    let changes = changes.changes.as_slice();
    match step_all(
        alloc,
        &merged.net,
        caps,
        changes,
        times.time,
        times.steps,
        solver,
    ) {
        Ok(lists) => match texts(alloc, merged, &lists, times.steps) {
            Ok(stepped) => Ok(stepped),
            Err(_) => Err(Answer::Want),
        },
        Err(error) => Err(limit_passed(error)),
    }
}

/// The answer to a step that is refused.
fn limit_passed(error: StepError) -> Answer
    ensures { result ≡ error_answer error }
{
    match error {
        StepError::Want => Answer::Want,
        StepError::Range {
            quantity,
            at,
            number,
            ..
        } => Answer::Range {
            quantity,
            at,
            number,
        },
    }
}

/// The texts of the lists of all steps of a network.
fn texts(alloc: Global, merged: &Merged, lists: &Steps, steps: u32) -> Result<Stepped, AllocError>
    requires same { length lists.now.low ≡ length lists.now.high }
    requires high { All (λ (list : List ℤ). length list ≡ length merged.now.names) lists.now.high }
    requires low { All (λ (list : List ℤ). length list ≡ length merged.now.names) lists.now.low }
    ensures certificate { IfOk result (λ s.
        s.certificate ≡ steps_certificate merged.now.names lists.now.high lists.now.low) }
    ensures report { IfOk result (λ s. s.report ≡ steps_report merged.now.names lists.now.high lists.now.low) }
    ensures nodes { IfOk result (λ s. s.nodes ≡ merged.now.net.nodes) }
    ensures steps { IfOk result (λ s. s.steps ≡ steps) }
{
    let names = merged.names.as_slice();
    let high = lists.high.as_slice();
    let low = lists.low.as_slice();
    let certificate = certificate_of_steps(alloc, names, high, low)?;
    let report = report_of_steps(alloc, names, high, low)?;
    Ok(Stepped {
        certificate: Entries::new(certificate),
        report: Entries::new(report),
        nodes: merged.net.nodes(),
        steps,
    })
}
