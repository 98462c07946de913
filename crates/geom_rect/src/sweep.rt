ghost use Rattle.std.specs.Prelude.{◌≡◌, IfOk, OnOk, filter, int_lt};
ghost use Rattle.std.specs.Ordering.{int_cmp};
ghost use Rattle.std.specs.List.Sorted.{IsPermutation, IsSortedByKey};
ghost use Rattle.geom_rect.specs.declared.run.Run.{Run};
ghost use Rattle.geom_rect.specs.Run.{IsOpen, AreMaximalRuns};
ghost use Rattle.geom_rect.specs.inside.Sweep.{Rises, HaveCells, AreRising, AreSeparate, EndBy, AddsCells};

use crate::run::Run;
use std::alloc::{AllocError, Global};

/// The maximal runs of the unit cells that some covered run has and no blocked run has, rising.
/// Runs of either list may overlap, touch, have no cell, and stand in any order.
pub fn runs(alloc: Global, covered: &[Run], blocked: &[Run]) -> Result<Vec<Run>, AllocError>
    ensures { IfOk result (λ answer. AreMaximalRuns (IsOpen covered.now blocked.now) answer.items) }
{
    let covered = rising(alloc, covered)?;
    let blocked = rising(alloc, blocked)?;
    sweep(alloc, &covered, &blocked)
}

// The runs that have a cell, in the order of where they begin.
fn rising(alloc: Global, runs: &[Run]) -> Result<Vec<Run>, AllocError>
    ensures { IfOk result (λ rising. Rises runs.now rising.items) }
{
    let mut rising = with_cells(alloc, runs)?;
    sort(&mut rising);
    Ok(rising)
}

fn with_cells(alloc: Global, runs: &[Run]) -> Result<Vec<Run>, AllocError>
    ensures { IfOk result (λ kept. kept.items ≡ filter (λ (run : Run). int_lt run.from run.to) runs.now) }
{
    runs.iter()
        .copied()
        .filter(|run| run.from < run.to)
        .collect(alloc)
}

fn sort(runs: &mut [Run])
    ensures same { IsPermutation runs.old runs.new }
    ensures rising { IsSortedByKey (λ (run : Run). run.from) int_cmp runs.new }
{
    runs.sort_unstable_by_key(|run| run.from);
}

// The same of lists that `rising` made, in one sweep over both: `at` is the cell up to which the answer is known.
fn sweep(alloc: Global, covered: &[Run], blocked: &[Run]) -> Result<Vec<Run>, AllocError>
    requires covered_rises { AreRising covered.now }
    requires covered_some { HaveCells covered.now }
    requires blocked_rises { AreRising blocked.now }
    requires blocked_some { HaveCells blocked.now }
    ensures { IfOk result (λ answer. AreMaximalRuns (IsOpen covered.now blocked.now) answer.items) }
{
    let mut answer = Vec::new(alloc);
    let mut at = match covered.first() {
        Some(first) => first.from,
        None => return Ok(answer),
    };
    let mut i = 0;
    let mut j = 0;
    while i < covered.len() {
        let run = covered[i];
        let from = at.max(run.from);
        if j < blocked.len() && blocked[j].from < run.to {
            let block = blocked[j];
            append(&mut answer, from, block.from)?;
            at = from.max(block.to);
            j += 1;
        } else {
            append(&mut answer, from, run.to)?;
            at = from.max(run.to);
            i += 1;
        }
    }
    Ok(answer)
}

// The cells from `from` up to below `to` are added at the end, to the last run where they follow on it.
fn append(runs: &mut Vec<Run>, from: i64, to: i64) -> Result<(), AllocError>
    requires separate { AreSeparate runs.old.items }
    requires ended { EndBy from runs.old.items }
    ensures { OnOk result (AddsCells runs.old.items from to runs.new.items) }
{
    if from >= to {
        return Ok(());
    }
    let n = runs.len();
    if n > 0 && runs[n - 1].to == from {
        runs[n - 1].to = to;
    } else {
        runs.push(Run { from, to })?;
    }
    Ok(())
}
