//! The wiring is made a grid.
ghost use Rattle.std.specs.Prelude.{◌≡◌, ◌⊎◌, All, IfOk, IfErr};
ghost use Rattle.answers.specs.declared.answer.Answer.TheVariants.{Want};
ghost use Rattle.grid_extract.specs.Extraction.{GridKeeps};
ghost use Rattle.wired_grid.specs.Wired.{ArraysStand};
ghost use Rattle.signing_off.specs.Reading.{WiredRecordsKeep};
ghost use Rattle.signing_off.specs.Refusal.{wired_answer};
ghost use Rattle.signing_off.specs.Signing.{IsGridOf};
ghost use Rattle.signing_off.specs.inside.Stages.{IsUnwired};

use crate::records::WiredRecords;
use answers::Answer;
use entry_list::Entries;
use grid_pieces::Grid;
use refusal_words::wired_words;
use std::alloc::Global;
use wired_grid::{WiredError, wired_grid};

/// The grid of the wiring.
///
/// Error: the answer to wiring that gives none, or to want of memory.
pub(crate) fn grid_of(alloc: Global, records: &WiredRecords) -> Result<Grid, Answer>
    requires { WiredRecordsKeep records.now }
    ensures grid { IfOk result (IsGridOf records.now) }
    ensures keep { IfOk result (λ grid. GridKeeps grid records.now.tech) }
    ensures arrays { IfOk result (λ grid. All (ArraysStand records.now.tech) grid.stacks) }
    ensures refused { IfErr result (IsUnwired records.now) }
{
    match wired_grid(alloc, &records.tech, &records.design, &records.wires) {
        Ok(grid) => Ok(grid),
        Err(error) => Err(unwired(alloc, records, &error)),
    }
}

/// The answer to wiring that gives no grid.
fn unwired(alloc: Global, records: &WiredRecords, error: &WiredError) -> Answer
    ensures { (result ≡ Want) ⊎ (result ≡ wired_answer records.now error.now) }
{
    if matches!(error, WiredError::Want) {
        return Answer::Want;
    }
    match wired_words(alloc, &records.tech, &records.wires, error) {
        Ok(words) => Answer::NoGrid(Entries::new(words)),
        Err(_) => Answer::Want,
    }
}
