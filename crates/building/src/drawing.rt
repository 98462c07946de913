//! The grid is drawn.
ghost use Rattle.std.specs.Prelude.{◌≡◌, ◌⊎◌, IfOk, IfErr};
ghost use Rattle.answers.specs.declared.answer.Answer.TheVariants.{Want};
ghost use Rattle.building.specs.Building.{IsGridOf, GridStands};
ghost use Rattle.building.specs.Reading.{RecordsKeep};
ghost use Rattle.building.specs.Refusal.{draw_answer};
ghost use Rattle.building.specs.Stages.{IsUndrawn};

use crate::records::Records;
use answers::Answer;
use entry_list::Entries;
use grid_pieces::{DrawError, Grid};
use grid_shapes::draw;
use refusal_words::draw_words;
use std::alloc::Global;

/// The grid that the script draws over the design.
///
/// Error: the answer to a script that draws none, or to want of memory.
pub(crate) fn grid_of(alloc: Global, records: &Records) -> Result<Grid, Answer>
    requires { RecordsKeep records.now }
    ensures grid { IfOk result (IsGridOf records.now) }
    ensures stands { IfOk result (GridStands records.now) }
    ensures refused { IfErr result (IsUndrawn records.now) }
{
    let Records {
        tech,
        cells,
        design,
        script,
        ..
    } = records;
    match draw(alloc, tech, cells, design, script) {
        Ok(grid) => Ok(grid),
        Err(error) => Err(undrawn(alloc, records, &error)),
    }
}

/// The answer to a script that draws no grid, for this reason: want of memory, or that nothing is drawn, with the words of the
/// reason. Where memory runs out for the words it is want of memory.
pub fn undrawn(alloc: Global, records: &Records, error: &DrawError) -> Answer
    ensures { (result ≡ Want) ⊎ (result ≡ draw_answer records.now error.now) }
{
    if matches!(error, DrawError::Want) {
        return Answer::Want;
    }
    let Records {
        tech,
        design,
        script,
        ..
    } = records;
    match draw_words(alloc, tech, design, script, error) {
        Ok(words) => Answer::NoGrid(Entries::new(words)),
        Err(_) => Answer::Want,
    }
}
