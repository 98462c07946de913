//! The grid is drawn over the blocks.
ghost use Rattle.std.specs.Prelude.{◌≡◌, ◌⊎◌, IfOk, IfErr};
ghost use Rattle.answers.specs.declared.answer.Answer.TheVariants.{Want};
ghost use Rattle.building.specs.Reading.{RecordsKeep};
ghost use Rattle.macro_blocks.specs.Limits.{BlocksKeep};
ghost use Rattle.macro_building.specs.Words.{grid_name, halo_words, macro_answer};
ghost use Rattle.macro_building.specs.inside.Stages.{IsDrawn, DrawnStands, IsUndrawn};

use answers::Answer;
use building::{Records, undrawn};
use entry_list::Entries;
use macro_blocks::Blocks;
use macro_grid::{MacroError, MacroGrid, macro_draw};
use pdn_script::Script;
use std::alloc::{AllocError, Global};

/// The grid that the script draws over the design and its blocks.
///
/// Error: the answer to a script that draws none, or to want of memory.
pub(crate) fn drawn_of(
    alloc: Global,
    records: &Records,
    blocks: &Blocks,
) -> Result<MacroGrid, Answer>
    requires keep { RecordsKeep records.now }
    requires blocks { BlocksKeep blocks.now }
    ensures drawn { IfOk result (IsDrawn records.now blocks.now) }
    ensures stands { IfOk result (DrawnStands records.now) }
    ensures refused { IfErr result (IsUndrawn records.now blocks.now) }
{
    let Records {
        tech,
        cells,
        design,
        script,
        ..
    } = records;
    match macro_draw(alloc, tech, cells, blocks, design, script) {
        Ok(drawn) => Ok(drawn),
        Err(error) => Err(not_drawn(alloc, records, &error)),
    }
}

/// The answer to a script that draws no grid over blocks, for this reason.
fn not_drawn(alloc: Global, records: &Records, error: &MacroError) -> Answer
    ensures { (result ≡ Want) ⊎ (result ≡ macro_answer records.now error.now) }
{
    match error {
        MacroError::Draw(error) => undrawn(alloc, records, error),
        MacroError::Halo(grid) => match halo_words(alloc, &records.script, *grid) {
            Ok(words) => Answer::NoGrid(Entries::new(words)),
            Err(_) => Answer::Want,
        },
    }
}

/// The words for a halo that is none.
fn halo_words(alloc: Global, script: &Script, grid: u32) -> Result<Vec<u8>, AllocError>
    ensures { IfOk result (λ words. words.items ≡ halo_words script.now grid) }
{
    let mut words = Vec::from_slice(alloc, b"Halo ")?;
    words.extend_from_slice(grid_name(script, grid))?;
    Ok(words)
}

/// The name of a grid. A place that the script lacks, which no refusal has, gives no bytes.
fn grid_name(script: &Script, grid: u32) -> &[u8]
    ensures { result.now ≡ grid_name script.now grid }
{
    match script.grids.as_slice().get(grid as usize) {
        Some(rule) => rule.name.bytes(),
        None => b"",
    }
}
