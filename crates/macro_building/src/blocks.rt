//! The pins and obstructions of macros are read.
ghost use Rattle.std.specs.Prelude.{◌≡◌, ◌⊎◌, Ok, IfOk, IfErr};
ghost use Rattle.answers.specs.declared.answer.Answer.TheVariants.{Want};
ghost use Rattle.building.specs.Inputs.{file_text};
ghost use Rattle.building.specs.Reading.{IsRefused};
ghost use Rattle.macro_blocks.specs.Format.{ReadsBlocks};
ghost use Rattle.macro_blocks.specs.Limits.{BlocksKeep};
ghost use Rattle.macro_building.specs.Blocks.{AreBlocksOf, AreBlocksRefused};
ghost use Rattle.macro_building.specs.Kinds.{blocks_kind};

use crate::kinds::blocks_kind;
use answers::Answer;
use building::{Input, refused};
use macro_blocks::{Blocks, read_blocks};
use std::alloc::Global;

/// The pins and obstructions of two texts: those of the macros of the first, and of the second those of the macros whose names the
/// first has not.
///
/// Error: the answer to the first text that is refused, or to want of memory.
pub(crate) fn joined_blocks(alloc: Global, lef: &Input, other: &Input) -> Result<Blocks, Answer>
    ensures blocks { IfOk result (AreBlocksOf lef.now.text.now other.now.text.now) }
    ensures keep { IfOk result BlocksKeep }
    ensures refused { IfErr result (AreBlocksRefused (file_text lef.now) (file_text other.now)) }
{
    let first = blocks_of(alloc, lef)?;
    let second = blocks_of(alloc, other)?;
    match first.join(second) {
        Ok(blocks) => Ok(blocks),
        Err(_) => Err(Answer::Want),
    }
}

/// Those of one text.
fn blocks_of(alloc: Global, input: &Input) -> Result<Blocks, Answer>
    ensures reads { IfOk result (λ blocks. ReadsBlocks input.now.text.now (Ok blocks)) }
    ensures keep { IfOk result BlocksKeep }
    ensures refused { IfErr result (λ answer. (answer ≡ Want) ⊎ IsRefused ReadsBlocks blocks_kind (file_text input.now) answer) }
{
    match read_blocks(alloc, input.text) {
        Ok(blocks) => Ok(blocks),
        Err(error) => Err(refused(alloc, input.file, error.place, blocks_kind(error.kind))),
    }
}
