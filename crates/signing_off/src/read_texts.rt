//! The texts are read, in the order of the files.
ghost use Rattle.std.specs.Prelude.{◌≡◌, ◌⊎◌, Ok, IfOk, IfErr};
ghost use Rattle.answers.specs.declared.answer.Answer.TheVariants.{Want};
ghost use Rattle.building.specs.Inputs.{file_text};
ghost use Rattle.building.specs.Reading.{IsRefused};
ghost use Rattle.def_wiring.specs.Format.{ReadsWires};
ghost use Rattle.def_wiring.specs.Limits.{WiresKeep};
ghost use Rattle.signing_off.specs.Inputs.{wired_texts};
ghost use Rattle.signing_off.specs.Kinds.{wires_kind};
ghost use Rattle.signing_off.specs.Reading.{HasNetNames, WiredRecordsKeep, AreWiredRecords, IsUnread};

use crate::input::WiredInputs;
use crate::kinds::wires_kind;
use crate::records::WiredRecords;
use answers::Answer;
use building::{Input, bias_of, joined_cells, placed_of, refused, tech_of};
use def_wiring::{Wires, read_wires};
use std::alloc::Global;
use wire_read_names::read_wires_have_names;

/// What the five texts say.
///
/// Error: the answer to the first text that is refused, or to want of memory.
pub(crate) fn read_all(alloc: Global, inputs: &WiredInputs) -> Result<WiredRecords, Answer>
    ensures records { IfOk result (AreWiredRecords (wired_texts inputs.now)) }
    ensures keep { IfOk result WiredRecordsKeep }
    ensures refused { IfErr result (IsUnread (wired_texts inputs.now)) }
{
    let tech = tech_of(alloc, &inputs.lef)?;
    let cells = joined_cells(alloc, &inputs.lef, &inputs.cells)?;
    let design = placed_of(alloc, &inputs.def)?;
    let wires = wires_of(alloc, &inputs.wires)?;
    let bias = bias_of(alloc, &inputs.bias)?;
    Ok(WiredRecords {
        tech,
        cells,
        design,
        wires,
        bias,
    })
}

/// The wiring of a text.
fn wires_of(alloc: Global, input: &Input) -> Result<Wires, Answer>
    ensures reads { IfOk result (λ wires. ReadsWires input.now.text.now (Ok wires)) }
    ensures keep { IfOk result WiresKeep }
    ensures names { IfOk result HasNetNames }
    ensures refused { IfErr result (λ answer. (answer ≡ Want) ⊎ IsRefused ReadsWires wires_kind (file_text input.now) answer) }
{
    read_wires_have_names();
    match read_wires(alloc, input.text) {
        Ok(wires) => Ok(wires),
        Err(error) => Err(refused(alloc, input.file, error.place, wires_kind(error.kind))),
    }
}
