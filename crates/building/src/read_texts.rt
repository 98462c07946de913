//! The texts are read, in the order of the files.
ghost use Rattle.std.specs.Prelude.{◌≡◌, ◌⊎◌, Ok, IfOk, IfErr};
ghost use Rattle.answers.specs.declared.answer.Answer.TheVariants.{Want};
ghost use Rattle.lef_tech.specs.Format.{ReadsTech};
ghost use Rattle.lef_tech.specs.Limits.{TechKeeps};
ghost use Rattle.lef_cells.specs.Format.{ReadsCells};
ghost use Rattle.lef_cells.specs.Limits.{CellsKeep};
ghost use Rattle.def_design.specs.Format.{ReadsDesign, ReadsPlaced};
ghost use Rattle.def_design.specs.Limits.{DesignKeeps};
ghost use Rattle.pdn_script.specs.Format.{ReadsScript};
ghost use Rattle.pdn_script.specs.Limits.{ScriptKeeps};
ghost use Rattle.bias_file.specs.Format.{ReadsBias};
ghost use Rattle.bias_file.specs.Limits.{BiasKeeps};
ghost use Rattle.building.specs.Inputs.{file_text, five_texts};
ghost use Rattle.building.specs.Kinds.{tech_kind, cells_kind, def_kind, script_kind, bias_kind};
ghost use Rattle.building.specs.Reading.{text_answer, HasLayerNames, RecordsKeep, AreCellsOf, AreCellsRefused, AreRecords, IsRefused, IsUnread};

use crate::input::{Input, Inputs};
use crate::kinds::{bias_kind, cells_kind, def_kind, script_kind, tech_kind};
use crate::records::Records;
use answers::{Answer, TextKind};
use bias_file::{Bias, read_bias};
use def_design::{Design, read_design, read_placed};
use lef_cells::{Cells, read_cells};
use lef_tech::{Tech, read_tech};
use outside::{Name, Place};
use pdn_script::{Script, read_script};
use read_names::read_techs_have_names;
use std::alloc::Global;

/// What the five texts say.
///
/// Error: the answer to the first text that is refused, or to want of memory.
pub fn read_all(alloc: Global, inputs: &Inputs) -> Result<Records, Answer>
    ensures records { IfOk result (AreRecords (five_texts inputs.now)) }
    ensures keep { IfOk result RecordsKeep }
    ensures refused { IfErr result (IsUnread (five_texts inputs.now)) }
{
    let tech = tech_of(alloc, &inputs.lef)?;
    let cells = joined_cells(alloc, &inputs.lef, &inputs.cells)?;
    let design = design_of(alloc, &inputs.def)?;
    let script = script_of(alloc, &inputs.pdn)?;
    let bias = bias_of(alloc, &inputs.bias)?;
    Ok(Records {
        tech,
        cells,
        design,
        script,
        bias,
    })
}

/// The technology of a text.
///
/// Error: the answer to a text that is refused, or to want of memory.
pub fn tech_of(alloc: Global, input: &Input) -> Result<Tech, Answer>
    ensures reads { IfOk result (λ tech. ReadsTech input.now.text.now (Ok tech)) }
    ensures keeps { IfOk result TechKeeps }
    ensures names { IfOk result HasLayerNames }
    ensures refused { IfErr result (λ answer. (answer ≡ Want) ⊎ IsRefused ReadsTech tech_kind (file_text input.now) answer) }
{
    read_techs_have_names();
    match read_tech(alloc, input.text) {
        Ok(tech) => Ok(tech),
        Err(error) => Err(refused(alloc, input.file, error.place, tech_kind(error.kind))),
    }
}

/// The cells of two texts: those of the first, and of the second those whose names the first has not.
///
/// Error: the answer to the first text that is refused, or to want of memory.
pub fn joined_cells(alloc: Global, lef: &Input, other: &Input) -> Result<Cells, Answer>
    ensures cells { IfOk result (AreCellsOf lef.now.text.now other.now.text.now) }
    ensures keep { IfOk result CellsKeep }
    ensures refused { IfErr result (AreCellsRefused (file_text lef.now) (file_text other.now)) }
{
    let first = cells_of(alloc, lef)?;
    let second = cells_of(alloc, other)?;
    match first.join(second) {
        Ok(cells) => Ok(cells),
        Err(_) => Err(Answer::Want),
    }
}

/// The cells of a text.
fn cells_of(alloc: Global, input: &Input) -> Result<Cells, Answer>
    ensures reads { IfOk result (λ cells. ReadsCells input.now.text.now (Ok cells)) }
    ensures keep { IfOk result CellsKeep }
    ensures refused { IfErr result (λ answer. (answer ≡ Want) ⊎ IsRefused ReadsCells cells_kind (file_text input.now) answer) }
{
    match read_cells(alloc, input.text) {
        Ok(cells) => Ok(cells),
        Err(error) => Err(refused(alloc, input.file, error.place, cells_kind(error.kind))),
    }
}

/// The design of a text.
fn design_of(alloc: Global, input: &Input) -> Result<Design, Answer>
    ensures reads { IfOk result (λ design. ReadsDesign input.now.text.now (Ok design)) }
    ensures keeps { IfOk result DesignKeeps }
    ensures refused { IfErr result (λ answer. (answer ≡ Want) ⊎ IsRefused ReadsDesign def_kind (file_text input.now) answer) }
{
    match read_design(alloc, input.text) {
        Ok(design) => Ok(design),
        Err(error) => Err(refused(alloc, input.file, error.place, def_kind(error.kind))),
    }
}

/// The design of a text whose nets may have wires, which are passed over.
///
/// Error: the answer to a text that is refused, or to want of memory.
pub fn placed_of(alloc: Global, input: &Input) -> Result<Design, Answer>
    ensures reads { IfOk result (λ design. ReadsPlaced input.now.text.now (Ok design)) }
    ensures keeps { IfOk result DesignKeeps }
    ensures refused { IfErr result (λ answer. (answer ≡ Want) ⊎ IsRefused ReadsPlaced def_kind (file_text input.now) answer) }
{
    match read_placed(alloc, input.text) {
        Ok(design) => Ok(design),
        Err(error) => Err(refused(alloc, input.file, error.place, def_kind(error.kind))),
    }
}

/// The script of a text.
fn script_of(alloc: Global, input: &Input) -> Result<Script, Answer>
    ensures reads { IfOk result (λ script. ReadsScript input.now.text.now (Ok script)) }
    ensures keeps { IfOk result ScriptKeeps }
    ensures refused { IfErr result (λ answer. (answer ≡ Want) ⊎ IsRefused ReadsScript script_kind (file_text input.now) answer) }
{
    match read_script(alloc, input.text) {
        Ok(script) => Ok(script),
        Err(error) => Err(refused(alloc, input.file, error.place, script_kind(error.kind))),
    }
}

/// The bias file of a text.
///
/// Error: the answer to a text that is refused, or to want of memory.
pub fn bias_of(alloc: Global, input: &Input) -> Result<Bias, Answer>
    ensures reads { IfOk result (λ bias. ReadsBias input.now.text.now (Ok bias)) }
    ensures keeps { IfOk result BiasKeeps }
    ensures refused { IfErr result (λ answer. (answer ≡ Want) ⊎ IsRefused ReadsBias bias_kind (file_text input.now) answer) }
{
    match read_bias(alloc, input.text) {
        Ok(bias) => Ok(bias),
        Err(error) => Err(refused(alloc, input.file, error.place, bias_kind(error.kind))),
    }
}

/// The answer to a text that is refused at a word for this reason, or for none but want of memory.
pub fn refused(alloc: Global, file: &str, place: Place, kind: Option<TextKind>) -> Answer
    ensures { (result ≡ Want) ⊎ (result ≡ text_answer file.now place kind) }
{
    let Some(kind) = kind else {
        return Answer::Want;
    };
    match Name::new(alloc, file.as_bytes()) {
        Ok(file) => Answer::Refused { file, place, kind },
        Err(_) => Answer::Want,
    }
}
