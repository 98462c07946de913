//! The kinds of the refusals of each format as those of the answers.
ghost use Rattle.std.specs.Prelude.{◌≡◌};
ghost use Rattle.building.specs.Kinds.{tech_kind, cells_kind, def_kind, script_kind, bias_kind};

use answers::TextKind;
use bias_file::BiasKind;
use def_design::{DefKind, Item};
use lef_cells::CellsKind;
use lef_tech::TechKind;
use pdn_script::ScriptKind;

/// The kind of a refusal of a technology; none for want of memory.
pub(crate) fn tech_kind(kind: TechKind) -> Option<TextKind>
    ensures { result ≡ tech_kind kind }
{
    match kind {
        TechKind::Syntax => Some(TextKind::Syntax),
        TechKind::BadString => Some(TextKind::BadString),
        TechKind::Number(error) => Some(TextKind::Number(error)),
        TechKind::Twice => Some(TextKind::Twice),
        TechKind::UnknownLayer => Some(TextKind::UnknownLayer),
        TechKind::BadTable => Some(TextKind::BadTable),
        TechKind::Want => None,
    }
}

/// That of cells.
pub(crate) fn cells_kind(kind: CellsKind) -> Option<TextKind>
    ensures { result ≡ cells_kind kind }
{
    match kind {
        CellsKind::Syntax => Some(TextKind::Syntax),
        CellsKind::BadString => Some(TextKind::BadString),
        CellsKind::Number(error) => Some(TextKind::Number(error)),
        CellsKind::Twice => Some(TextKind::Twice),
        CellsKind::Want => None,
    }
}

/// That of a design.
pub(crate) fn def_kind(kind: DefKind) -> Option<TextKind>
    ensures { result ≡ def_kind kind }
{
    match kind {
        DefKind::Syntax => Some(TextKind::Syntax),
        DefKind::BadString => Some(TextKind::BadString),
        DefKind::Number(error) => Some(TextKind::Number(error)),
        DefKind::Twice => Some(TextKind::Twice),
        DefKind::Polygon => Some(TextKind::Polygon),
        DefKind::RowForm => Some(TextKind::RowForm),
        DefKind::AlreadyRouted => Some(TextKind::AlreadyRouted),
        DefKind::Missing(Item::Design) => Some(TextKind::MissingDesign),
        DefKind::Missing(Item::Units) => Some(TextKind::MissingUnits),
        DefKind::Missing(Item::DieArea) => Some(TextKind::MissingDieArea),
        DefKind::Want => None,
    }
}

/// That of a script.
pub(crate) fn script_kind(kind: ScriptKind) -> Option<TextKind>
    ensures { result ≡ script_kind kind }
{
    match kind {
        ScriptKind::Syntax => Some(TextKind::Syntax),
        ScriptKind::BadString => Some(TextKind::BadString),
        ScriptKind::Substitution => Some(TextKind::Substitution),
        ScriptKind::AfterPdngen => Some(TextKind::AfterPdngen),
        ScriptKind::UnknownCommand => Some(TextKind::UnknownCommand),
        ScriptKind::OutOfProfile => Some(TextKind::OutOfProfile),
        ScriptKind::UnknownOption => Some(TextKind::UnknownOption),
        ScriptKind::Twice => Some(TextKind::Twice),
        ScriptKind::Number(error) => Some(TextKind::Number(error)),
        ScriptKind::UnknownGrid => Some(TextKind::UnknownGrid),
        ScriptKind::UnknownDomain => Some(TextKind::UnknownDomain),
        ScriptKind::MissingOption => Some(TextKind::MissingOption),
        ScriptKind::NetUse => Some(TextKind::NetUse),
        ScriptKind::Want => None,
    }
}

/// That of a bias file.
pub(crate) fn bias_kind(kind: BiasKind) -> Option<TextKind>
    ensures { result ≡ bias_kind kind }
{
    match kind {
        BiasKind::Syntax => Some(TextKind::Syntax),
        BiasKind::Number(error) => Some(TextKind::Number(error)),
        BiasKind::Falling => Some(TextKind::Falling),
        BiasKind::Twice => Some(TextKind::Twice),
        BiasKind::Want => None,
    }
}
