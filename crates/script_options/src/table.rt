//! Which options a command has, whether it needs them, and what their values are.
ghost use Rattle.std.specs.Prelude.{◌≡◌};
ghost use Rattle.script_options.specs.Table.{table as rows_of, need_in, form_of as form};

use crate::command::Command;
use crate::number::Quantity;
use crate::option::ScriptOption;

/// Whether a command needs an option.
#[derive(Clone, Copy, Debug, PartialEq, Eq)]
pub enum Need {
    /// A command without it is refused.
    Required,
    /// The same, but for a stripe with `-followpins`.
    RequiredOfStraps,
    /// It may be absent.
    Optional,
    /// It may stand on a grid with `-macro` alone.
    OfMacroGrids,
}

/// One line of the table: a command has this option.
#[derive(Clone, Copy, Debug, PartialEq, Eq)]
pub struct Row {
    pub option: ScriptOption,
    pub need: Need,
}

/// How many values a list has.
#[derive(Clone, Copy, Debug, PartialEq, Eq)]
pub enum Counts {
    /// Any number, also none.
    Any,
    Two,
    OneOrTwo,
    OneTwoOrFour,
}

/// What stands after an option.
#[derive(Clone, Copy, Debug, PartialEq, Eq)]
pub enum ValueForm {
    /// Nothing: the option alone says it.
    Nothing,
    /// One name.
    Name,
    /// `POWER` or `GROUND`.
    Start,
    /// One number.
    Number(Quantity),
    /// A list of names.
    Names(Counts),
    /// A list of numbers.
    Numbers(Quantity, Counts),
}

/// The options of `set_voltage_domain`.
const SET_VOLTAGE_DOMAIN: &[Row] = &[
    Row {
        option: ScriptOption::Power,
        need: Need::Required,
    },
    Row {
        option: ScriptOption::Ground,
        need: Need::Required,
    },
    Row {
        option: ScriptOption::Name,
        need: Need::Optional,
    },
    Row {
        option: ScriptOption::Region,
        need: Need::Optional,
    },
];

/// The options of `define_pdn_grid`.
const DEFINE_PDN_GRID: &[Row] = &[
    Row {
        option: ScriptOption::Name,
        need: Need::Required,
    },
    Row {
        option: ScriptOption::VoltageDomains,
        need: Need::Optional,
    },
    Row {
        option: ScriptOption::StartsWith,
        need: Need::Optional,
    },
    Row {
        option: ScriptOption::Pins,
        need: Need::Optional,
    },
    Row {
        option: ScriptOption::Macro,
        need: Need::Optional,
    },
    Row {
        option: ScriptOption::Orient,
        need: Need::OfMacroGrids,
    },
    Row {
        option: ScriptOption::Halo,
        need: Need::OfMacroGrids,
    },
    Row {
        option: ScriptOption::Cells,
        need: Need::OfMacroGrids,
    },
    Row {
        option: ScriptOption::Instances,
        need: Need::OfMacroGrids,
    },
    Row {
        option: ScriptOption::Default,
        need: Need::OfMacroGrids,
    },
    Row {
        option: ScriptOption::GridOverBoundary,
        need: Need::OfMacroGrids,
    },
    Row {
        option: ScriptOption::GridOverPgPins,
        need: Need::OfMacroGrids,
    },
];

/// The options of `add_pdn_stripe`.
const ADD_PDN_STRIPE: &[Row] = &[
    Row {
        option: ScriptOption::Layer,
        need: Need::Required,
    },
    Row {
        option: ScriptOption::Width,
        need: Need::Required,
    },
    Row {
        option: ScriptOption::Pitch,
        need: Need::RequiredOfStraps,
    },
    Row {
        option: ScriptOption::Grid,
        need: Need::Optional,
    },
    Row {
        option: ScriptOption::Spacing,
        need: Need::Optional,
    },
    Row {
        option: ScriptOption::Offset,
        need: Need::Optional,
    },
    Row {
        option: ScriptOption::Followpins,
        need: Need::Optional,
    },
    Row {
        option: ScriptOption::ExtendToCoreRing,
        need: Need::Optional,
    },
    Row {
        option: ScriptOption::ExtendToBoundary,
        need: Need::Optional,
    },
    Row {
        option: ScriptOption::NumberOfStraps,
        need: Need::Optional,
    },
    Row {
        option: ScriptOption::StartsWith,
        need: Need::Optional,
    },
    Row {
        option: ScriptOption::Nets,
        need: Need::Optional,
    },
];

/// The options of `add_pdn_ring`.
const ADD_PDN_RING: &[Row] = &[
    Row {
        option: ScriptOption::Layers,
        need: Need::Required,
    },
    Row {
        option: ScriptOption::Widths,
        need: Need::Required,
    },
    Row {
        option: ScriptOption::Spacings,
        need: Need::Required,
    },
    Row {
        option: ScriptOption::CoreOffsets,
        need: Need::Required,
    },
    Row {
        option: ScriptOption::Grid,
        need: Need::Optional,
    },
    Row {
        option: ScriptOption::StartsWith,
        need: Need::Optional,
    },
    Row {
        option: ScriptOption::Nets,
        need: Need::Optional,
    },
    Row {
        option: ScriptOption::AddConnect,
        need: Need::Optional,
    },
];

/// The options of `add_pdn_connect`.
const ADD_PDN_CONNECT: &[Row] = &[
    Row {
        option: ScriptOption::Layers,
        need: Need::Required,
    },
    Row {
        option: ScriptOption::Grid,
        need: Need::Optional,
    },
    Row {
        option: ScriptOption::MaxRows,
        need: Need::Optional,
    },
    Row {
        option: ScriptOption::MaxColumns,
        need: Need::Optional,
    },
];

/// The options of a command, the required ones first.
pub fn options_of(command: Command) -> &'static [Row]
    ensures { result.now ≡ rows_of command }
{
    match command {
        Command::SetVoltageDomain => SET_VOLTAGE_DOMAIN,
        Command::DefinePdnGrid => DEFINE_PDN_GRID,
        Command::AddPdnStripe => ADD_PDN_STRIPE,
        Command::AddPdnRing => ADD_PDN_RING,
        Command::AddPdnConnect => ADD_PDN_CONNECT,
        _ => &[],
    }
}

/// Whether the command has the option, and how much it needs it.
pub fn need_of(command: Command, option: ScriptOption) -> Option<Need>
    ensures { result ≡ need_in (rows_of command) option }
{
    for row in options_of(command) {
        if row.option.is(option) {
            return Some(row.need);
        }
    }
    None
}

/// What stands after the option.
pub fn form_of(option: ScriptOption) -> ValueForm
    ensures { result ≡ form option }
{
    match option {
        ScriptOption::Name => ValueForm::Name,
        ScriptOption::Power => ValueForm::Name,
        ScriptOption::Ground => ValueForm::Name,
        ScriptOption::Region => ValueForm::Name,
        ScriptOption::VoltageDomains => ValueForm::Name,
        ScriptOption::StartsWith => ValueForm::Start,
        ScriptOption::Pins => ValueForm::Names(Counts::Any),
        ScriptOption::Orient => ValueForm::Names(Counts::Any),
        ScriptOption::Halo => ValueForm::Numbers(Quantity::Length, Counts::Any),
        ScriptOption::Cells => ValueForm::Names(Counts::Any),
        ScriptOption::Instances => ValueForm::Names(Counts::Any),
        ScriptOption::Grid => ValueForm::Name,
        ScriptOption::Layer => ValueForm::Name,
        ScriptOption::Width => ValueForm::Number(Quantity::Width),
        ScriptOption::Pitch => ValueForm::Number(Quantity::Width),
        ScriptOption::Spacing => ValueForm::Number(Quantity::Length),
        ScriptOption::Offset => ValueForm::Number(Quantity::Length),
        ScriptOption::NumberOfStraps => ValueForm::Number(Quantity::Count),
        ScriptOption::Nets => ValueForm::Names(Counts::Any),
        ScriptOption::Layers => ValueForm::Names(Counts::Two),
        ScriptOption::Widths => ValueForm::Numbers(Quantity::Width, Counts::OneOrTwo),
        ScriptOption::Spacings => ValueForm::Numbers(Quantity::Length, Counts::OneOrTwo),
        ScriptOption::CoreOffsets => ValueForm::Numbers(Quantity::Length, Counts::OneTwoOrFour),
        ScriptOption::MaxRows => ValueForm::Number(Quantity::Count),
        ScriptOption::MaxColumns => ValueForm::Number(Quantity::Count),
        _ => ValueForm::Nothing,
    }
}
