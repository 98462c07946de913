//! The options of the commands.
ghost use Rattle.std.specs.Prelude.{◌≡◌};
ghost use Rattle.script_options.specs.Option.{option_named as named, left_out_or, option_number, same_option};

use reading::keyword_or;

/// An option of some command.
#[derive(Clone, Copy, Debug, PartialEq, Eq)]
pub enum ScriptOption {
    /// `-name`
    Name,
    /// `-power`
    Power,
    /// `-ground`
    Ground,
    /// `-region`
    Region,
    /// `-voltage_domains`
    VoltageDomains,
    /// `-starts_with`
    StartsWith,
    /// `-pins`
    Pins,
    /// `-macro`
    Macro,
    /// `-orient`
    Orient,
    /// `-halo`
    Halo,
    /// `-cells`
    Cells,
    /// `-instances`
    Instances,
    /// `-default`
    Default,
    /// `-grid_over_boundary`
    GridOverBoundary,
    /// `-grid_over_pg_pins`
    GridOverPgPins,
    /// `-grid`
    Grid,
    /// `-layer`
    Layer,
    /// `-width`
    Width,
    /// `-pitch`
    Pitch,
    /// `-spacing`
    Spacing,
    /// `-offset`
    Offset,
    /// `-followpins`
    Followpins,
    /// `-extend_to_core_ring`
    ExtendToCoreRing,
    /// `-extend_to_boundary`
    ExtendToBoundary,
    /// `-number_of_straps`
    NumberOfStraps,
    /// `-nets`
    Nets,
    /// `-layers`
    Layers,
    /// `-widths`
    Widths,
    /// `-spacings`
    Spacings,
    /// `-core_offsets`
    CoreOffsets,
    /// `-add_connect`
    AddConnect,
    /// `-max_rows`
    MaxRows,
    /// `-max_columns`
    MaxColumns,
    /// An option of the manual that is left out of this profile.
    LeftOut,
    /// Any other word.
    Unknown,
}

impl ScriptOption {
    /// The number of the option.
    fn number(self) -> usize
        ensures { result ≡ option_number self }
    {
        self as usize
    }

    /// Whether it is the same option.
    pub fn is(self, other: ScriptOption) -> bool
        ensures { result ≡ same_option self other }
    {
        self.number() == other.number()
    }
}

/// The option of this name that is left out, if it is one.
fn left_out(text: &[u8]) -> ScriptOption
    ensures { result ≡ left_out_or text.now }
{
    keyword_or!(text;
        b"-snap_to_grid" => ScriptOption::LeftOut, b"-fixed_vias" => ScriptOption::LeftOut,
        b"-dont_use_vias" => ScriptOption::LeftOut, b"-split_cuts" => ScriptOption::LeftOut,
        b"-ongrid" => ScriptOption::LeftOut, b"-cut_pitch" => ScriptOption::LeftOut,
        b"-pad_offsets" => ScriptOption::LeftOut, b"-connect_to_pads" => ScriptOption::LeftOut,
        b"-switched_power" => ScriptOption::LeftOut, b"-secondary_power" => ScriptOption::LeftOut;
        ScriptOption::Unknown)
}

/// The option of this name.
pub fn option_named(text: &[u8]) -> ScriptOption
    ensures { result ≡ named text.now }
{
    let other = left_out(text);
    keyword_or!(text;
        b"-name" => ScriptOption::Name, b"-power" => ScriptOption::Power, b"-ground" => ScriptOption::Ground,
        b"-region" => ScriptOption::Region, b"-voltage_domains" => ScriptOption::VoltageDomains,
        b"-starts_with" => ScriptOption::StartsWith, b"-pins" => ScriptOption::Pins, b"-macro" => ScriptOption::Macro,
        b"-orient" => ScriptOption::Orient, b"-halo" => ScriptOption::Halo, b"-cells" => ScriptOption::Cells,
        b"-instances" => ScriptOption::Instances, b"-default" => ScriptOption::Default,
        b"-grid_over_boundary" => ScriptOption::GridOverBoundary, b"-grid_over_pg_pins" => ScriptOption::GridOverPgPins,
        b"-grid" => ScriptOption::Grid, b"-layer" => ScriptOption::Layer, b"-width" => ScriptOption::Width,
        b"-pitch" => ScriptOption::Pitch, b"-spacing" => ScriptOption::Spacing, b"-offset" => ScriptOption::Offset,
        b"-followpins" => ScriptOption::Followpins, b"-extend_to_core_ring" => ScriptOption::ExtendToCoreRing,
        b"-extend_to_boundary" => ScriptOption::ExtendToBoundary, b"-number_of_straps" => ScriptOption::NumberOfStraps,
        b"-nets" => ScriptOption::Nets, b"-layers" => ScriptOption::Layers, b"-widths" => ScriptOption::Widths,
        b"-spacings" => ScriptOption::Spacings, b"-core_offsets" => ScriptOption::CoreOffsets,
        b"-add_connect" => ScriptOption::AddConnect, b"-max_rows" => ScriptOption::MaxRows,
        b"-max_columns" => ScriptOption::MaxColumns;
        other)
}
