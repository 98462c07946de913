//! The sections of a LEF library.
ghost use Rattle.std.specs.Prelude.{◌≡◌};
ghost use Rattle.macro_blocks.specs.Section.{section_number, all_sections, listed, few, is_ended};

use reading::Numbered;

/// Where the next unit stands.
#[derive(Clone, Copy, Debug)]
pub(crate) enum Section {
    /// Between the sections of the library.
    Top,
    /// In a macro.
    Macro,
    /// In a pin.
    Pin,
    /// After `USE POWER` or `USE GROUND`.
    Supplied,
    /// In a port or in obstructions, before any LAYER.
    Port,
    /// The same, after a LAYER.
    Layered,
    /// In a pin of which no use is known, after a word that cannot stand in one of power or ground.
    Unfit,
    /// In what is passed over, of which each word is a unit.
    Passed,
    /// After `END LIBRARY`.
    Ended,
}

impl Numbered for Section {
    ghost number = { section_number };

    ghost all = { all_sections };

    fn number(self) -> usize {
        self as usize
    }

    ghost listed = { listed };

    ghost few = { few };
}

impl Section {
    /// Whether the library has ended.
    pub(crate) fn is_ended(self) -> bool
        ensures { result ≡ is_ended self }
    {
        matches!(self, Section::Ended)
    }
}
