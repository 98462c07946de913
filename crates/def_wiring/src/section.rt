//! The sections of a design, as the reader of its wiring takes it apart.
ghost use Rattle.std.specs.Prelude.{◌≡◌};
ghost use Rattle.def_wiring.specs.Section.{section_number, all_sections, listed, few, is_ended};

use reading::Numbered;

/// Where the next unit stands.
#[derive(Clone, Copy, Debug)]
pub(crate) enum Section {
    /// Between the statements and the sections of the design.
    Top,
    /// Between the entries of VIAS.
    Vias,
    /// In an entry of VIAS, of which each word is a unit.
    Via,
    /// Between the entries of SPECIALNETS.
    Nets,
    /// In an entry of SPECIALNETS, of which each word is a unit.
    Net,
    /// In what is passed over, of which each word is a unit.
    Passed,
    /// After `END DESIGN`.
    Ended,
}

impl Numbered for Section {
    ghost number = { section_number };

    ghost all = { all_sections };

    fn number(self) -> usize {
        self as usize
    }

    ghost listed = { listed };

    ghost few = { few };
}

impl Section {
    /// Whether the design has ended.
    pub(crate) fn is_ended(self) -> bool
        ensures { result ≡ is_ended self }
    {
        matches!(self, Section::Ended)
    }
}
