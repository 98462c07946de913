ghost use Rattle.def_statements.specs.Section.{section_number, all_sections, listed, few};

use reading::Numbered;

/// Where the next unit stands.
#[derive(Clone, Copy, Debug)]
pub enum Section {
    /// Between the sections and statements of the design.
    Top,
    /// Between the entries of COMPONENTS.
    Components,
    /// In an entry of COMPONENTS, after its cell.
    Entry,
    /// The same, right after a `+`.
    EntryPart,
    /// Between the entries of BLOCKAGES.
    Blockages,
    /// In an entry of BLOCKAGES, right after its `-`.
    BlockageKind,
    /// In an entry of BLOCKAGES over a layer, before its first RECT.
    Parts,
    /// The same, right after a `+`.
    Part,
    /// In such an entry, after a RECT.
    Rects,
    /// In an entry of BLOCKAGES over the placement of components.
    Placement,
    /// Between the entries of REGIONS.
    Regions,
    /// In an entry of REGIONS, after a rectangle.
    Region,
    /// In SPECIALNETS.
    Wiring,
    /// The same, right after a `+`.
    WiringPart,
    /// The same, right after an `END`.
    WiringEnd,
    /// In what is passed over, of which each word is a unit.
    Passed,
    /// After `END DESIGN`.
    Ended,
}

impl Numbered for Section {
    ghost number = { section_number };

    ghost all = { all_sections };

    fn number(self) -> usize {
        self as usize
    }

    ghost listed = { listed };

    ghost few = { few };
}
