ghost use Rattle.lef_tech.specs.Section.{section_number, all_sections, listed, few};

use reading::Numbered;

/// Where the next unit stands.
#[derive(Clone, Copy, Debug)]
pub(crate) enum Section {
    /// Between sections and statements.
    Top,
    /// In what is passed over, of which each word is a unit.
    Passing,
    /// After `LAYER` and its name.
    LayerStart,
    /// In a routing layer that has no direction yet.
    Undirected,
    /// In a routing layer that has its direction.
    Directed,
    /// In a cut layer.
    Cut,
    /// In a routing layer's table of densities, among its widths.
    WireTable,
    /// The same among its entries.
    WireValues,
    /// In a cut layer's table of densities, among its areas.
    CutTable,
    /// The same among its entries.
    CutValues,
    /// After `VIARULE` and its name.
    RuleStart,
    /// After `GENERATE`.
    RuleHead,
    /// In a generate rule, where no layer is named yet or one of another type.
    Rule,
    /// In a generate rule, after the name of a routing layer.
    WirePart,
    /// In a generate rule, after the name of a cut layer.
    CutPart,
    /// In the section `UNITS`.
    Units,
    /// After `END LIBRARY`.
    Ended,
}

impl Numbered for Section {
    ghost number = { section_number };

    ghost all = { all_sections };

    fn number(self) -> usize {
        self as usize
    }

    ghost listed = { listed };

    ghost few = { few };
}
