ghost use Rattle.wiring_file.specs.Section.{section_number, all_sections, listed, few};

use reading::Numbered;

/// Where a unit stands.
#[derive(Clone, Copy, Debug)]
pub(crate) enum Section {
    /// `VERSION 5.8 ;`
    Version,
    /// `DIVIDERCHAR "/" ;`
    DividerChar,
    /// `BUSBITCHARS "[]" ;`
    BusBitChars,
    /// `DESIGN name ;`
    Design,
    /// `UNITS DISTANCE MICRONS n ;`
    Units,
    /// `DIEAREA ( x y ) ( x y ) ;`
    Die,
    /// `VIAS n ;`
    ViasHead,
    /// A via, or `END VIAS`.
    Vias,
    /// `SPECIALNETS n ;`
    NetsHead,
    /// The head of a net, or `END SPECIALNETS`.
    Nets,
    /// How the first line of a net's wiring begins, or `;`.
    First,
    /// A line of wiring, after how it begins.
    Line,
    /// How another line of the net begins, or `;`.
    Next,
    /// `END DESIGN`
    DesignEnd,
    /// The end of the text.
    Ended,
}

impl Numbered for Section {
    ghost number = { section_number };

    ghost all = { all_sections };

    fn number(self) -> usize {
        self as usize
    }

    ghost listed = { listed };

    ghost few = { few };
}
