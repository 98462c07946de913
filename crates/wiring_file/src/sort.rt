ghost use Rattle.std.specs.Prelude.{◌≡◌};
ghost use Rattle.wiring_file.specs.Sort.{number_of, all_sorts, sort_of_text, sort_of_quoted, sort_of, listed, few, the};
ghost use Rattle.reading.specs.Word.{token};

use reading::{Form, Numbered, Word, keyword_or};

/// What a word of a written wiring is, wherever it stands.
#[derive(Clone, Copy, Debug)]
pub(crate) enum Sort {
    /// `;`
    Semicolon,
    /// `(`
    Open,
    /// `)`
    Close,
    /// `+`
    Plus,
    /// `-`
    Minus,
    /// `VERSION`
    Version,
    /// `5.8`
    Edition,
    /// `DIVIDERCHAR`
    DividerChar,
    /// `BUSBITCHARS`
    BusBitChars,
    /// `DESIGN`
    Design,
    /// `UNITS`
    Units,
    /// `DISTANCE`
    Distance,
    /// `MICRONS`
    Microns,
    /// `DIEAREA`
    DieArea,
    /// `VIAS`
    Vias,
    /// `VIARULE`
    ViaRule,
    /// `CUTSIZE`
    CutSize,
    /// `LAYERS`
    Layers,
    /// `CUTSPACING`
    CutSpacing,
    /// `ENCLOSURE`
    Enclosure,
    /// `ROWCOL`
    RowCol,
    /// `END`
    End,
    /// `SPECIALNETS`
    SpecialNets,
    /// `USE`
    Use,
    /// `POWER` or `GROUND`
    Supply,
    /// `ROUTED`
    Routed,
    /// `NEW`
    New,
    /// `SHAPE`
    Shape,
    /// `STRIPE`
    Stripe,
    /// `RING` or `FOLLOWPIN`
    Drawn,
    /// `"/"`
    Slash,
    /// `"[]"`
    Brackets,
    /// Any other quoted word.
    Quoted,
    /// Any other word.
    Other,
    /// The end of the text.
    TextEnd,
}

impl Numbered for Sort {
    ghost number = { number_of };

    ghost all = { all_sorts };

    fn number(self) -> usize {
        self as usize
    }

    ghost listed = { listed };

    ghost few = { few };
}

/// The sort of a word.
pub(crate) fn sort_of(word: &Word<'_>) -> Sort
    ensures { result ≡ sort_of (token word.now) }
{
    match word.form {
        Form::Bare => sort_of_text(word.text),
        Form::Quoted => sort_of_quoted(word.text),
        Form::End => Sort::TextEnd,
        _ => Sort::Other,
    }
}

/// Whether the sort is this one.
pub(crate) fn is_the(this: Sort, sort: Sort) -> bool
    ensures { result ≡ the this sort }
{
    sort.number() == this.number()
}

/// The sort of a bare word.
fn sort_of_text(text: &[u8]) -> Sort
    ensures { result ≡ sort_of_text text.now }
{
    keyword_or!(text;
        b";" => Sort::Semicolon, b"(" => Sort::Open, b")" => Sort::Close, b"+" => Sort::Plus, b"-" => Sort::Minus,
        b"VERSION" => Sort::Version, b"5.8" => Sort::Edition, b"DIVIDERCHAR" => Sort::DividerChar,
        b"BUSBITCHARS" => Sort::BusBitChars, b"DESIGN" => Sort::Design, b"UNITS" => Sort::Units,
        b"DISTANCE" => Sort::Distance, b"MICRONS" => Sort::Microns, b"DIEAREA" => Sort::DieArea, b"VIAS" => Sort::Vias,
        b"VIARULE" => Sort::ViaRule, b"CUTSIZE" => Sort::CutSize, b"LAYERS" => Sort::Layers,
        b"CUTSPACING" => Sort::CutSpacing, b"ENCLOSURE" => Sort::Enclosure, b"ROWCOL" => Sort::RowCol,
        b"END" => Sort::End, b"SPECIALNETS" => Sort::SpecialNets, b"USE" => Sort::Use, b"POWER" => Sort::Supply,
        b"GROUND" => Sort::Supply, b"ROUTED" => Sort::Routed, b"NEW" => Sort::New, b"SHAPE" => Sort::Shape,
        b"STRIPE" => Sort::Stripe, b"RING" => Sort::Drawn, b"FOLLOWPIN" => Sort::Drawn;
        Sort::Other)
}

/// The sort of a quoted word.
fn sort_of_quoted(text: &[u8]) -> Sort
    ensures { result ≡ sort_of_quoted text.now }
{
    keyword_or!(text; b"/" => Sort::Slash, b"[]" => Sort::Brackets; Sort::Quoted)
}
