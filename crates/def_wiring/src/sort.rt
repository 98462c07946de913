//! The sorts of the words of a design's wiring.
ghost use Rattle.std.specs.Prelude.{◌≡◌};
ghost use Rattle.def_wiring.specs.Sort.{the, number_of, all_sorts, sort_of_part, sort_of_statement, sort_of_text, sort_of, listed, few};
ghost use Rattle.reading.specs.Word.{token};

use reading::{Form, Numbered, Word, keyword_or};

/// What a word of a DEF is to the reader of its wiring, wherever it stands.
#[derive(Clone, Copy, Debug)]
pub(crate) enum Sort {
    /// `;`
    Semicolon,
    /// `(`
    Open,
    /// `)`
    Close,
    /// `+`
    Plus,
    /// `-`
    Minus,
    /// `*`, which repeats a coordinate.
    Star,
    /// `N`, the orientation in which a via may stand.
    North,
    /// `S`, `W`, `E`, `FN`, `FS`, `FW` or `FE`, the others.
    Turn,
    /// `DO`
    Do,
    /// `END`
    End,
    /// `DESIGN`
    Design,
    /// `VIAS`
    Vias,
    /// `SPECIALNETS`
    SpecialNets,
    /// A word that begins a section which is passed over to `END` and the same word.
    PassedSection,
    /// `BEGINEXT`
    BeginExt,
    /// `VIARULE`
    ViaRule,
    /// `CUTSIZE`
    CutSize,
    /// `LAYERS`
    Layers,
    /// `CUTSPACING`
    CutSpacing,
    /// `ENCLOSURE`
    Enclosure,
    /// `ROWCOL`
    RowCol,
    /// `ORIGIN`, `OFFSET` or `PATTERN`: a part of a generated via that is not read.
    Unread,
    /// `USE`
    Use,
    /// `POWER`
    Power,
    /// `GROUND`
    Ground,
    /// `ROUTED`, `FIXED` or `COVER`, which begin wiring.
    Routed,
    /// `NEW`
    New,
    /// `SHAPE`
    ShapeWord,
    /// `RING`
    Ring,
    /// `FOLLOWPIN`
    FollowPin,
    /// `RECT`, `POLYGON`, `SHIELD`, `VIRTUAL`, `STYLE` or `MASK`: metal that is not read.
    Unwired,
    /// `VIA`
    Via,
    /// A word in quotes, which is no keyword and no mark.
    Quoted,
    /// Any other bare word.
    Other,
    /// The end of the text.
    TextEnd,
}

impl Numbered for Sort {
    ghost number = { number_of };

    ghost all = { all_sorts };

    fn number(self) -> usize {
        self as usize
    }

    ghost listed = { listed };

    ghost few = { few };
}

/// Whether the sort is this one.
pub(crate) fn is_the(this: Sort, sort: Sort) -> bool
    ensures { result ≡ the this sort }
{
    sort as usize == this as usize
}

/// A bare word of the parts of vias and nets.
fn sort_of_part(text: &[u8]) -> Sort
    ensures { result ≡ sort_of_part text.now }
{
    keyword_or!(text;
        b"VIARULE" => Sort::ViaRule, b"CUTSIZE" => Sort::CutSize, b"LAYERS" => Sort::Layers,
        b"CUTSPACING" => Sort::CutSpacing, b"ENCLOSURE" => Sort::Enclosure, b"ROWCOL" => Sort::RowCol,
        b"ORIGIN" => Sort::Unread, b"OFFSET" => Sort::Unread, b"PATTERN" => Sort::Unread, b"USE" => Sort::Use,
        b"POWER" => Sort::Power, b"GROUND" => Sort::Ground, b"ROUTED" => Sort::Routed, b"FIXED" => Sort::Routed,
        b"COVER" => Sort::Routed, b"NEW" => Sort::New, b"SHAPE" => Sort::ShapeWord, b"RING" => Sort::Ring,
        b"FOLLOWPIN" => Sort::FollowPin, b"RECT" => Sort::Unwired, b"POLYGON" => Sort::Unwired,
        b"SHIELD" => Sort::Unwired, b"VIRTUAL" => Sort::Unwired, b"STYLE" => Sort::Unwired, b"MASK" => Sort::Unwired,
        b"VIA" => Sort::Via;
        Sort::Other)
}

/// A bare word that is no mark.
fn sort_of_statement(text: &[u8]) -> Sort
    ensures { result ≡ sort_of_statement text.now }
{
    keyword_or!(text;
        b"END" => Sort::End, b"DESIGN" => Sort::Design, b"VIAS" => Sort::Vias, b"SPECIALNETS" => Sort::SpecialNets,
        b"PROPERTYDEFINITIONS" => Sort::PassedSection, b"NONDEFAULTRULES" => Sort::PassedSection,
        b"STYLES" => Sort::PassedSection, b"PINS" => Sort::PassedSection, b"PINPROPERTIES" => Sort::PassedSection,
        b"NETS" => Sort::PassedSection, b"SCANCHAINS" => Sort::PassedSection, b"GROUPS" => Sort::PassedSection,
        b"FILLS" => Sort::PassedSection, b"SLOTS" => Sort::PassedSection, b"REGIONS" => Sort::PassedSection,
        b"COMPONENTS" => Sort::PassedSection, b"BLOCKAGES" => Sort::PassedSection, b"BEGINEXT" => Sort::BeginExt;
        sort_of_part(text))
}

/// The sort of a bare word.
fn sort_of_text(text: &[u8]) -> Sort
    ensures { result ≡ sort_of_text text.now }
{
    keyword_or!(text;
        b";" => Sort::Semicolon, b"(" => Sort::Open, b")" => Sort::Close, b"+" => Sort::Plus, b"-" => Sort::Minus,
        b"*" => Sort::Star, b"N" => Sort::North, b"S" => Sort::Turn, b"W" => Sort::Turn, b"E" => Sort::Turn,
        b"FN" => Sort::Turn, b"FS" => Sort::Turn, b"FW" => Sort::Turn, b"FE" => Sort::Turn, b"DO" => Sort::Do;
        sort_of_statement(text))
}

/// The sort of a word.
pub(crate) fn sort_of(word: &Word<'_>) -> Sort
    ensures { result ≡ sort_of (token word.now) }
{
    match word.form {
        Form::Bare => sort_of_text(word.text),
        Form::End => Sort::TextEnd,
        _ => Sort::Quoted,
    }
}
