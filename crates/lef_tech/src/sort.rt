ghost use Rattle.std.specs.Prelude.{◌≡◌};
ghost use Rattle.lef_tech.specs.Sort.{number_of, all_sorts, sort_of_text, sort_of, listed, few};
ghost use Rattle.reading.specs.Word.{token};

use reading::{Form, Numbered, Word, keyword_or};

impl Numbered for Sort {
    ghost number = { number_of };

    ghost all = { all_sorts };

    fn number(self) -> usize {
        self as usize
    }

    ghost listed = { listed };

    ghost few = { few };
}

/// The sort of a bare word.
fn sort_of_text(text: &[u8]) -> Sort
    ensures { result ≡ sort_of_text text.now }
{
    keyword_or!(text;
        b"LAYER" => Sort::Layer, b"VIARULE" => Sort::ViaRule, b"UNITS" => Sort::Units, b"VIA" => Sort::Passed,
        b"NONDEFAULTRULE" => Sort::Passed, b"SITE" => Sort::Passed, b"MACRO" => Sort::Passed,
        b"PROPERTYDEFINITIONS" => Sort::Definitions, b"BEGINEXT" => Sort::Extension, b"END" => Sort::End,
        b"LIBRARY" => Sort::Library, b"DATABASE" => Sort::Database, b"MICRONS" => Sort::Microns,
        b"TYPE" => Sort::LayerType, b"ROUTING" => Sort::Routing, b"CUT" => Sort::Cut, b"DIRECTION" => Sort::Direction,
        b"HORIZONTAL" => Sort::Horizontal, b"VERTICAL" => Sort::Vertical, b"SPACING" => Sort::Spacing,
        b"RESISTANCE" => Sort::Resistance, b"RPERSQ" => Sort::PerSquare, b"DCCURRENTDENSITY" => Sort::Current,
        b"AVERAGE" => Sort::Average, b"WIDTH" => Sort::Width, b"CUTAREA" => Sort::CutArea,
        b"TABLEENTRIES" => Sort::TableEntries, b"GENERATE" => Sort::Generate, b"DEFAULT" => Sort::Default,
        b"ENCLOSURE" => Sort::Enclosure, b"TO" => Sort::To, b"RECT" => Sort::Rect, b"BY" => Sort::By,
        b";" => Sort::Semicolon, b"(" => Sort::Bracket, b")" => Sort::Bracket;
        Sort::Other)
}

/// The sort of a word.
pub(crate) fn sort_of(word: &Word<'_>) -> Sort
    ensures { result ≡ sort_of (token word.now) }
{
    match word.form {
        Form::Bare => sort_of_text(word.text),
        Form::End => Sort::TextEnd,
        _ => Sort::Quoted,
    }
}

/// What a word of a technology is, wherever it stands.
#[derive(Clone, Copy, Debug)]
pub(crate) enum Sort {
    /// `LAYER`
    Layer,
    /// `VIARULE`
    ViaRule,
    /// `UNITS`
    Units,
    /// `VIA`, `NONDEFAULTRULE`, `SITE` and `MACRO`, whose sections are passed over.
    Passed,
    /// `PROPERTYDEFINITIONS`
    Definitions,
    /// `BEGINEXT`
    Extension,
    /// `END`
    End,
    /// `LIBRARY`
    Library,
    /// `DATABASE`
    Database,
    /// `MICRONS`
    Microns,
    /// `TYPE`
    LayerType,
    /// `ROUTING`
    Routing,
    /// `CUT`
    Cut,
    /// `DIRECTION`
    Direction,
    /// `HORIZONTAL`
    Horizontal,
    /// `VERTICAL`
    Vertical,
    /// `SPACING`
    Spacing,
    /// `RESISTANCE`
    Resistance,
    /// `RPERSQ`
    PerSquare,
    /// `DCCURRENTDENSITY`
    Current,
    /// `AVERAGE`
    Average,
    /// `WIDTH`
    Width,
    /// `CUTAREA`
    CutArea,
    /// `TABLEENTRIES`
    TableEntries,
    /// `GENERATE`
    Generate,
    /// `DEFAULT`
    Default,
    /// `ENCLOSURE`
    Enclosure,
    /// `TO`
    To,
    /// `RECT`
    Rect,
    /// `BY`
    By,
    /// `;`
    Semicolon,
    /// `(` or `)`, which never stand for a number.
    Bracket,
    /// A word in quotes.
    Quoted,
    /// Any other word.
    Other,
    /// The end of the text.
    TextEnd,
}
