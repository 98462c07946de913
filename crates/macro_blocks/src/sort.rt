ghost use Rattle.std.specs.Prelude.{◌≡◌};
ghost use Rattle.macro_blocks.specs.Sort.{number_of, all_sorts, sort_of_text, sort_of, listed, few};
ghost use Rattle.macro_blocks.specs.inside.Number.{begins_number};
ghost use Rattle.reading.specs.Word.{token};

use reading::{Form, Numbered, Word, keyword_or};

/// Whether the text begins as a number does, and as no keyword.
#[inline(always)]
fn begins_number(text: &[u8]) -> bool
    ensures { result ≡ begins_number text.now }
{
    match text.first() {
        Some(first) => first.is_ascii_digit() || *first == b'-',
        None => false,
    }
}

/// The sort of a bare word, which is compared with each keyword.
fn keyword_sort(text: &[u8]) -> Sort
    ensures { result ≡ sort_of_text text.now }
{
    keyword_or!(text;
        b";" => Sort::Semicolon, b"RECT" => Sort::Rect, b"LAYER" => Sort::Layer, b"END" => Sort::End,
        b"MACRO" => Sort::Macro, b"SITE" => Sort::NamedSection, b"VIA" => Sort::NamedSection,
        b"NONDEFAULTRULE" => Sort::NamedSection, b"VIARULE" => Sort::NamedSection,
        b"PROPERTYDEFINITIONS" => Sort::WordSection, b"SPACING" => Sort::WordSection, b"UNITS" => Sort::WordSection,
        b"BEGINEXT" => Sort::BeginExt, b"LIBRARY" => Sort::Library, b"ORIGIN" => Sort::Origin, b"PIN" => Sort::Pin,
        b"PORT" => Sort::Port, b"USE" => Sort::Use, b"POWER" => Sort::Power, b"GROUND" => Sort::Ground,
        b"OBS" => Sort::Obs, b"DENSITY" => Sort::Density, b"(" => Sort::Bracket, b")" => Sort::Bracket;
        Sort::Other)
}

/// The sort of a bare word. Most are numbers, which need not be compared.
#[inline(always)]
fn sort_of_text(text: &[u8]) -> Sort
    ensures { result ≡ sort_of_text text.now }
{
    if begins_number(text) {
        Sort::Other
    } else {
        keyword_sort(text)
    }
}

/// What a word of a LEF library is, wherever it stands.
#[derive(Clone, Copy, Debug)]
pub(crate) enum Sort {
    /// `MACRO`
    Macro,
    /// `SITE`, `VIA`, `NONDEFAULTRULE` or `VIARULE`, which begin a section of this name that is passed over.
    NamedSection,
    /// `LAYER`, which begins such a section in the library, and names a layer in a port and in obstructions.
    Layer,
    /// `PROPERTYDEFINITIONS`, `SPACING` or `UNITS`, which begin a section that ends with `END` and the same word.
    WordSection,
    /// `BEGINEXT`
    BeginExt,
    /// `END`
    End,
    /// `LIBRARY`
    Library,
    /// `ORIGIN`
    Origin,
    /// `PIN`
    Pin,
    /// `PORT`
    Port,
    /// `USE`
    Use,
    /// `POWER`
    Power,
    /// `GROUND`
    Ground,
    /// `RECT`
    Rect,
    /// `OBS`
    Obs,
    /// `DENSITY`, which begins a group that ends with `END`.
    Density,
    /// `;`
    Semicolon,
    /// `(` or `)`, which never stand for a number.
    Bracket,
    /// A word in quotes, which is no keyword.
    Quoted,
    /// Any other bare word.
    Other,
    /// The end of the text.
    TextEnd,
}

/// The sort of a word.
#[inline(always)]
pub(crate) fn sort_of(word: &Word<'_>) -> Sort
    ensures { result ≡ sort_of (token word.now) }
{
    match word.form {
        Form::Bare => sort_of_text(word.text),
        Form::End => Sort::TextEnd,
        _ => Sort::Quoted,
    }
}

impl Numbered for Sort {
    ghost number = { number_of };

    ghost all = { all_sorts };

    fn number(self) -> usize {
        self as usize
    }

    ghost listed = { listed };

    ghost few = { few };
}
