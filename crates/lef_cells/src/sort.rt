ghost use Rattle.std.specs.Prelude.{◌≡◌};
ghost use Rattle.lef_cells.specs.Sort.{number_of, all_sorts, sort_of_text, sort_of, listed, few};
ghost use Rattle.reading.specs.Word.{token};

use reading::{Form, Numbered, Word, keyword_or};

/// What a word of a LEF library is, wherever it stands.
#[derive(Clone, Copy, Debug)]
pub(crate) enum Sort {
    /// `SITE`
    Site,
    /// `MACRO`
    Macro,
    /// `VIA`, `NONDEFAULTRULE`, `LAYER` or `VIARULE`, which begin a section of this name that is passed over.
    NamedSection,
    /// `PROPERTYDEFINITIONS`, `SPACING` or `UNITS`, which begin a section that ends with `END` and the same word.
    WordSection,
    /// `BEGINEXT`
    BeginExt,
    /// `END`
    End,
    /// `LIBRARY`
    Library,
    /// `SIZE`
    Size,
    /// `BY`
    By,
    /// `CLASS`
    Class,
    /// `PIN`
    Pin,
    /// `OBS` or `DENSITY`, which begin a group that ends with `END`.
    Group,
    /// `;`
    Semicolon,
    /// `(` or `)`, which never stand for a number.
    Bracket,
    /// A word in quotes, which is no keyword.
    Quoted,
    /// Any other bare word.
    Other,
    /// The end of the text.
    TextEnd,
}

impl Numbered for Sort {
    ghost number = { number_of };

    ghost all = { all_sorts };

    fn number(self) -> usize {
        self as usize
    }

    ghost listed = { listed };

    ghost few = { few };
}

/// The sort of a bare word.
fn sort_of_text(text: &[u8]) -> Sort
    ensures { result ≡ sort_of_text text.now }
{
    keyword_or!(text;
        b"SITE" => Sort::Site, b"MACRO" => Sort::Macro, b"VIA" => Sort::NamedSection,
        b"NONDEFAULTRULE" => Sort::NamedSection, b"LAYER" => Sort::NamedSection, b"VIARULE" => Sort::NamedSection,
        b"PROPERTYDEFINITIONS" => Sort::WordSection, b"SPACING" => Sort::WordSection, b"UNITS" => Sort::WordSection,
        b"BEGINEXT" => Sort::BeginExt, b"END" => Sort::End, b"LIBRARY" => Sort::Library, b"SIZE" => Sort::Size,
        b"BY" => Sort::By, b"CLASS" => Sort::Class, b"PIN" => Sort::Pin, b"OBS" => Sort::Group,
        b"DENSITY" => Sort::Group, b";" => Sort::Semicolon, b"(" => Sort::Bracket, b")" => Sort::Bracket;
        Sort::Other)
}

/// The sort of a word.
pub(crate) fn sort_of(word: &Word<'_>) -> Sort
    ensures { result ≡ sort_of (token word.now) }
{
    match word.form {
        Form::Bare => sort_of_text(word.text),
        Form::End => Sort::TextEnd,
        _ => Sort::Quoted,
    }
}
