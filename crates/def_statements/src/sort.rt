ghost use Rattle.std.specs.Prelude.{◌≡◌};
ghost use Rattle.def_statements.specs.Sort.{number_of, all_sorts, sort_of_shape, sort_of_part, sort_of_passed, sort_of_section, sort_of_row, sort_of_statement, sort_of_turn, sort_of_text, sort_of, listed, few, the};
ghost use Rattle.reading.specs.Word.{token};

use reading::{Form, Numbered, Word, keyword_or};

/// What a word of a design is, wherever it stands.
#[derive(Clone, Copy, Debug)]
pub enum Sort {
    /// `;`
    Semicolon,
    /// `(`
    Open,
    /// `)`
    Close,
    /// `+`
    Plus,
    /// `-`
    Minus,
    /// `N`
    N,
    /// `FS`
    FS,
    /// `S`
    S,
    /// `FN`
    FN,
    /// `W`
    W,
    /// `E`
    E,
    /// `FW`
    FW,
    /// `FE`
    FE,
    /// `PLACED`
    Placed,
    /// `FIXED` or `COVER`, which place a component, and say that a wire stands.
    Fixed,
    /// `END`
    End,
    /// `DESIGN`
    Design,
    /// `UNITS`
    Units,
    /// `DISTANCE`
    Distance,
    /// `MICRONS`
    Microns,
    /// `DIEAREA`
    DieArea,
    /// `ROW`
    Row,
    /// `DO`
    Do,
    /// `BY`
    By,
    /// `STEP`
    Step,
    /// `COMPONENTS`
    Components,
    /// `BLOCKAGES`
    Blockages,
    /// `REGIONS`
    Regions,
    /// `SPECIALNETS`
    SpecialNets,
    /// A word that begins a section that is passed over to `END` and the same word, but for `FILLS` and `SLOTS`.
    PassedSection,
    /// `FILLS` or `SLOTS`, which begin such a section, and stand in a blockage for what blocks no wires.
    Fills,
    /// `BEGINEXT`
    BeginExt,
    /// `LAYER`
    Layer,
    /// `PLACEMENT`
    Placement,
    /// `SPACING`
    Spacing,
    /// `PUSHDOWN`
    PushDown,
    /// `COMPONENT`
    Component,
    /// `DESIGNRULEWIDTH` or `MASK`, after which a whole number stands.
    Width,
    /// `EXCEPTPGNET`
    ExceptPgNet,
    /// `RECT`
    Rect,
    /// `POLYGON`
    Polygon,
    /// `ROUTED` or `SHIELD`, which say that a wire stands.
    Routed,
    /// A word in quotes, which is no keyword and no mark.
    Quoted,
    /// Any other bare word.
    Other,
    /// The end of the text.
    TextEnd,
}

impl Numbered for Sort {
    ghost number = { number_of };

    ghost all = { all_sorts };

    fn number(self) -> usize {
        self as usize
    }

    ghost listed = { listed };

    ghost few = { few };
}

/// Whether the sort is this one.
pub fn is_the(this: Sort, sort: Sort) -> bool
    ensures { result ≡ the this sort }
{
    sort.number() == this.number()
}

/// The sort of a bare word.
fn sort_of_text(text: &[u8]) -> Sort
    ensures { result ≡ sort_of_text text.now }
{
    keyword_or!(text;
        b";" => Sort::Semicolon, b"(" => Sort::Open, b")" => Sort::Close, b"+" => Sort::Plus, b"-" => Sort::Minus;
        sort_of_turn(text))
}

/// The sort of a bare word that is no mark.
fn sort_of_turn(text: &[u8]) -> Sort
    ensures { result ≡ sort_of_turn text.now }
{
    keyword_or!(text;
        b"N" => Sort::N, b"FS" => Sort::FS, b"S" => Sort::S, b"FN" => Sort::FN, b"W" => Sort::W, b"E" => Sort::E,
        b"FW" => Sort::FW, b"FE" => Sort::FE;
        sort_of_statement(text))
}

/// The sort of a bare word that is no mark and no orientation.
fn sort_of_statement(text: &[u8]) -> Sort
    ensures { result ≡ sort_of_statement text.now }
{
    keyword_or!(text;
        b"PLACED" => Sort::Placed, b"FIXED" => Sort::Fixed, b"COVER" => Sort::Fixed, b"END" => Sort::End,
        b"DESIGN" => Sort::Design, b"UNITS" => Sort::Units, b"DISTANCE" => Sort::Distance, b"MICRONS" => Sort::Microns;
        sort_of_row(text))
}

/// The sort of another bare word.
fn sort_of_row(text: &[u8]) -> Sort
    ensures { result ≡ sort_of_row text.now }
{
    keyword_or!(text;
        b"DIEAREA" => Sort::DieArea, b"ROW" => Sort::Row, b"DO" => Sort::Do, b"BY" => Sort::By, b"STEP" => Sort::Step;
        sort_of_section(text))
}

/// The sort of another bare word.
fn sort_of_section(text: &[u8]) -> Sort
    ensures { result ≡ sort_of_section text.now }
{
    keyword_or!(text;
        b"COMPONENTS" => Sort::Components, b"BLOCKAGES" => Sort::Blockages, b"REGIONS" => Sort::Regions,
        b"SPECIALNETS" => Sort::SpecialNets, b"FILLS" => Sort::Fills, b"SLOTS" => Sort::Fills,
        b"BEGINEXT" => Sort::BeginExt;
        sort_of_passed(text))
}

/// The sort of another bare word.
fn sort_of_passed(text: &[u8]) -> Sort
    ensures { result ≡ sort_of_passed text.now }
{
    keyword_or!(text;
        b"VIAS" => Sort::PassedSection, b"PROPERTYDEFINITIONS" => Sort::PassedSection,
        b"NONDEFAULTRULES" => Sort::PassedSection, b"STYLES" => Sort::PassedSection, b"PINS" => Sort::PassedSection,
        b"PINPROPERTIES" => Sort::PassedSection, b"NETS" => Sort::PassedSection,
        b"SCANCHAINS" => Sort::PassedSection, b"GROUPS" => Sort::PassedSection;
        sort_of_part(text))
}

/// The sort of a bare word that is no mark and begins no statement.
fn sort_of_part(text: &[u8]) -> Sort
    ensures { result ≡ sort_of_part text.now }
{
    keyword_or!(text;
        b"LAYER" => Sort::Layer, b"PLACEMENT" => Sort::Placement, b"SPACING" => Sort::Spacing,
        b"PUSHDOWN" => Sort::PushDown, b"COMPONENT" => Sort::Component, b"DESIGNRULEWIDTH" => Sort::Width,
        b"MASK" => Sort::Width, b"EXCEPTPGNET" => Sort::ExceptPgNet;
        sort_of_shape(text))
}

/// The sort of another bare word.
fn sort_of_shape(text: &[u8]) -> Sort
    ensures { result ≡ sort_of_shape text.now }
{
    keyword_or!(text;
        b"RECT" => Sort::Rect, b"POLYGON" => Sort::Polygon, b"ROUTED" => Sort::Routed, b"SHIELD" => Sort::Routed;
        Sort::Other)
}

/// The sort of a word.
pub fn sort_of(word: &Word<'_>) -> Sort
    ensures { result ≡ sort_of (token word.now) }
{
    match word.form {
        Form::Bare => sort_of_text(word.text),
        Form::End => Sort::TextEnd,
        _ => Sort::Quoted,
    }
}
