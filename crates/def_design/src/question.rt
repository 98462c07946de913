//! What is asked of each word of a unit.
ghost use Rattle.std.specs.Prelude.{◌≡◌};
ghost use Rattle.def_design.specs.Question.{top_asks, placed_asks, part_asks, shape_asks, placement_asks, regions_asks, region_asks, entry_asks, wiring_asks, end_asks, question_at};
ghost use Rattle.def_design.specs.inside.Value.{asks_by};

use crate::number::Quantity;
use def_statements::{Section, Sort};

/// What is asked of a word.
#[derive(Clone, Copy, Debug)]
pub(crate) enum Question {
    Nothing,
    /// It is a number of this kind.
    Number(Quantity),
    /// It is another number than the one four words before it.
    Apart,
    /// No DESIGN stands before it.
    FirstDesign,
    /// No UNITS stands before it.
    FirstUnits,
    /// No DIEAREA stands before it.
    FirstDie,
    /// It ends a die that has an area, and begins no third point.
    DieEnd,
    /// It turns no row to a side.
    RowTurn,
    /// It is the count 1.
    OneRow,
    /// No component before has this name.
    NewComponent,
    /// No region before has this name.
    NewRegion,
    /// It begins no polygon.
    NoPolygon,
    /// It begins no wire.
    NoWire,
    /// All that a design has to say stands before it.
    AllStands,
}

const COORDINATE: Question = Question::Number(Quantity::Any);

/// `DESIGN`.
const DESIGN: [Question; 1] = [Question::FirstDesign];

/// `UNITS DISTANCE MICRONS n`.
const UNITS: [Question; 4] = [
    Question::FirstUnits,
    Question::Nothing,
    Question::Nothing,
    Question::Number(Quantity::Microns),
];

/// `DIEAREA ( x y ) ( x y ) ;`.
const DIE: [Question; 10] = [
    Question::FirstDie,
    Question::Nothing,
    COORDINATE,
    COORDINATE,
    Question::Nothing,
    Question::Nothing,
    COORDINATE,
    COORDINATE,
    Question::Nothing,
    Question::DieEnd,
];

/// `ROW name site x y orient DO nx BY ny STEP sx sy`.
const ROW: [Question; 13] = [
    Question::Nothing,
    Question::Nothing,
    Question::Nothing,
    COORDINATE,
    COORDINATE,
    Question::RowTurn,
    Question::Nothing,
    Question::Number(Quantity::Positive),
    Question::Nothing,
    Question::OneRow,
    Question::Nothing,
    Question::Number(Quantity::NotNegative),
    Question::Number(Quantity::NotNegative),
];

/// `COMPONENTS n` and its like, and `SPACING s`.
const COUNTED: [Question; 2] = [Question::Nothing, Question::Number(Quantity::NotNegative)];

/// `DESIGNRULEWIDTH w`, `MASK m`.
const WIDTH: [Question; 2] = [Question::Nothing, COORDINATE];

/// `- name` in COMPONENTS.
const COMPONENT: [Question; 2] = [Question::Nothing, Question::NewComponent];

/// `PLACED ( x y`.
const PLACED: [Question; 4] = [Question::Nothing, Question::Nothing, COORDINATE, COORDINATE];

/// `RECT ( x y ) ( x y`.
const RECT: [Question; 8] = [
    Question::Nothing,
    Question::Nothing,
    COORDINATE,
    COORDINATE,
    Question::Nothing,
    Question::Nothing,
    COORDINATE,
    COORDINATE,
];

const POLYGON: [Question; 1] = [Question::NoPolygon];

/// `- name ( x y ) ( x y` in REGIONS.
const REGION: [Question; 9] = [
    Question::Nothing,
    Question::NewRegion,
    Question::Nothing,
    COORDINATE,
    COORDINATE,
    Question::Nothing,
    Question::Nothing,
    Question::Apart,
    Question::Apart,
];

/// `( x y ) ( x y`.
const MORE: [Question; 7] = [
    Question::Nothing,
    COORDINATE,
    COORDINATE,
    Question::Nothing,
    Question::Nothing,
    Question::Apart,
    Question::Apart,
];

const WIRE: [Question; 1] = [Question::NoWire];

const END: [Question; 1] = [Question::AllStands];

fn top_asks(first: Sort) -> &'static [Question]
    ensures { result.now ≡ top_asks first }
{
    match first {
        Sort::Design => &DESIGN,
        Sort::Units => &UNITS,
        Sort::DieArea => &DIE,
        Sort::Row => &ROW,
        Sort::Components => &COUNTED,
        Sort::Blockages => &COUNTED,
        Sort::Regions => &COUNTED,
        Sort::SpecialNets => &COUNTED,
        _ => &[],
    }
}

fn entry_asks(first: Sort) -> &'static [Question]
    ensures { result.now ≡ entry_asks first }
{
    match first {
        Sort::Minus => &COMPONENT,
        _ => &[],
    }
}

fn placed_asks(first: Sort) -> &'static [Question]
    ensures { result.now ≡ placed_asks first }
{
    match first {
        Sort::Placed => &PLACED,
        Sort::Fixed => &PLACED,
        _ => &[],
    }
}

fn part_asks(first: Sort) -> &'static [Question]
    ensures { result.now ≡ part_asks first }
{
    match first {
        Sort::Spacing => &COUNTED,
        Sort::Width => &WIDTH,
        _ => &[],
    }
}

fn shape_asks(first: Sort) -> &'static [Question]
    ensures { result.now ≡ shape_asks first }
{
    match first {
        Sort::Rect => &RECT,
        Sort::Polygon => &POLYGON,
        _ => &[],
    }
}

fn placement_asks(first: Sort) -> &'static [Question]
    ensures { result.now ≡ placement_asks first }
{
    match first {
        Sort::Polygon => &POLYGON,
        _ => &[],
    }
}

fn regions_asks(first: Sort) -> &'static [Question]
    ensures { result.now ≡ regions_asks first }
{
    match first {
        Sort::Minus => &REGION,
        _ => &[],
    }
}

fn region_asks(first: Sort) -> &'static [Question]
    ensures { result.now ≡ region_asks first }
{
    match first {
        Sort::Open => &MORE,
        _ => &[],
    }
}

fn wiring_asks(first: Sort) -> &'static [Question]
    ensures { result.now ≡ wiring_asks first }
{
    match first {
        Sort::Routed => &WIRE,
        Sort::Fixed => &WIRE,
        Sort::Rect => &WIRE,
        Sort::Polygon => &WIRE,
        _ => &[],
    }
}

fn end_asks(first: Sort) -> &'static [Question]
    ensures { result.now ≡ end_asks first }
{
    match first {
        Sort::TextEnd => &END,
        _ => &[],
    }
}

/// What is asked of the words of a unit of this section that begins with a word of this sort. Of further words nothing is.
fn asks_of(section: Section, first: Sort) -> &'static [Question]
    ensures { result.now ≡ asks_by section first }
{
    match section {
        Section::Top => top_asks(first),
        Section::Components => entry_asks(first),
        Section::EntryPart => placed_asks(first),
        Section::Part => part_asks(first),
        Section::Parts => shape_asks(first),
        Section::Rects => shape_asks(first),
        Section::Placement => placement_asks(first),
        Section::Regions => regions_asks(first),
        Section::Region => region_asks(first),
        Section::WiringPart => wiring_asks(first),
        Section::Ended => end_asks(first),
        _ => &[],
    }
}

/// What is asked of the word that has n words before it.
fn question_at(asks: &[Question], n: usize) -> Question
    ensures { result ≡ question_at asks.now n }
{
    match asks.get(n) {
        Some(question) => *question,
        None => Question::Nothing,
    }
}

/// What is asked of the word that has n words before it in a unit of this section that begins with a word of this sort.
pub(crate) fn question_of(section: Section, first: Sort, n: usize) -> Question
    ensures { result ≡ question_at (asks_by section first) n }
{
    question_at(asks_of(section, first), n)
}
