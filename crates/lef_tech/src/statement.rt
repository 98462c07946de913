//! What the statements of a technology say, one by one. The words of a whole unit come with what they say, so that no
//! number is read here.
ghost use Rattle.std.specs.Prelude.{◌≡◌, IfOk, List};
ghost use Rattle.lef_tech.specs.declared.number.Quantity.{Quantity as Kind};
ghost use Rattle.lef_tech.specs.declared.value.Value.{Value as Spoken};
ghost use Rattle.reading.specs.declared.word.Heard.{Heard as Said};
ghost use Rattle.lef_tech.specs.Statement.{say_head, say_type, say_start, axis_of, say_wire_three, say_wire_four, say_wire, say_cut_three, say_cut_four, say_cut, say_table, say_values, say_rule, say_wire_part, say_cut_part, saying};
ghost use Rattle.lef_tech.specs.inside.Value.{told_by};

use crate::layer::LayerRef;
use crate::section::Section;
use crate::shape::Shape;
use crate::sort::Sort;
use crate::text::text_at;
use crate::value::{Value, apart_at, natural_at};
use geom_rect::Axis;
use outside::Name;
use reading::Heard;
use std::alloc::{AllocError, Global};

/// A statement that says something of a layer or a rule. Those of a layer or a rule follow its head.
#[derive(Debug, Drop)]
pub(crate) enum Statement {
    /// `LAYER name` at the top.
    Layer(Name),
    /// `VIARULE name`.
    Rule(Name),
    /// `LAYER name ;` in a rule.
    Part(Option<LayerRef>),
    /// `TYPE ROUTING ;`.
    Wires,
    /// `TYPE CUT ;`.
    Cuts,
    /// `DIRECTION`.
    Along(Axis),
    /// `SPACING s ;`, in pm.
    Spacing(u64),
    /// `RESISTANCE RPERSQ v ;` or `RESISTANCE v ;`, in nΩ.
    Resistance(u64),
    /// `DCCURRENTDENSITY AVERAGE v ;`.
    Density(u64),
    /// The first point of a table.
    Table(u64),
    /// One more point.
    Point(u64),
    /// One more entry.
    Value(u64),
    /// `ENCLOSURE o o ;`, in pm.
    Enclosure(u64, u64),
    /// `WIDTH a TO b ;`, in pm.
    Widths(u64, u64),
    /// The extent of `RECT x y x y ;` in x and in y, in pm.
    Extent(u64, u64),
    /// `SPACING x BY y ;`, in pm.
    Pitch(u64, u64),
}

fn say_head(
    alloc: Global,
    word: Sort,
    unit: &[Heard<'_, Value>],
) -> Result<Option<Statement>, AllocError>
    ensures { IfOk result (λ told. told ≡ told_by unit.now (say_head word)) }
{
    match word {
        Sort::Layer => Ok(Some(Statement::Layer(Name::new(alloc, text_at(unit, 1))?))),
        Sort::ViaRule => Ok(Some(Statement::Rule(Name::new(alloc, text_at(unit, 1))?))),
        _ => Ok(None),
    }
}

fn say_type(sort: Sort) -> Option<Statement>
    ensures { result ≡ say_type sort }
{
    match sort {
        Sort::Routing => Some(Statement::Wires),
        Sort::Cut => Some(Statement::Cuts),
        _ => None,
    }
}

fn say_start(shape: Shape) -> Option<Statement>
    ensures { (unit : List (Said Spoken)) → result ≡ told_by unit (say_start shape) }
{
    match shape {
        Shape::Three(_, kind, _) => say_type(kind),
        _ => None,
    }
}

fn axis_of(sort: Sort) -> Axis
    ensures { result ≡ axis_of sort }
{
    match sort {
        Sort::Horizontal => Axis::X,
        _ => Axis::Y,
    }
}

/// What a unit of three words says of a routing layer.
fn say_wire_three(
    word: Sort,
    second: Sort,
    last: Sort,
    unit: &[Heard<'_, Value>],
) -> Option<Statement>
    ensures { result ≡ told_by unit.now (say_wire_three word second last) }
{
    match (word, last) {
        (Sort::Direction, _) => Some(Statement::Along(axis_of(second))),
        (Sort::Spacing, Sort::Semicolon) => Some(Statement::Spacing(natural_at(unit, 2))),
        _ => None,
    }
}

/// What a unit of four words says of a routing layer.
fn say_wire_four(
    word: Sort,
    third: Sort,
    last: Sort,
    unit: &[Heard<'_, Value>],
) -> Option<Statement>
    ensures { result ≡ told_by unit.now (say_wire_four word third last) }
{
    match (word, third, last) {
        (Sort::Resistance, _, Sort::Semicolon) => Some(Statement::Resistance(natural_at(unit, 3))),
        (Sort::Current, Sort::Width, _) => Some(Statement::Table(natural_at(unit, 3))),
        (Sort::Current, _, _) => Some(Statement::Density(natural_at(unit, 2))),
        _ => None,
    }
}

fn say_wire(shape: Shape, unit: &[Heard<'_, Value>]) -> Option<Statement>
    ensures { result ≡ told_by unit.now (say_wire shape) }
{
    match shape {
        Shape::Three(word, second, last) => say_wire_three(word, second, last, unit),
        Shape::Four(word, _, third, last) => say_wire_four(word, third, last, unit),
        _ => None,
    }
}

/// What a unit of three words says of a cut layer.
fn say_cut_three(word: Sort, last: Sort, unit: &[Heard<'_, Value>]) -> Option<Statement>
    ensures { result ≡ told_by unit.now (say_cut_three word last) }
{
    match (word, last) {
        (Sort::Resistance, Sort::Semicolon) => Some(Statement::Resistance(natural_at(unit, 2))),
        _ => None,
    }
}

/// What a unit of four words says of a cut layer.
fn say_cut_four(word: Sort, third: Sort, unit: &[Heard<'_, Value>]) -> Option<Statement>
    ensures { result ≡ told_by unit.now (say_cut_four word third) }
{
    match (word, third) {
        (Sort::Current, Sort::CutArea) => Some(Statement::Table(natural_at(unit, 3))),
        (Sort::Current, _) => Some(Statement::Density(natural_at(unit, 2))),
        _ => None,
    }
}

fn say_cut(shape: Shape, unit: &[Heard<'_, Value>]) -> Option<Statement>
    ensures { result ≡ told_by unit.now (say_cut shape) }
{
    match shape {
        Shape::Three(word, _, last) => say_cut_three(word, last, unit),
        Shape::Four(word, _, third, _) => say_cut_four(word, third, unit),
        _ => None,
    }
}

/// What a unit says of a table among its points, or the first entry.
fn say_table(shape: Shape, unit: &[Heard<'_, Value>]) -> Option<Statement>
    ensures { (points values : Kind) → result ≡ told_by unit.now (say_table points values shape) }
{
    match shape {
        Shape::One(Sort::Semicolon) => None,
        Shape::One(_) => Some(Statement::Point(natural_at(unit, 0))),
        Shape::Three(_, _, _) => Some(Statement::Value(natural_at(unit, 2))),
        _ => None,
    }
}

/// What a unit says of a table among its entries.
fn say_values(shape: Shape, unit: &[Heard<'_, Value>]) -> Option<Statement>
    ensures { (values : Kind) → result ≡ told_by unit.now (say_values values shape) }
{
    match shape {
        Shape::One(Sort::Semicolon) => None,
        Shape::One(_) => Some(Statement::Value(natural_at(unit, 0))),
        _ => None,
    }
}

fn say_rule(reference: Option<LayerRef>, shape: Shape) -> Option<Statement>
    ensures { (unit : List (Said Spoken)) → result ≡ told_by unit (say_rule reference shape) }
{
    match shape {
        Shape::Three(_, _, _) => Some(Statement::Part(reference)),
        _ => None,
    }
}

/// What a unit says of a rule after a routing layer.
fn say_wire_part(
    reference: Option<LayerRef>,
    shape: Shape,
    unit: &[Heard<'_, Value>],
) -> Option<Statement>
    ensures { result ≡ told_by unit.now (say_wire_part reference shape) }
{
    match shape {
        Shape::Three(_, _, _) => Some(Statement::Part(reference)),
        Shape::Four(Sort::Enclosure, _, _, _) => {
            Some(Statement::Enclosure(natural_at(unit, 1), natural_at(unit, 2)))
        }
        Shape::Five(Sort::Width, _, _, _, _) => {
            Some(Statement::Widths(natural_at(unit, 1), natural_at(unit, 3)))
        }
        _ => None,
    }
}

/// What a unit says of a rule after its cut layer.
fn say_cut_part(
    reference: Option<LayerRef>,
    shape: Shape,
    unit: &[Heard<'_, Value>],
) -> Option<Statement>
    ensures { result ≡ told_by unit.now (say_cut_part reference shape) }
{
    match shape {
        Shape::Three(Sort::Layer, _, _) => Some(Statement::Part(reference)),
        Shape::Three(Sort::Resistance, _, _) => Some(Statement::Resistance(natural_at(unit, 1))),
        Shape::Five(Sort::Spacing, _, _, _, _) => {
            Some(Statement::Pitch(natural_at(unit, 1), natural_at(unit, 3)))
        }
        Shape::Six(Sort::Rect, _, _, _, _, _) => {
            Some(Statement::Extent(apart_at(unit, 1, 3), apart_at(unit, 2, 4)))
        }
        _ => None,
    }
}

/// What a whole unit of a section says.
pub(crate) fn statement_of(
    alloc: Global,
    section: Section,
    reference: Option<LayerRef>,
    shape: Shape,
    unit: &[Heard<'_, Value>],
) -> Result<Option<Statement>, AllocError>
    ensures { IfOk result (λ told. told ≡ told_by unit.now (saying section reference shape)) }
{
    match (section, shape) {
        (Section::Top, Shape::Two(word, _)) => say_head(alloc, word, unit),
        (Section::LayerStart, _) => Ok(say_start(shape)),
        (Section::Undirected, _) => Ok(say_wire(shape, unit)),
        (Section::Directed, _) => Ok(say_wire(shape, unit)),
        (Section::Cut, _) => Ok(say_cut(shape, unit)),
        (Section::WireTable, _) => Ok(say_table(shape, unit)),
        (Section::CutTable, _) => Ok(say_table(shape, unit)),
        (Section::WireValues, _) => Ok(say_values(shape, unit)),
        (Section::CutValues, _) => Ok(say_values(shape, unit)),
        (Section::RuleHead, _) => Ok(say_rule(reference, shape)),
        (Section::Rule, _) => Ok(say_rule(reference, shape)),
        (Section::WirePart, _) => Ok(say_wire_part(reference, shape, unit)),
        (Section::CutPart, _) => Ok(say_cut_part(reference, shape, unit)),
        _ => Ok(None),
    }
}
