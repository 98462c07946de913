//! What is asked of each word of a statement.
ghost use Rattle.std.specs.Prelude.{◌≡◌};
ghost use Rattle.lef_tech.specs.Question.{ask_head, ask_top, ask_end, ask_wire_three, ask_wire_four, ask_wire, ask_cut_three, ask_cut_four, ask_cut, ask_table, ask_values, ask_rule_two, ask_rule, ask_wire_part_two, ask_wire_part, ask_cut_part_two, ask_cut_part, ask_units, question_of};

use crate::number::Quantity;
use crate::section::Section;
use crate::shape::Shape;
use crate::sort::Sort;

/// What is asked of the last word of the open unit.
#[derive(Clone, Copy, Debug)]
pub(crate) enum Question {
    Nothing,
    /// A number of this kind.
    Number(Quantity),
    /// The units of a micrometre.
    Microns,
    /// A number of this kind above the point before.
    Point(Quantity),
    /// A number of this kind for a point that has no entry yet.
    Value(Quantity),
    /// That each point has its entry.
    AllValues,
    /// The name of a new layer.
    NewLayer,
    /// The name of a new rule.
    NewRule,
    /// The name of a layer.
    KnownLayer,
    /// The name of the open section.
    OwnName,
    /// Of the word before, which is all that the statement has: a number of this kind.
    Used(Quantity),
}

fn ask_head(sort: Sort) -> Question
    ensures { result ≡ ask_head sort }
{
    match sort {
        Sort::Layer => Question::NewLayer,
        Sort::ViaRule => Question::NewRule,
        _ => Question::Nothing,
    }
}

fn ask_top(shape: Shape) -> Question
    ensures { result ≡ ask_top shape }
{
    match shape {
        Shape::Two(word, _) => ask_head(word),
        _ => Question::Nothing,
    }
}

/// Of the word after `END`.
fn ask_end(sort: Sort) -> Question
    ensures { result ≡ ask_end sort }
{
    match sort {
        Sort::End => Question::OwnName,
        _ => Question::Nothing,
    }
}

fn ask_wire_three(sort: Sort, last: Sort) -> Question
    ensures { result ≡ ask_wire_three sort last }
{
    match (sort, last) {
        (Sort::Spacing, Sort::Semicolon) => Question::Used(Quantity::Length),
        (Sort::Current, Sort::Width) => Question::Nothing,
        (Sort::Current, _) => Question::Number(Quantity::WireDensity),
        _ => Question::Nothing,
    }
}

fn ask_wire_four(sort: Sort, third: Sort, last: Sort) -> Question
    ensures { result ≡ ask_wire_four sort third last }
{
    match (sort, third, last) {
        (Sort::Resistance, _, Sort::Semicolon) => Question::Used(Quantity::Resistance),
        (Sort::Current, Sort::Width, _) => Question::Number(Quantity::Length),
        _ => Question::Nothing,
    }
}

fn ask_wire(shape: Shape) -> Question
    ensures { result ≡ ask_wire shape }
{
    match shape {
        Shape::Two(word, _) => ask_end(word),
        Shape::Three(word, _, last) => ask_wire_three(word, last),
        Shape::Four(word, _, third, last) => { ask_wire_four(word, third, last) }
        _ => Question::Nothing,
    }
}

fn ask_cut_three(sort: Sort, last: Sort) -> Question
    ensures { result ≡ ask_cut_three sort last }
{
    match (sort, last) {
        (Sort::Resistance, Sort::Semicolon) => Question::Used(Quantity::Resistance),
        (Sort::Current, Sort::CutArea) => Question::Nothing,
        (Sort::Current, _) => Question::Number(Quantity::CutDensity),
        _ => Question::Nothing,
    }
}

fn ask_cut_four(sort: Sort, third: Sort) -> Question
    ensures { result ≡ ask_cut_four sort third }
{
    match (sort, third) {
        (Sort::Current, Sort::CutArea) => Question::Number(Quantity::Area),
        _ => Question::Nothing,
    }
}

fn ask_cut(shape: Shape) -> Question
    ensures { result ≡ ask_cut shape }
{
    match shape {
        Shape::Two(word, _) => ask_end(word),
        Shape::Three(word, _, last) => ask_cut_three(word, last),
        Shape::Four(word, _, third, _) => ask_cut_four(word, third),
        _ => Question::Nothing,
    }
}

fn ask_table(points: Quantity, values: Quantity, shape: Shape) -> Question
    ensures { result ≡ ask_table points values shape }
{
    match shape {
        Shape::One(word) => match word {
            Sort::Semicolon => Question::Nothing,
            _ => Question::Point(points),
        },
        Shape::Three(_, _, _) => Question::Number(values),
        _ => Question::Nothing,
    }
}

fn ask_values(values: Quantity, shape: Shape) -> Question
    ensures { result ≡ ask_values values shape }
{
    match shape {
        Shape::One(word) => match word {
            Sort::Semicolon => Question::AllValues,
            _ => Question::Value(values),
        },
        _ => Question::Nothing,
    }
}

fn ask_rule_two(sort: Sort) -> Question
    ensures { result ≡ ask_rule_two sort }
{
    match sort {
        Sort::End => Question::OwnName,
        Sort::Layer => Question::KnownLayer,
        _ => Question::Nothing,
    }
}

fn ask_rule(shape: Shape) -> Question
    ensures { result ≡ ask_rule shape }
{
    match shape {
        Shape::Two(word, _) => ask_rule_two(word),
        _ => Question::Nothing,
    }
}

fn ask_wire_part_two(sort: Sort) -> Question
    ensures { result ≡ ask_wire_part_two sort }
{
    match sort {
        Sort::End => Question::OwnName,
        Sort::Layer => Question::KnownLayer,
        Sort::Enclosure => Question::Number(Quantity::Length),
        Sort::Width => Question::Number(Quantity::Length),
        _ => Question::Nothing,
    }
}

fn ask_wire_part(shape: Shape) -> Question
    ensures { result ≡ ask_wire_part shape }
{
    match shape {
        Shape::Two(word, _) => ask_wire_part_two(word),
        Shape::Three(word, _, _) => match word {
            Sort::Enclosure => Question::Number(Quantity::Length),
            _ => Question::Nothing,
        },
        Shape::Four(word, _, _, _) => match word {
            Sort::Width => Question::Number(Quantity::Length),
            _ => Question::Nothing,
        },
        _ => Question::Nothing,
    }
}

fn ask_cut_part_two(sort: Sort) -> Question
    ensures { result ≡ ask_cut_part_two sort }
{
    match sort {
        Sort::End => Question::OwnName,
        Sort::Layer => Question::KnownLayer,
        Sort::Rect => Question::Number(Quantity::Corner),
        Sort::Spacing => Question::Number(Quantity::Length),
        Sort::Resistance => Question::Number(Quantity::Resistance),
        _ => Question::Nothing,
    }
}

fn ask_cut_part(shape: Shape) -> Question
    ensures { result ≡ ask_cut_part shape }
{
    match shape {
        Shape::Two(word, _) => ask_cut_part_two(word),
        Shape::Three(word, _, _) => match word {
            Sort::Rect => Question::Number(Quantity::Corner),
            _ => Question::Nothing,
        },
        Shape::Four(word, _, _, _) => match word {
            Sort::Rect => Question::Number(Quantity::Corner),
            Sort::Spacing => Question::Number(Quantity::Length),
            _ => Question::Nothing,
        },
        Shape::Five(word, _, _, _, _) => match word {
            Sort::Rect => Question::Number(Quantity::Corner),
            _ => Question::Nothing,
        },
        _ => Question::Nothing,
    }
}

fn ask_units(shape: Shape) -> Question
    ensures { result ≡ ask_units shape }
{
    match shape {
        Shape::Two(word, _) => ask_end(word),
        Shape::Three(_, _, _) => Question::Microns,
        _ => Question::Nothing,
    }
}

/// What is asked of the last of these words of a unit of the section.
pub(crate) fn question_of(section: Section, shape: Shape) -> Question
    ensures { result ≡ question_of section shape }
{
    match section {
        Section::Top => ask_top(shape),
        Section::Undirected => ask_wire(shape),
        Section::Directed => ask_wire(shape),
        Section::Cut => ask_cut(shape),
        Section::WireTable => ask_table(Quantity::Length, Quantity::WireDensity, shape),
        Section::CutTable => ask_table(Quantity::Area, Quantity::CutDensity, shape),
        Section::WireValues => ask_values(Quantity::WireDensity, shape),
        Section::CutValues => ask_values(Quantity::CutDensity, shape),
        Section::RuleHead => ask_rule(shape),
        Section::Rule => ask_rule(shape),
        Section::WirePart => ask_wire_part(shape),
        Section::CutPart => ask_cut_part(shape),
        Section::Units => ask_units(shape),
        _ => Question::Nothing,
    }
}
