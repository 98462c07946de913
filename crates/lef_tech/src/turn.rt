//! Where the next unit stands after a whole unit.
ghost use Rattle.std.specs.Prelude.{◌≡◌};
ghost use Rattle.lef_tech.specs.Pattern.{the as is_the};
ghost use Rattle.lef_tech.specs.Turn.{turn_word, turn_head, turn_top, turn_type, turn_start, turn_other, turn_layer, turn_table, turn_values, turn_rule_word, turn_rule_start, part_section, turn_part, turn_rule_head, turn_passing, turn_of};

use crate::layer::LayerRef;
use crate::section::Section;
use crate::shape::Shape;
use crate::sort::Sort;
use reading::Numbered;

/// What a whole unit does to the place of the next one.
#[derive(Clone, Copy, Debug)]
pub(crate) enum Turn {
    /// The section goes on.
    Stay,
    /// Another section goes on.
    Go(Section),
    /// A section begins that has the unit's last word as its name.
    Open(Section),
    /// The rest of a statement is passed over, and then the section goes on.
    Skip(Section),
    /// A section is passed over that has the unit's last word as its name.
    SkipSection,
    /// What another tool has added is passed over.
    SkipExtension,
    /// The open section is passed over; its last word may be `END`.
    SkipOpen(bool),
    /// One more word of what is passed over.
    Word,
    /// A table begins, whose first point is the unit's last word.
    Table(Section),
    /// One more point of the table.
    Point,
    /// The entries of the table begin with the first one.
    Values(Section),
    /// One more entry.
    Value,
    /// The table ends.
    Back,
}

/// Whether the sort is this one.
pub(crate) fn is_the(this: Sort, sort: Sort) -> bool
    ensures { result ≡ is_the this sort }
{
    sort.number() == this.number()
}

/// After the first word of a section without a name or of a statement at the top, or after the end of the text.
fn turn_word(sort: Sort) -> Turn
    ensures { result ≡ turn_word sort }
{
    match sort {
        Sort::Units => Turn::Open(Section::Units),
        Sort::Definitions => Turn::SkipSection,
        Sort::Spacing => Turn::SkipSection,
        Sort::Extension => Turn::SkipExtension,
        Sort::TextEnd => Turn::Stay,
        _ => Turn::Skip(Section::Top),
    }
}

/// After the head of a section with a name, or after `END LIBRARY`.
fn turn_head(sort: Sort) -> Turn
    ensures { result ≡ turn_head sort }
{
    match sort {
        Sort::Layer => Turn::Open(Section::LayerStart),
        Sort::ViaRule => Turn::Open(Section::RuleStart),
        Sort::End => Turn::Go(Section::Ended),
        _ => Turn::SkipSection,
    }
}

fn turn_top(shape: Shape) -> Turn
    ensures { result ≡ turn_top shape }
{
    match shape {
        Shape::One(word) => turn_word(word),
        Shape::Two(word, _) => turn_head(word),
        _ => Turn::Stay,
    }
}

/// After the type of a layer.
fn turn_type(sort: Sort) -> Turn
    ensures { result ≡ turn_type sort }
{
    match sort {
        Sort::Routing => Turn::Go(Section::Undirected),
        _ => Turn::Go(Section::Cut),
    }
}

fn turn_start(shape: Shape) -> Turn
    ensures { result ≡ turn_start shape }
{
    match shape {
        Shape::Two(_, kind) => Turn::SkipOpen(is_the(Sort::End, kind)),
        Shape::Three(_, kind, _) => turn_type(kind),
        _ => Turn::Stay,
    }
}

/// After the words of a statement that this is the last of.
fn turn_other(same: Section, sort: Sort) -> Turn
    ensures { result ≡ turn_other same sort }
{
    if is_the(Sort::Semicolon, sort) {
        Turn::Stay
    } else {
        Turn::Skip(same)
    }
}

/// After a statement of a layer whose table is by this word.
fn turn_layer(same: Section, by: Sort, table: Section, shape: Shape) -> Turn
    ensures { result ≡ turn_layer same by table shape }
{
    match shape {
        Shape::One(_) => Turn::Skip(same),
        Shape::Two(word, name) => {
            if is_the(Sort::End, word) {
                Turn::Go(Section::Top)
            } else {
                turn_other(same, name)
            }
        }
        Shape::Three(word, _, last) => {
            if is_the(Sort::Direction, word) {
                Turn::Go(Section::Directed)
            } else {
                turn_other(same, last)
            }
        }
        Shape::Four(word, _, third, last) => {
            if is_the(Sort::Current, word) && is_the(by, third) {
                Turn::Table(table)
            } else {
                turn_other(same, last)
            }
        }
        _ => Turn::Stay,
    }
}

/// After a word of a table among its points.
fn turn_table(values: Section, shape: Shape) -> Turn
    ensures { result ≡ turn_table values shape }
{
    match shape {
        Shape::One(_) => Turn::Point,
        _ => Turn::Values(values),
    }
}

/// After a word of a table among its entries.
fn turn_values(shape: Shape) -> Turn
    ensures { result ≡ turn_values shape }
{
    match shape {
        Shape::One(word) => {
            if is_the(Sort::Semicolon, word) {
                Turn::Back
            } else {
                Turn::Value
            }
        }
        _ => Turn::Stay,
    }
}

/// After the word that follows `VIARULE name`.
fn turn_rule_word(sort: Sort) -> Turn
    ensures { result ≡ turn_rule_word sort }
{
    match sort {
        Sort::Generate => Turn::Go(Section::RuleHead),
        Sort::End => Turn::SkipOpen(true),
        _ => Turn::SkipOpen(false),
    }
}

fn turn_rule_start(shape: Shape) -> Turn
    ensures { result ≡ turn_rule_start shape }
{
    match shape {
        Shape::One(word) => turn_rule_word(word),
        _ => Turn::Stay,
    }
}

/// The section after `LAYER name ;` in a rule.
fn part_section(reference: Option<LayerRef>) -> Section
    ensures { result ≡ part_section reference }
{
    match reference {
        None => Section::Rule,
        Some(LayerRef::Routing(_)) => Section::WirePart,
        Some(LayerRef::Cut(_)) => Section::CutPart,
    }
}

/// After a statement of `UNITS` or of a generate rule.
fn turn_part(same: Section, reference: Option<LayerRef>, shape: Shape) -> Turn
    ensures { result ≡ turn_part same reference shape }
{
    match shape {
        Shape::One(_) => Turn::Skip(same),
        Shape::Two(_, _) => Turn::Go(Section::Top),
        Shape::Three(word, _, _) => {
            if is_the(Sort::Layer, word) {
                Turn::Go(part_section(reference))
            } else {
                Turn::Stay
            }
        }
        _ => Turn::Stay,
    }
}

/// After the first statement that follows `GENERATE`, or after `DEFAULT`.
fn turn_rule_head(reference: Option<LayerRef>, shape: Shape) -> Turn
    ensures { result ≡ turn_rule_head reference shape }
{
    match shape {
        Shape::One(word) => {
            if is_the(Sort::Default, word) {
                Turn::Go(Section::Rule)
            } else {
                Turn::Skip(Section::Rule)
            }
        }
        _ => turn_part(Section::Rule, reference, shape),
    }
}

/// After a word of what is passed over.
fn turn_passing(shape: Shape) -> Turn
    ensures { result ≡ turn_passing shape }
{
    match shape {
        Shape::One(_) => Turn::Word,
        _ => Turn::Stay,
    }
}

/// What a whole unit of a section does to the place of the next one.
pub(crate) fn turn_of(section: Section, reference: Option<LayerRef>, shape: Shape) -> Turn
    ensures { result ≡ turn_of section reference shape }
{
    match section {
        Section::Top => turn_top(shape),
        Section::Passing => turn_passing(shape),
        Section::LayerStart => turn_start(shape),
        Section::Undirected => turn_layer(section, Sort::Width, Section::WireTable, shape),
        Section::Directed => turn_layer(section, Sort::Width, Section::WireTable, shape),
        Section::Cut => turn_layer(section, Sort::CutArea, Section::CutTable, shape),
        Section::WireTable => turn_table(Section::WireValues, shape),
        Section::CutTable => turn_table(Section::CutValues, shape),
        Section::WireValues => turn_values(shape),
        Section::CutValues => turn_values(shape),
        Section::RuleStart => turn_rule_start(shape),
        Section::RuleHead => turn_rule_head(reference, shape),
        Section::Rule => turn_part(section, reference, shape),
        Section::WirePart => turn_part(section, reference, shape),
        Section::CutPart => turn_part(section, reference, shape),
        Section::Units => turn_part(section, reference, shape),
        Section::Ended => Turn::Go(Section::Top),
    }
}
