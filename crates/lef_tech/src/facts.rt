//! What the statements of a layer or of a rule's layer say.
ghost use Rattle.std.specs.Prelude.{◌≡◌, ◌<◌, ◌≤◌, length, take, IfOk};
ghost use Rattle.lef_tech.specs.Record.{no_facts, with_fact, facts_of, is_head, body_of, parts_of};

use crate::layer::LayerRef;
use crate::statement::Statement;
use geom_rect::Axis;
use std::alloc::{AllocError, Global};

/// The types of layers that a technology has.
#[derive(Clone, Copy, Debug)]
pub(crate) enum LayerKind {
    OfWires,
    OfCuts,
}

/// What the statements of a layer or of a rule's layer say.
#[derive(Clone, Copy, Debug)]
pub(crate) struct Facts {
    pub(crate) kind: Option<LayerKind>,
    pub(crate) direction: Option<Axis>,
    pub(crate) spacing: Option<u64>,
    pub(crate) resistance: Option<u64>,
    pub(crate) enclosure: Option<(u64, u64)>,
    pub(crate) widths: Option<(u64, u64)>,
    pub(crate) extent: Option<(u64, u64)>,
    pub(crate) pitch: Option<(u64, u64)>,
}

/// The part of a rule for one of its layers.
#[derive(Clone, Copy, Debug)]
pub(crate) struct PartFacts {
    pub(crate) reference: Option<LayerRef>,
    pub(crate) facts: Facts,
}

impl Facts {
    /// Nothing is said.
    fn new() -> Facts
        ensures { result ≡ no_facts }
    {
        Facts {
            kind: None,
            direction: None,
            spacing: None,
            resistance: None,
            enclosure: None,
            widths: None,
            extent: None,
            pitch: None,
        }
    }

    /// One more statement before the others.
    fn put(&mut self, statement: &Statement)
        ensures { self.new ≡ with_fact statement.now self.old }
    {
        match statement {
            Statement::Wires => self.kind = Some(LayerKind::OfWires),
            Statement::Cuts => self.kind = Some(LayerKind::OfCuts),
            Statement::Along(axis) => self.direction = Some(*axis),
            Statement::Spacing(length) => self.spacing = Some(*length),
            Statement::Resistance(value) => self.resistance = Some(*value),
            Statement::Enclosure(a, b) => self.enclosure = Some((*a, *b)),
            Statement::Widths(a, b) => self.widths = Some((*a, *b)),
            Statement::Extent(a, b) => self.extent = Some((*a, *b)),
            Statement::Pitch(a, b) => self.pitch = Some((*a, *b)),
            _ => {}
        }
    }
}

/// What the statements say.
pub(crate) fn facts_of(body: &[Statement]) -> Facts
    ensures { result ≡ facts_of body.now }
{
    let mut facts = Facts::new();
    let mut left = body.len();
    while left > 0 {
        left -= 1;
        facts.put(&body[left]);
    }
    facts
}

/// Whether the statement begins a layer, a rule, or a part of a rule.
fn is_head(statement: &Statement) -> bool
    ensures { result ≡ is_head statement.now }
{
    match statement {
        Statement::Layer(_) => true,
        Statement::Rule(_) => true,
        Statement::Part(_) => true,
        _ => false,
    }
}

/// How many statements there are up to the next head.
fn body_len(statements: &[Statement]) -> usize
    ensures within { result ≤ length statements.now }
    ensures is { take result statements.now ≡ body_of statements.now }
{
    for (place, statement) in statements.iter().enumerate() {
        if is_head(statement) {
            return place;
        }
    }
    statements.len()
}

/// The statements up to the next head.
pub(crate) fn body_of(statements: &[Statement]) -> &[Statement]
    ensures { result.now ≡ body_of statements.now }
{
    &statements[..body_len(statements)]
}

/// The parts of a rule, up to the next layer or rule.
pub(crate) fn parts_of(
    alloc: Global,
    statements: &[Statement],
) -> Result<Vec<PartFacts>, AllocError>
    ensures { IfOk result (λ parts. parts.items ≡ parts_of statements.now) }
{
    let mut parts = Vec::new(alloc);
    for (place, statement) in statements.iter().enumerate() {
        match statement {
            Statement::Layer(_) => return Ok(parts),
            Statement::Rule(_) => return Ok(parts),
            Statement::Part(reference) => parts.push(PartFacts {
                reference: *reference,
                facts: facts_of(body_of(&statements[place + 1..])),
            })?,
            _ => {}
        }
    }
    Ok(parts)
}
