//! The rules of the statements.
ghost use Rattle.std.specs.Prelude.{◌≡◌, IfOk, Option, ℕ};
ghost use Rattle.lef_tech.specs.Record.{fits, rule_by, rule_with, rule_between, rule_across, rule_among, rule_of, rules_of};

use crate::facts::{Facts, PartFacts, parts_of};
use crate::layer::LayerRef;
use crate::rule::ViaRule;
use crate::statement::Statement;
use outside::Name;
use std::alloc::{AllocError, Global};

/// Whether a cut has an area, and is at most its pitch in x and in y.
fn fits(extent: (u64, u64), pitch: (u64, u64)) -> bool
    ensures { result ≡ fits extent pitch }
{
    0 < extent.0 && 0 < extent.1 && extent.0 <= pitch.0 && extent.1 <= pitch.1
}

/// The rule of a lower and an upper routing layer and a cut layer.
fn rule_with(
    alloc: Global,
    name: &Name,
    lower: (u32, Facts),
    upper: (u32, Facts),
    cut: (u32, Facts),
) -> Result<Option<ViaRule>, AllocError>
    ensures { IfOk result (λ rule. rule ≡ rule_with name.now lower.0 lower.1 upper.0 upper.1 cut.0 cut.1) }
{
    let (Some(a), Some(b), Some(extent), Some(pitch)) = (
        lower.1.enclosure,
        upper.1.enclosure,
        cut.1.extent,
        cut.1.pitch,
    ) else {
        return Ok(None);
    };
    if !fits(extent, pitch) {
        return Ok(None);
    }
    Ok(Some(ViaRule {
        name: Name::new(alloc, name.bytes())?,
        lower: lower.0,
        upper: upper.0,
        cut: cut.0,
        lower_enclosure: a,
        upper_enclosure: b,
        lower_widths: lower.1.widths,
        upper_widths: upper.1.widths,
        cut_x: extent.0,
        cut_y: extent.1,
        pitch_x: pitch.0,
        pitch_y: pitch.1,
        per_cut: cut.1.resistance,
    }))
}

/// The rule of two routing layers and a cut layer.
fn rule_between(
    alloc: Global,
    name: &Name,
    first: (u32, Facts),
    second: (u32, Facts),
    cut: (u32, Facts),
) -> Result<Option<ViaRule>, AllocError>
    ensures { IfOk result (λ rule. rule ≡ rule_between name.now first.0 first.1 second.0 second.1 cut.0 cut.1) }
{
    if first.0 < second.0 {
        rule_with(alloc, name, first, second, cut)
    } else if second.0 < first.0 {
        rule_with(alloc, name, second, first, cut)
    } else {
        Ok(None)
    }
}

/// The rule of a cut layer and two other layers.
fn rule_across(
    alloc: Global,
    name: &Name,
    cut: (u32, Facts),
    a: PartFacts,
    b: PartFacts,
) -> Result<Option<ViaRule>, AllocError>
    ensures { IfOk result (λ rule. rule ≡ rule_across name.now cut.0 cut.1 a b a.reference b.reference) }
{
    match (a.reference, b.reference) {
        (Some(LayerRef::Routing(i)), Some(LayerRef::Routing(j))) => {
            rule_between(alloc, name, (i, a.facts), (j, b.facts), cut)
        }
        _ => Ok(None),
    }
}

/// The rule of three layers.
fn rule_among(
    alloc: Global,
    name: &Name,
    a: PartFacts,
    b: PartFacts,
    c: PartFacts,
) -> Result<Option<ViaRule>, AllocError>
    ensures { IfOk result (λ rule. rule ≡ rule_among name.now a b c a.reference b.reference c.reference) }
{
    match (a.reference, b.reference, c.reference) {
        (Some(LayerRef::Cut(k)), _, _) => rule_across(alloc, name, (k, a.facts), b, c),
        (_, Some(LayerRef::Cut(k)), _) => rule_across(alloc, name, (k, b.facts), a, c),
        (_, _, Some(LayerRef::Cut(k))) => rule_across(alloc, name, (k, c.facts), a, b),
        _ => Ok(None),
    }
}

/// The rule with this name and these parts.
fn rule_of(alloc: Global, name: &Name, parts: &[PartFacts]) -> Result<Option<ViaRule>, AllocError>
    ensures { IfOk result (λ rule. rule ≡ rule_of name.now parts.now) }
{
    match parts {
        [a, b, c] => rule_among(alloc, name, *a, *b, *c),
        _ => Ok(None),
    }
}

/// The rules of the statements.
pub(crate) fn rules_in(alloc: Global, statements: &[Statement]) -> Result<Vec<ViaRule>, AllocError>
    ensures { IfOk result (λ rules. rules.items ≡ rules_of statements.now) }
{
    let mut rules = Vec::new(alloc);
    for (place, statement) in statements.iter().enumerate() {
        if let Statement::Rule(name) = statement {
            let parts = parts_of(alloc, &statements[place + 1..])?;
            if let Some(rule) = rule_of(alloc, name, &parts)? {
                rules.push(rule)?;
            }
        }
    }
    Ok(rules)
}
