//! Technologies: `order r0 c0 r1 ..`, `routing NAME X|Y SPACING SHEET DENSITY`, `cut NAME PER_CUT DENSITY` and `rule NAME layers ..`,
//! one list after the other.
use crate::line::{add_number, add_word, begin, end, number_kind, refusal};
use crate::{Printed, RECORD};
use fixed_decimal::print;
use geom_rect::Axis;
use lef_tech::{CutLayer, Density, LayerRef, RoutingLayer, Tech, TechKind, ViaRule, read_tech};
use std::alloc::{AllocError, Global};

/// The kind of a refusal, as it is printed. Want of memory is no kind.
fn kind_text(kind: TechKind) -> Option<&'static [u8]> {
    match kind {
        TechKind::Syntax => Some(b"Syntax"),
        TechKind::BadString => Some(b"BadString"),
        TechKind::Number(error) => Some(number_kind(error)),
        TechKind::Twice => Some(b"Twice"),
        TechKind::UnknownLayer => Some(b"UnknownLayer"),
        TechKind::BadTable => Some(b"BadTable"),
        TechKind::Want => None,
    }
}

/// A number, or `none`.
fn add_stated(out: &mut Vec<u8>, value: Option<u64>) -> Result<(), AllocError> {
    match value {
        Some(value) => add_number(out, i128::from(value)),
        None => add_word(out, b"none"),
    }
}

fn add_pair(out: &mut Vec<u8>, pair: (u64, u64)) -> Result<(), AllocError> {
    add_number(out, i128::from(pair.0))?;
    add_number(out, i128::from(pair.1))
}

fn add_widths(out: &mut Vec<u8>, pair: Option<(u64, u64)>) -> Result<(), AllocError> {
    match pair {
        Some(pair) => add_pair(out, pair),
        None => add_word(out, b"none"),
    }
}

/// A layer's type and its place among those of its type.
fn add_reference(out: &mut Vec<u8>, reference: LayerRef) -> Result<(), AllocError> {
    match reference {
        LayerRef::Routing(place) => {
            add_word(out, b"r")?;
            print(out, i128::from(place), 0)
        }
        LayerRef::Cut(place) => {
            add_word(out, b"c")?;
            print(out, i128::from(place), 0)
        }
    }
}

fn add_order(out: &mut Vec<u8>, order: &[LayerRef]) -> Result<(), AllocError> {
    begin(out, b"order")?;
    for reference in order {
        add_reference(out, *reference)?;
    }
    end(out)
}

fn add_density(out: &mut Vec<u8>, density: &Density) -> Result<(), AllocError> {
    match density {
        Density::Unlimited => add_word(out, b"unlimited"),
        Density::One(value) => {
            add_word(out, b"one")?;
            add_number(out, i128::from(*value))
        }
        Density::Table(points) => {
            add_word(out, b"table")?;
            for point in points.as_slice() {
                add_number(out, i128::from(point.0))?;
                out.push(b':')?;
                print(out, i128::from(point.1), 0)?;
            }
            Ok(())
        }
    }
}

fn add_routing(out: &mut Vec<u8>, layer: &RoutingLayer) -> Result<(), AllocError> {
    begin(out, b"routing")?;
    add_word(out, layer.name.bytes())?;
    match layer.direction {
        Axis::X => add_word(out, b"X")?,
        Axis::Y => add_word(out, b"Y")?,
    }
    add_number(out, i128::from(layer.spacing))?;
    add_stated(out, layer.sheet)?;
    add_density(out, &layer.density)?;
    end(out)
}

fn add_cut(out: &mut Vec<u8>, layer: &CutLayer) -> Result<(), AllocError> {
    begin(out, b"cut")?;
    add_word(out, layer.name.bytes())?;
    add_stated(out, layer.per_cut)?;
    add_density(out, &layer.density)?;
    end(out)
}

fn add_rule(out: &mut Vec<u8>, rule: &ViaRule) -> Result<(), AllocError> {
    begin(out, b"rule")?;
    add_word(out, rule.name.bytes())?;
    add_word(out, b"layers")?;
    add_number(out, i128::from(rule.lower))?;
    add_number(out, i128::from(rule.upper))?;
    add_number(out, i128::from(rule.cut))?;
    add_word(out, b"enclosures")?;
    add_pair(out, rule.lower_enclosure)?;
    add_pair(out, rule.upper_enclosure)?;
    add_word(out, b"widths")?;
    add_widths(out, rule.lower_widths)?;
    add_widths(out, rule.upper_widths)?;
    add_word(out, b"cut")?;
    add_pair(out, (rule.cut_x, rule.cut_y))?;
    add_word(out, b"pitch")?;
    add_pair(out, (rule.pitch_x, rule.pitch_y))?;
    add_word(out, b"per_cut")?;
    add_stated(out, rule.per_cut)?;
    end(out)
}

fn record(alloc: Global, tech: &Tech) -> Result<Vec<u8>, AllocError> {
    let mut out = Vec::new(alloc);
    add_order(&mut out, tech.order.as_slice())?;
    for layer in tech.routing.as_slice() {
        add_routing(&mut out, layer)?;
    }
    for layer in tech.cuts.as_slice() {
        add_cut(&mut out, layer)?;
    }
    for rule in tech.rules.as_slice() {
        add_rule(&mut out, rule)?;
    }
    Ok(out)
}

/// What is printed of a technology.
pub(crate) fn told(alloc: Global, text: &[u8]) -> Result<Printed, AllocError> {
    match read_tech(alloc, text) {
        Ok(tech) => Ok(Printed {
            text: record(alloc, &tech)?,
            status: RECORD,
        }),
        Err(error) => refusal(alloc, error.place, kind_text(error.kind)),
    }
}
