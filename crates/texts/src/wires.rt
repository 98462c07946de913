//! The wiring of a design: `via NAME RULE cut X Y layers LOWER CUT UPPER gap X Y enclosure LOWER_X LOWER_Y UPPER_X UPPER_Y
//! rows N columns N`, and then `net NAME POWER|GROUND` with its `segment LAYER WIDTH RING|STRIPE|FOLLOWPIN X1 Y1 E1 X2 Y2 E2`
//! and its `place VIA LAYER X Y`.
use crate::line::{add_number, add_word, begin, end, number_kind, refusal};
use crate::{Printed, RECORD};
use def_wiring::{Segment, ViaDef, ViaPlace, WiredNet, Wires, WiresKind, read_wires};
use geom_rect::Shape;
use std::alloc::{AllocError, Global};

/// The kind of a refusal, as it is printed. Want of memory is no kind.
fn kind_text(kind: WiresKind) -> Option<&'static [u8]> {
    match kind {
        WiresKind::Syntax => Some(b"Syntax"),
        WiresKind::BadString => Some(b"BadString"),
        WiresKind::Number(error) => Some(number_kind(error)),
        WiresKind::Twice => Some(b"Twice"),
        WiresKind::UnknownVia => Some(b"UnknownVia"),
        WiresKind::WireForm => Some(b"WireForm"),
        WiresKind::ViaForm => Some(b"ViaForm"),
        WiresKind::Want => None,
    }
}

fn shape_text(shape: Shape) -> &'static [u8] {
    match shape {
        Shape::Ring => b"RING",
        Shape::Stripe => b"STRIPE",
        Shape::FollowPin => b"FOLLOWPIN",
    }
}

fn add_pair(out: &mut Vec<u8>, word: &[u8], x: i64, y: i64) -> Result<(), AllocError> {
    add_word(out, word)?;
    add_number(out, i128::from(x))?;
    add_number(out, i128::from(y))
}

fn add_via(out: &mut Vec<u8>, via: &ViaDef) -> Result<(), AllocError> {
    begin(out, b"via")?;
    add_word(out, via.name.bytes())?;
    add_word(out, via.rule.bytes())?;
    add_pair(out, b"cut", via.cut_x, via.cut_y)?;
    add_word(out, b"layers")?;
    add_word(out, via.lower.bytes())?;
    add_word(out, via.cut.bytes())?;
    add_word(out, via.upper.bytes())?;
    add_pair(out, b"gap", via.gap_x, via.gap_y)?;
    add_pair(out, b"enclosure", via.lower_x, via.lower_y)?;
    add_number(out, i128::from(via.upper_x))?;
    add_number(out, i128::from(via.upper_y))?;
    add_word(out, b"rows")?;
    add_number(out, i128::from(via.rows))?;
    add_word(out, b"columns")?;
    add_number(out, i128::from(via.columns))?;
    end(out)
}

fn add_segment(out: &mut Vec<u8>, segment: &Segment) -> Result<(), AllocError> {
    begin(out, b"segment")?;
    add_word(out, segment.layer.bytes())?;
    add_number(out, i128::from(segment.width))?;
    add_word(out, shape_text(segment.shape))?;
    for value in [
        segment.x1, segment.y1, segment.e1, segment.x2, segment.y2, segment.e2,
    ] {
        add_number(out, i128::from(value))?;
    }
    end(out)
}

fn add_place(out: &mut Vec<u8>, place: &ViaPlace) -> Result<(), AllocError> {
    begin(out, b"place")?;
    add_word(out, place.via.bytes())?;
    add_word(out, place.layer.bytes())?;
    add_number(out, i128::from(place.x))?;
    add_number(out, i128::from(place.y))?;
    end(out)
}

fn add_net(out: &mut Vec<u8>, net: &WiredNet) -> Result<(), AllocError> {
    begin(out, b"net")?;
    add_word(out, net.name.bytes())?;
    add_word(out, if net.power { b"POWER" } else { b"GROUND" })?;
    end(out)?;
    for segment in net.segments.as_slice() {
        add_segment(out, segment)?;
    }
    for place in net.vias.as_slice() {
        add_place(out, place)?;
    }
    Ok(())
}

fn record(alloc: Global, wires: &Wires) -> Result<Vec<u8>, AllocError> {
    let mut out = Vec::new(alloc);
    for via in wires.vias.as_slice() {
        add_via(&mut out, via)?;
    }
    for net in wires.nets.as_slice() {
        add_net(&mut out, net)?;
    }
    Ok(out)
}

/// What is printed of the text of wiring.
pub(crate) fn told(alloc: Global, text: &[u8]) -> Result<Printed, AllocError> {
    match read_wires(alloc, text) {
        Ok(wires) => Ok(Printed {
            text: record(alloc, &wires)?,
            status: RECORD,
        }),
        Err(error) => refusal(alloc, error.place, kind_text(error.kind)),
    }
}
