//! Scripts: `domain`, `grid`, `stripe`, `ring` and `connect`, one list after the other, each with its options as
//! `name=value`, of which those that are absent are left out, and `at=LINE:WORD`.
use crate::line::{add_word, begin, end, number_kind, refusal};
use crate::{Printed, RECORD};
use entry_list::Entries;
use fixed_decimal::print;
use outside::{Name, Place};
use pdn_script::{Connect, Domain, GridRule, Ring, Script, ScriptKind, Start, Stripe, read_script};
use std::alloc::{AllocError, Global};

/// The kind of a refusal, as it is printed. Want of memory is no kind.
fn kind_text(kind: ScriptKind) -> Option<&'static [u8]> {
    match kind {
        ScriptKind::Syntax => Some(b"Syntax"),
        ScriptKind::BadString => Some(b"BadString"),
        ScriptKind::Substitution => Some(b"Substitution"),
        ScriptKind::AfterPdngen => Some(b"AfterPdngen"),
        ScriptKind::UnknownCommand => Some(b"UnknownCommand"),
        ScriptKind::OutOfProfile => Some(b"OutOfProfile"),
        ScriptKind::UnknownOption => Some(b"UnknownOption"),
        ScriptKind::Twice => Some(b"Twice"),
        ScriptKind::Number(error) => Some(number_kind(error)),
        ScriptKind::UnknownGrid => Some(b"UnknownGrid"),
        ScriptKind::UnknownDomain => Some(b"UnknownDomain"),
        ScriptKind::MissingOption => Some(b"MissingOption"),
        ScriptKind::NetUse => Some(b"NetUse"),
        ScriptKind::Want => None,
    }
}

/// `name=value`.
fn add_text(out: &mut Vec<u8>, name: &[u8], value: &[u8]) -> Result<(), AllocError> {
    add_word(out, name)?;
    out.push(b'=')?;
    out.extend_from_slice(value)
}

fn add_maybe_text(out: &mut Vec<u8>, name: &[u8], value: &Option<Name>) -> Result<(), AllocError> {
    match value {
        Some(value) => add_text(out, name, value.bytes()),
        None => Ok(()),
    }
}

fn add_number(out: &mut Vec<u8>, name: &[u8], value: u64) -> Result<(), AllocError> {
    add_word(out, name)?;
    out.push(b'=')?;
    print(out, i128::from(value), 0)
}

fn add_maybe_number(out: &mut Vec<u8>, name: &[u8], value: Option<u64>) -> Result<(), AllocError> {
    match value {
        Some(value) => add_number(out, name, value),
        None => Ok(()),
    }
}

fn add_maybe_count(out: &mut Vec<u8>, name: &[u8], value: Option<u32>) -> Result<(), AllocError> {
    match value {
        Some(value) => add_number(out, name, u64::from(value)),
        None => Ok(()),
    }
}

/// The name alone, where it is so.
fn add_flag(out: &mut Vec<u8>, name: &[u8], stands: bool) -> Result<(), AllocError> {
    if stands {
        add_word(out, name)?;
    }
    Ok(())
}

/// A blank between two values of a list.
fn add_blank(out: &mut Vec<u8>, first: bool) -> Result<(), AllocError> {
    if !first {
        out.push(b' ')?;
    }
    Ok(())
}

fn add_names(out: &mut Vec<u8>, name: &[u8], values: &Entries<Name>) -> Result<(), AllocError> {
    add_text(out, name, b"[")?;
    let mut first = true;
    for value in values.as_slice() {
        add_blank(out, first)?;
        out.extend_from_slice(value.bytes())?;
        first = false;
    }
    out.push(b']')?;
    Ok(())
}

fn add_maybe_names(
    out: &mut Vec<u8>,
    name: &[u8],
    values: &Option<Entries<Name>>,
) -> Result<(), AllocError> {
    match values {
        Some(values) => add_names(out, name, values),
        None => Ok(()),
    }
}

fn add_numbers(out: &mut Vec<u8>, name: &[u8], values: &Entries<u64>) -> Result<(), AllocError> {
    add_text(out, name, b"[")?;
    let mut first = true;
    for value in values.as_slice() {
        add_blank(out, first)?;
        print(out, i128::from(*value), 0)?;
        first = false;
    }
    out.push(b']')?;
    Ok(())
}

fn add_maybe_numbers(
    out: &mut Vec<u8>,
    name: &[u8],
    values: &Option<Entries<u64>>,
) -> Result<(), AllocError> {
    match values {
        Some(values) => add_numbers(out, name, values),
        None => Ok(()),
    }
}

fn add_start(out: &mut Vec<u8>, start: Start) -> Result<(), AllocError> {
    match start {
        Start::Power => add_text(out, b"starts", b"POWER"),
        Start::Ground => add_text(out, b"starts", b"GROUND"),
    }
}

fn add_maybe_start(out: &mut Vec<u8>, start: Option<Start>) -> Result<(), AllocError> {
    match start {
        Some(start) => add_start(out, start),
        None => Ok(()),
    }
}

/// The place of a command, and the end of the line.
fn add_place(out: &mut Vec<u8>, place: Place) -> Result<(), AllocError> {
    add_number(out, b"at", place.line)?;
    out.push(b':')?;
    print(out, i128::from(place.word), 0)?;
    end(out)
}

fn add_domain(out: &mut Vec<u8>, domain: &Domain) -> Result<(), AllocError> {
    begin(out, b"domain")?;
    add_text(out, b"name", domain.name.bytes())?;
    add_text(out, b"power", domain.power.bytes())?;
    add_text(out, b"ground", domain.ground.bytes())?;
    add_maybe_text(out, b"region", &domain.region)?;
    add_place(out, domain.place)
}

fn add_grid(out: &mut Vec<u8>, grid: &GridRule) -> Result<(), AllocError> {
    begin(out, b"grid")?;
    add_text(out, b"name", grid.name.bytes())?;
    add_text(out, b"domain", grid.voltage_domains.bytes())?;
    add_start(out, grid.starts_with)?;
    add_maybe_names(out, b"pins", &grid.pins)?;
    add_flag(out, b"macro", grid.macro_)?;
    add_maybe_names(out, b"orient", &grid.orient)?;
    add_maybe_numbers(out, b"halo", &grid.halo)?;
    add_maybe_names(out, b"cells", &grid.cells)?;
    add_maybe_names(out, b"instances", &grid.instances)?;
    add_flag(out, b"default", grid.default)?;
    add_flag(out, b"over_boundary", grid.grid_over_boundary)?;
    add_flag(out, b"over_pg_pins", grid.grid_over_pg_pins)?;
    add_place(out, grid.place)
}

fn add_stripe(out: &mut Vec<u8>, stripe: &Stripe) -> Result<(), AllocError> {
    begin(out, b"stripe")?;
    add_text(out, b"layer", stripe.layer.bytes())?;
    add_number(out, b"width", stripe.width)?;
    add_maybe_number(out, b"pitch", stripe.pitch)?;
    add_text(out, b"grid", stripe.grid.bytes())?;
    add_maybe_number(out, b"spacing", stripe.spacing)?;
    add_number(out, b"offset", stripe.offset)?;
    add_flag(out, b"followpins", stripe.followpins)?;
    add_flag(out, b"to_ring", stripe.extend_to_core_ring)?;
    add_flag(out, b"to_boundary", stripe.extend_to_boundary)?;
    add_maybe_count(out, b"straps", stripe.number_of_straps)?;
    add_maybe_start(out, stripe.starts_with)?;
    add_maybe_names(out, b"nets", &stripe.nets)?;
    add_place(out, stripe.place)
}

fn add_ring(out: &mut Vec<u8>, ring: &Ring) -> Result<(), AllocError> {
    begin(out, b"ring")?;
    add_names(out, b"layers", &ring.layers)?;
    add_numbers(out, b"widths", &ring.widths)?;
    add_numbers(out, b"spacings", &ring.spacings)?;
    add_numbers(out, b"offsets", &ring.core_offsets)?;
    add_text(out, b"grid", ring.grid.bytes())?;
    add_maybe_start(out, ring.starts_with)?;
    add_maybe_names(out, b"nets", &ring.nets)?;
    add_flag(out, b"add_connect", ring.add_connect)?;
    add_place(out, ring.place)
}

fn add_connect(out: &mut Vec<u8>, connect: &Connect) -> Result<(), AllocError> {
    begin(out, b"connect")?;
    add_names(out, b"layers", &connect.layers)?;
    add_text(out, b"grid", connect.grid.bytes())?;
    add_maybe_count(out, b"rows", connect.max_rows)?;
    add_maybe_count(out, b"columns", connect.max_columns)?;
    add_place(out, connect.place)
}

fn record(alloc: Global, script: &Script) -> Result<Vec<u8>, AllocError> {
    let mut out = Vec::new(alloc);
    for domain in script.domains.as_slice() {
        add_domain(&mut out, domain)?;
    }
    for grid in script.grids.as_slice() {
        add_grid(&mut out, grid)?;
    }
    for stripe in script.stripes.as_slice() {
        add_stripe(&mut out, stripe)?;
    }
    for ring in script.rings.as_slice() {
        add_ring(&mut out, ring)?;
    }
    for connect in script.connects.as_slice() {
        add_connect(&mut out, connect)?;
    }
    Ok(out)
}

/// What is printed of a script.
pub(crate) fn told(alloc: Global, text: &[u8]) -> Result<Printed, AllocError> {
    match read_script(alloc, text) {
        Ok(script) => Ok(Printed {
            text: record(alloc, &script)?,
            status: RECORD,
        }),
        Err(error) => refusal(alloc, error.place, kind_text(error.kind)),
    }
}
