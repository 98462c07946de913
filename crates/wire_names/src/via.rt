//! Vias that are defined.
ghost use Rattle.std.specs.Prelude.{◌≡◌, ◌≤◌, ◌^◌, ◌+ℤ◌, ◌≤ℤ◌, pos, unsigned_abs, map, All, IfOk, length};
ghost use Rattle.def_wiring.specs.Limits.{IsLength, IsPositive, ViaKeeps};
ghost use Rattle.wire_names.specs.Keeping.{ViaStands, KeepsNumbers, IsWithin};
ghost use Rattle.wire_names.specs.Wiring.{via_of, via_with};
ghost use Rattle.wire_names.specs.inside.Tables.{names_in};

use crate::number::place;
use crate::record::NamedVia;
use crate::tables::Tables;
use def_wiring::ViaDef;
use std::alloc::{AllocError, Global};

// The vias with places for names, in their order.
pub(crate) fn vias<'a>(
    alloc: Global,
    tables: &Tables<'a>,
    vias: &'a [ViaDef],
) -> Result<Vec<NamedVia>, AllocError>
    requires { All ViaKeeps vias.now }
    ensures are { IfOk result (λ named. named.items ≡ map (via_of (names_in tables.now)) vias.now) }
    ensures stand { IfOk result (λ named. All (ViaStands (length tables.now.layers) (length tables.now.cuts)
        (length tables.now.rules)) named.items) }
{
    let mut named = Vec::new(alloc);
    for via in vias {
        named.push(named_via(tables, via)?)?;
    }
    Ok(named)
}

fn named_via<'a>(tables: &Tables<'a>, via: &'a ViaDef) -> Result<NamedVia, AllocError>
    requires { ViaKeeps via.now }
    ensures is { IfOk result (λ named. named ≡ via_of (names_in tables.now) via.now) }
    ensures stands { IfOk result (ViaStands (length tables.now.layers) (length tables.now.cuts)
        (length tables.now.rules)) }
{
    let rule = place(&tables.rules, &via.rule)?;
    let lower = place(&tables.layers, &via.lower)?;
    let cut = place(&tables.cuts, &via.cut)?;
    let upper = place(&tables.layers, &via.upper)?;
    Ok(via_with(rule, lower, cut, upper, via))
}

// A via with these places of its rule and its layers.
fn via_with(rule: u32, lower: u32, cut: u32, upper: u32, via: &ViaDef) -> NamedVia
    requires { ViaKeeps via.now }
    ensures is { result ≡ via_with rule lower cut upper via.now }
    ensures keeps { KeepsNumbers result }
{
    NamedVia {
        rule,
        lower,
        cut,
        upper,
        columns: count(via.columns),
        rows: count(via.rows),
        cut_x: via.cut_x,
        cut_y: via.cut_y,
        pitch_x: pitch(via.gap_x, via.cut_x),
        pitch_y: pitch(via.gap_y, via.cut_y),
        lower_x: via.lower_x,
        lower_y: via.lower_y,
        upper_x: via.upper_x,
        upper_y: via.upper_y,
    }
}

// A number of columns or rows.
fn count(number: i64) -> u32
    requires { IsPositive number }
    ensures is { result ≡ unsigned_abs number }
    ensures some { 1 ≤ result }
    ensures few { result ≤ 2 ^ 30 }
{
    number as u32
}

// From the centre of a cut to that of the next one.
fn pitch(gap: i64, cut: i64) -> i64
    requires gap { IsLength gap }
    requires cut { IsPositive cut }
    ensures is { result ≡ gap +ℤ cut }
    ensures some { pos 1 ≤ℤ result }
    ensures within { IsWithin result }
{
    gap + cut
}
