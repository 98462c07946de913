//! The first name that is not known.
ghost use Rattle.std.specs.Prelude.{◌≡◌, IfOk};
ghost use Rattle.wire_names.specs.Names.{first_some, unknown, unknown_in_via, unknown_in_segment, unknown_in_place, unknown_in_net, first_unknown};
ghost use Rattle.wire_names.specs.inside.Tables.{names_in};

use crate::tables::Tables;
use def_wiring::{Segment, ViaDef, ViaPlace, WiredNet, Wires};
use name_places::NamePlaces;
use outside::Name;
use std::alloc::{AllocError, Global};

// The first name of all that is not known.
pub(crate) fn first_unknown<'a>(
    alloc: Global,
    tables: &Tables<'a>,
    wires: &'a Wires,
) -> Result<Option<Name>, AllocError>
    ensures { IfOk result (λ name. name ≡ first_unknown (names_in tables.now) wires.now) }
{
    if let Some(name) = in_vias(alloc, tables, wires.vias.as_slice())? {
        return Ok(Some(name));
    }
    in_nets(alloc, tables, wires.nets.as_slice())
}

#[tactic(auto, using(crate::proofs::Found::found_at, crate::proofs::Found::none_at))]
fn in_vias<'a>(
    alloc: Global,
    tables: &Tables<'a>,
    vias: &'a [ViaDef],
) -> Result<Option<Name>, AllocError>
    ensures { IfOk result (λ name. name ≡ first_some (unknown_in_via (names_in tables.now)) vias.now) }
{
    for via in vias {
        if let Some(name) = in_via(alloc, tables, via)? {
            return Ok(Some(name));
        }
    }
    Ok(None)
}

#[tactic(auto, using(crate::proofs::Found::found_at, crate::proofs::Found::none_at))]
fn in_nets<'a>(
    alloc: Global,
    tables: &Tables<'a>,
    nets: &'a [WiredNet],
) -> Result<Option<Name>, AllocError>
    ensures { IfOk result (λ name. name ≡ first_some (unknown_in_net (names_in tables.now)) nets.now) }
{
    for net in nets {
        if let Some(name) = in_net(alloc, tables, net)? {
            return Ok(Some(name));
        }
    }
    Ok(None)
}

fn in_net<'a>(
    alloc: Global,
    tables: &Tables<'a>,
    net: &'a WiredNet,
) -> Result<Option<Name>, AllocError>
    ensures { IfOk result (λ name. name ≡ unknown_in_net (names_in tables.now) net.now) }
{
    if let Some(name) = in_segments(alloc, tables, net.segments.as_slice())? {
        return Ok(Some(name));
    }
    in_places(alloc, tables, net.vias.as_slice())
}

#[tactic(auto, using(crate::proofs::Found::found_at, crate::proofs::Found::none_at))]
fn in_places<'a>(
    alloc: Global,
    tables: &Tables<'a>,
    places: &'a [ViaPlace],
) -> Result<Option<Name>, AllocError>
    ensures { IfOk result (λ name. name ≡ first_some (unknown_in_place (names_in tables.now)) places.now) }
{
    for place in places {
        if let Some(name) = unknown(alloc, &tables.layers, &place.layer)? {
            return Ok(Some(name));
        }
    }
    Ok(None)
}

#[tactic(auto, using(crate::proofs::Found::found_at, crate::proofs::Found::none_at))]
fn in_segments<'a>(
    alloc: Global,
    tables: &Tables<'a>,
    segments: &'a [Segment],
) -> Result<Option<Name>, AllocError>
    ensures { IfOk result (λ name. name ≡ first_some (unknown_in_segment (names_in tables.now)) segments.now) }
{
    for segment in segments {
        if let Some(name) = unknown(alloc, &tables.layers, &segment.layer)? {
            return Ok(Some(name));
        }
    }
    Ok(None)
}

fn in_via<'a>(
    alloc: Global,
    tables: &Tables<'a>,
    via: &'a ViaDef,
) -> Result<Option<Name>, AllocError>
    ensures { IfOk result (λ name. name ≡ unknown_in_via (names_in tables.now) via.now) }
{
    if let Some(name) = unknown(alloc, &tables.rules, &via.rule)? {
        return Ok(Some(name));
    }
    if let Some(name) = unknown(alloc, &tables.layers, &via.lower)? {
        return Ok(Some(name));
    }
    if let Some(name) = unknown(alloc, &tables.cuts, &via.cut)? {
        return Ok(Some(name));
    }
    unknown(alloc, &tables.layers, &via.upper)
}

// The name, where it is none of these.
fn unknown<'a>(
    alloc: Global,
    names: &NamePlaces<'a>,
    name: &'a Name,
) -> Result<Option<Name>, AllocError>
    ensures { IfOk result (λ answer. answer ≡ unknown names.now name.now) }
{
    match names.place(name.bytes()) {
        Some(_) => Ok(None),
        None => Ok(Some(Name::new(alloc, name.bytes())?)),
    }
}
