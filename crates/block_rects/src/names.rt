//! The layers of a technology by their names.
ghost use Rattle.std.specs.Prelude.{◌≡◌, IfOk, map};
ghost use Rattle.lef_tech.specs.declared.layer.CutLayer.{CutLayer};
ghost use Rattle.lef_tech.specs.declared.layer.RoutingLayer.{RoutingLayer};
ghost use Rattle.block_rects.specs.Layers.{HasNamesOf, first_layer, layer_of, place_of_layer};

use lef_tech::{LayerRef, Tech};
use name_places::NamePlaces;
use outside::Name;
use std::alloc::{AllocError, Global};

/// Tables of the names of routing layers and of cut layers.
#[derive(Drop)]
pub struct LayerNames<'a> {
    pub routing: NamePlaces<'a>,
    pub cuts: NamePlaces<'a>,
}

/// The tables of a technology.
///
/// Error: want of memory.
pub fn layer_names<'a>(alloc: Global, tech: &'a Tech) -> Result<LayerNames<'a>, AllocError>
    ensures { IfOk result (HasNamesOf tech.now) }
{
    Ok(LayerNames {
        routing: routing_names(alloc, tech)?,
        cuts: cut_names(alloc, tech)?,
    })
}

fn routing_names<'a>(alloc: Global, tech: &'a Tech) -> Result<NamePlaces<'a>, AllocError>
    ensures { IfOk result (λ table. table ≡ map (λ (layer : RoutingLayer). layer.name) tech.now.routing) }
{
    let mut names: Vec<&'a [u8]> = Vec::new(alloc);
    for layer in tech.routing.as_slice() {
        names.push(layer.name.bytes())?;
    }
    NamePlaces::new(alloc, names)
}

fn cut_names<'a>(alloc: Global, tech: &'a Tech) -> Result<NamePlaces<'a>, AllocError>
    ensures { IfOk result (λ table. table ≡ map (λ (layer : CutLayer). layer.name) tech.now.cuts) }
{
    let mut names: Vec<&'a [u8]> = Vec::new(alloc);
    for layer in tech.cuts.as_slice() {
        names.push(layer.name.bytes())?;
    }
    NamePlaces::new(alloc, names)
}

// The layer of a name. None where the technology has no routing or cut layer of it.
pub(crate) fn layer_of<'a>(
    tech: &Tech,
    names: &LayerNames<'a>,
    name: &'a Name,
) -> Result<Option<LayerRef>, AllocError>
    requires { HasNamesOf tech.now names.now }
    ensures { IfOk result (λ layer. layer ≡ layer_of tech.now name.now) }
{
    if let Some(place) = names.routing.place(name.bytes()) {
        return Ok(Some(LayerRef::Routing(number(place)?)));
    }
    if let Some(place) = names.cuts.place(name.bytes()) {
        return Ok(Some(LayerRef::Cut(number(place)?)));
    }
    Ok(None)
}

// The place of a routing layer of a name.
pub(crate) fn place_of_layer<'a>(
    tech: &Tech,
    names: &LayerNames<'a>,
    name: &'a Name,
) -> Result<Option<u32>, AllocError>
    requires { HasNamesOf tech.now names.now }
    ensures { IfOk result (λ place. place ≡ place_of_layer tech.now name.now) }
{
    match names.routing.place(name.bytes()) {
        Some(place) => Ok(Some(number(place)?)),
        None => Ok(None),
    }
}

// A place as a number of 32 bits. More are want of memory.
fn number(place: usize) -> Result<u32, AllocError>
    ensures { IfOk result (λ number. number ≡ place) }
{
    match u32::try_from(place) {
        Ok(number) => Ok(number),
        Err(_) => Err(AllocError),
    }
}
