//! The layers on which a block cuts the shapes of other grids.
ghost use Rattle.std.specs.Prelude.{◌≡◌, IfOk, map};
ghost use Rattle.std.specs.Bool.{nat_eq};
ghost use Rattle.std.specs.List.{list_any, enumerate_from};
ghost use Rattle.std.specs.Str.{bytes_eq};
ghost use Rattle.pdn_script.specs.declared.record.GridRule.{GridRule};
ghost use Rattle.placed_blocks.specs.Cuts.{grid_name, is_name, is_on, goes_round, has_part, is_routing, obstructs, is_cut, cuts_of};

use block_rects::{Obstruction, PinPart};
use lef_tech::{LayerRef, Tech};
use outside::Name;
use pdn_script::{GridRule, Ring, Script, Stripe};
use std::alloc::{AllocError, Global};

// For each routing layer whether a block with this grid, these pins and these obstructions cuts on it.
pub(crate) fn cuts_of(
    alloc: Global,
    tech: &Tech,
    script: &Script,
    grid: Option<u32>,
    pins: &[PinPart],
    obstructions: &[Obstruction],
) -> Result<Vec<bool>, AllocError>
    ensures { IfOk result (λ cuts. cuts.items ≡ cuts_of tech.now script.now grid pins.now obstructions.now) }
{
    let mut cuts = Vec::new(alloc);
    for (place, layer) in tech.routing.as_slice().iter().enumerate() {
        let is = is_cut(script, grid, pins, obstructions, place, &layer.name);
        cuts.push(is)?;
    }
    Ok(cuts)
}

fn is_cut(
    script: &Script,
    grid: Option<u32>,
    pins: &[PinPart],
    obstructions: &[Obstruction],
    place: usize,
    layer: &Name,
) -> bool
    ensures { result ≡ is_cut script.now (grid_name script.now.grids grid) pins.now obstructions.now place layer.now }
{
    has_pin(pins, place)
        || is_obstructed(obstructions, place)
        || has_stripe(script, grid, layer)
        || has_ring(script, grid, layer)
}

fn has_pin(pins: &[PinPart], place: usize) -> bool
    ensures { result ≡ list_any (has_part place) pins.now }
{
    pins.iter().any(|part| part.layer as usize == place)
}

fn is_obstructed(obstructions: &[Obstruction], place: usize) -> bool
    ensures { result ≡ list_any (obstructs place) obstructions.now }
{
    obstructions
        .iter()
        .any(|obstruction| is_routing(obstruction.layer, place))
}

fn is_routing(layer: LayerRef, place: usize) -> bool
    ensures { result ≡ is_routing place layer }
{
    match layer {
        LayerRef::Routing(layer) => layer as usize == place,
        LayerRef::Cut(_) => false,
    }
}

fn has_stripe(script: &Script, grid: Option<u32>, layer: &Name) -> bool
    ensures { result ≡ list_any (is_on (grid_name script.now.grids grid) layer.now) script.now.stripes }
{
    let grids = script.grids.as_slice();
    script
        .stripes
        .as_slice()
        .iter()
        .any(|stripe| is_on(grids, grid, layer, stripe))
}

fn is_on(grids: &[GridRule], grid: Option<u32>, layer: &Name, stripe: &Stripe) -> bool
    ensures { result ≡ is_on (grid_name grids.now grid) layer.now stripe.now }
{
    stripe.layer.bytes() == layer.bytes()
        && (stripe.followpins || is_grid(grids, grid, &stripe.grid))
}

fn has_ring(script: &Script, grid: Option<u32>, layer: &Name) -> bool
    ensures { result ≡ list_any (goes_round (grid_name script.now.grids grid) layer.now) script.now.rings }
{
    let grids = script.grids.as_slice();
    script
        .rings
        .as_slice()
        .iter()
        .any(|ring| goes_round(grids, grid, layer, ring))
}

fn goes_round(grids: &[GridRule], grid: Option<u32>, layer: &Name, ring: &Ring) -> bool
    ensures { result ≡ goes_round (grid_name grids.now grid) layer.now ring.now }
{
    is_grid(grids, grid, &ring.grid) && stands_in(ring.layers.as_slice(), layer)
}

fn stands_in(listed: &[Name], name: &Name) -> bool
    ensures { result ≡ list_any (bytes_eq name.now) listed.now }
{
    listed.iter().any(|other| name.bytes() == other.bytes())
}

// Whether the grid at this place has the name.
fn is_grid(grids: &[GridRule], place: Option<u32>, name: &Name) -> bool
    ensures { result ≡ is_name (grid_name grids.now place) name.now }
{
    let Some(place) = place else {
        return false;
    };
    match grids.get(place as usize) {
        Some(grid) => grid.name.bytes() == name.bytes(),
        None => false,
    }
}
