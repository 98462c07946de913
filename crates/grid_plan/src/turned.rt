//! What the directions of layers refuse.
ghost use Rattle.std.specs.Prelude.{◌≡◌};
ghost use Rattle.grid_plan.specs.Planning.{layer_refusal};
ghost use Rattle.grid_plan.specs.Resolved.{is_upright};
ghost use Rattle.grid_plan.specs.Turned.{same_axis, are_parallel, first_straight, first_upended, first_parallel, upended_layer, is_upended};
ghost use Rattle.grid_plan.specs.inside.Answers.{Tells};
ghost use Rattle.grid_plan.specs.inside.Tables.{names_in};

use crate::commands::{direction, layer_at};
use crate::tables::{Tables, place_in};
use crate::units::number;
use geom_rect::Axis;
use grid_pieces::DrawError;
use lef_tech::Tech;
use outside::Name;
use pdn_script::{Connect, Ring, Script, Stripe};

// Refuses rings, rails and connects whose layers have the wrong directions.
pub(crate) fn check_layers<'a>(
    tech: &Tech,
    tables: &Tables<'a>,
    script: &'a Script,
) -> Result<(), DrawError>
    ensures { Tells (layer_refusal tech.now (names_in tables.now) script.now) result }
{
    if let Some(ring) = first_straight(tech, tables, script.rings.as_slice()) {
        return Err(DrawError::RingLayers(number(ring)?));
    }
    if let Some(layer) = first_upended(tech, tables, script.stripes.as_slice()) {
        return Err(DrawError::RailLayer(number(layer)?));
    }
    if let Some(connect) = first_parallel(tech, tables, script.connects.as_slice()) {
        return Err(DrawError::ParallelConnect(number(connect)?));
    }
    Ok(())
}

#[tactic(auto, using(crate::proofs::Ordered::first_passes, crate::proofs::Ordered::none_passes))]
fn first_straight<'a>(tech: &Tech, tables: &Tables<'a>, rings: &'a [Ring]) -> Option<usize>
    ensures { result ≡ first_straight tech.now (names_in tables.now) rings.now }
{
    for (k, ring) in rings.iter().enumerate() {
        if are_parallel(tech, tables, ring.layers.as_slice()) {
            return Some(k);
        }
    }
    None
}

#[tactic(auto, using(crate::proofs::Ordered::found_at, crate::proofs::Ordered::none_at))]
fn first_upended<'a>(tech: &Tech, tables: &Tables<'a>, stripes: &'a [Stripe]) -> Option<usize>
    ensures { result ≡ first_upended tech.now (names_in tables.now) stripes.now }
{
    for stripe in stripes {
        if let Some(layer) = upended_layer(tech, tables, stripe) {
            return Some(layer);
        }
    }
    None
}

#[tactic(auto, using(crate::proofs::Ordered::first_passes, crate::proofs::Ordered::none_passes))]
fn first_parallel<'a>(tech: &Tech, tables: &Tables<'a>, connects: &'a [Connect]) -> Option<usize>
    ensures { result ≡ first_parallel tech.now (names_in tables.now) connects.now }
{
    for (k, connect) in connects.iter().enumerate() {
        if are_parallel(tech, tables, connect.layers.as_slice()) {
            return Some(k);
        }
    }
    None
}

// Whether two layers have one direction.
fn are_parallel<'a>(tech: &Tech, tables: &Tables<'a>, layers: &'a [Name]) -> bool
    ensures { result ≡ are_parallel tech.now (names_in tables.now) layers.now }
{
    let one = direction(tech, layer_at(tables, layers, 0));
    let other = direction(tech, layer_at(tables, layers, 1));
    same_axis(one, other)
}

fn same_axis(one: Axis, other: Axis) -> bool
    ensures { result ≡ same_axis one other }
{
    match one {
        Axis::X => !is_upright(other),
        Axis::Y => is_upright(other),
    }
}

fn is_upright(axis: Axis) -> bool
    ensures { result ≡ is_upright axis }
{
    match axis {
        Axis::X => false,
        Axis::Y => true,
    }
}

fn upended_layer<'a>(tech: &Tech, tables: &Tables<'a>, stripe: &'a Stripe) -> Option<usize>
    ensures { result ≡ upended_layer tech.now (names_in tables.now) stripe.now }
{
    if is_upended(tech, tables, stripe) {
        return Some(place_in(&tables.layers, &stripe.layer));
    }
    None
}

// Whether the stripe has rails, on a layer that is not horizontal.
fn is_upended<'a>(tech: &Tech, tables: &Tables<'a>, stripe: &'a Stripe) -> bool
    ensures { result ≡ is_upended tech.now (names_in tables.now) stripe.now }
{
    stripe.followpins && is_upright(direction(tech, place_in(&tables.layers, &stripe.layer)))
}
