//! From the numbers that nodes have among the cards to the places of their names in byte order. Each list is changed
//! where it stands.
ghost use Rattle.std.specs.Prelude.{◌≡◌, ◌<◌, length, map, slice_index, All};
ghost use Rattle.spice_grid.specs.Place.{placed_resistor, placed_short, placed_pad, placed_load};

use grid_net::{Load, Pad, Resistor};

// Moves the ends of resistors to their places.
fn place_resistors(resistors: &mut [Resistor], places: &[u32])
    requires { All (λ r. (r.a < length places.now) × (r.b < length places.now)) resistors.old }
    ensures { resistors.new ≡ map (placed_resistor (slice_index places.now)) resistors.old }
{
    for resistor in resistors.iter_mut() {
        resistor.a = places[resistor.a as usize];
        resistor.b = places[resistor.b as usize];
    }
}

// Moves the ends of shorts to their places.
fn place_shorts(shorts: &mut [(u32, u32)], places: &[u32])
    requires { All (λ s. (s.0 < length places.now) × (s.1 < length places.now)) shorts.old }
    ensures { shorts.new ≡ map (placed_short (slice_index places.now)) shorts.old }
{
    for short in shorts.iter_mut() {
        short.0 = places[short.0 as usize];
        short.1 = places[short.1 as usize];
    }
}

// Moves the nodes of pads to their places.
fn place_pads(pads: &mut [Pad], places: &[u32])
    requires { All (λ p. p.node < length places.now) pads.old }
    ensures { pads.new ≡ map (placed_pad (slice_index places.now)) pads.old }
{
    for pad in pads.iter_mut() {
        pad.node = places[pad.node as usize];
    }
}

// Moves the nodes of loads to their places.
fn place_loads(loads: &mut [Load], places: &[u32])
    requires { All (λ l. l.node < length places.now) loads.old }
    ensures { loads.new ≡ map (placed_load (slice_index places.now)) loads.old }
{
    for load in loads.iter_mut() {
        load.node = places[load.node as usize];
    }
}

/// Moves the nodes of all entries to their places.
pub fn place_all(
    resistors: &mut Vec<Resistor>,
    shorts: &mut Vec<(u32, u32)>,
    pads: &mut Vec<Pad>,
    loads: &mut Vec<Load>,
    places: &[u32],
)
    requires resistors { All (λ r. (r.a < length places.now) × (r.b < length places.now)) resistors.old.items }
    requires shorts { All (λ s. (s.0 < length places.now) × (s.1 < length places.now)) shorts.old.items }
    requires pads { All (λ p. p.node < length places.now) pads.old.items }
    requires loads { All (λ l. l.node < length places.now) loads.old.items }
    ensures resistors { resistors.new.items ≡ map (placed_resistor (slice_index places.now)) resistors.old.items }
    ensures shorts { shorts.new.items ≡ map (placed_short (slice_index places.now)) shorts.old.items }
    ensures pads { pads.new.items ≡ map (placed_pad (slice_index places.now)) pads.old.items }
    ensures loads { loads.new.items ≡ map (placed_load (slice_index places.now)) loads.old.items }
{
    place_resistors(resistors, places);
    place_shorts(shorts, places);
    place_pads(pads, places);
    place_loads(loads, places);
}
