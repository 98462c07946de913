//! The capacitors of a netlist: from the names of their ends to the places of these names in byte order.
ghost use Rattle.std.specs.Prelude.{◌≡◌, length, map, IfOk};
ghost use Rattle.spice_cards.specs.Card.{is_ground as ground_name};
ghost use Rattle.spice_grid.specs.inside.Caps.{named_end, named_cap};

use capacitors::{Cap, End};
use node_names::NodeNames;
use spice_cards::Capacitor;
use std::alloc::{AllocError, Global};

// Whether the name is `0`, which is ground.
fn is_ground(name: &[u8]) -> bool
    ensures { result ≡ ground_name name.now }
{
    name == b"0".as_slice()
}

// Where the end of this name stands.
fn end_of<'a>(names: &NodeNames<'a>, places: &[u32], name: &'a [u8]) -> End
    requires { length places.now ≡ length names.now }
    ensures { result ≡ named_end names.now places.now name.now }
{
    if is_ground(name) {
        return End::Ground;
    }
    match names.get(name) {
        Some(number) => End::Node(places[number as usize]),
        None => End::Nowhere,
    }
}

/// The capacitors as they were read, each with its ends. The ends are looked up in the table of names; no name is copied.
pub(crate) fn numbered_caps<'a>(
    alloc: Global,
    names: &NodeNames<'a>,
    places: &[u32],
    read: &[Capacitor<'a>],
) -> Result<Vec<Cap>, AllocError>
    requires { length places.now ≡ length names.now }
    ensures { IfOk result (λ caps. caps.items ≡ map (named_cap names.now places.now) read.now) }
{
    let mut caps = Vec::with_capacity(alloc, read.len())?;
    for cap in read {
        caps.push(Cap {
            a: end_of(names, places, cap.a),
            b: end_of(names, places, cap.b),
            farads: cap.farads,
        })?;
    }
    Ok(caps)
}
