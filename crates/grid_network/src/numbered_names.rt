//! The names of the nodes with the numbers of their points.
ghost use Rattle.std.specs.Prelude.{◌≡◌, ◌<◌, ◌^◌, map, length, All, IfOk};
ghost use Rattle.grid_network.specs.inside.Steps.{IsPlaced, place_of};

use crate::key::Key;
use outside::Name;
use std::alloc::{AllocError, Global};

/// The name of a node with the number of its point. The first bytes of the name stand before it as one number, which
/// most comparisons ask alone.
#[derive(Debug, Drop)]
pub(crate) struct NumberedName {
    pub(crate) front: u128,
    pub(crate) name: Name,
    pub(crate) number: u32,
}

/// The points with these numbers.
pub(crate) fn keys_of(
    alloc: Global,
    places: &[Key],
    named: &[NumberedName],
) -> Result<Vec<Key>, AllocError>
    requires { All (λ n. n.number < length places.now) named.now }
    ensures { IfOk result (λ keys. keys.items ≡ map (λ n. place_of places.now n.number) named.now) }
{
    let mut keys = Vec::with_capacity(alloc, named.len())?;
    for one in named {
        keys.push(places[one.number as usize])?;
    }
    Ok(keys)
}

/// For each number the place where it stands.
pub(crate) fn places_of(alloc: Global, named: &[NumberedName]) -> Result<Vec<u32>, AllocError>
    requires few { length named.now < 2 ^ 32 }
    requires within { All (λ n. n.number < length named.now) named.now }
    ensures count { IfOk result (λ places. length places.items ≡ length named.now) }
    ensures placed { IfOk result (λ places. IsPlaced (map (λ n. n.number) named.now) places.items) }
{
    let mut places = vec![in alloc; 0u32; named.len()]?;
    for (place, one) in named.iter().enumerate() {
        places[one.number as usize] = place as u32;
    }
    Ok(places)
}

/// The names alone. None is copied.
pub(crate) fn names_of(alloc: Global, named: Vec<NumberedName>) -> Result<Vec<Name>, AllocError>
    ensures { IfOk result (λ names. names.items ≡ map (λ n. n.name) named.items) }
{
    named.into_iter().map(|one| one.name).collect(alloc)
}
