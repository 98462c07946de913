//! The nodes by their numbers, with their names.
ghost use Rattle.std.specs.Prelude.{◌≡◌, ◌<◌, ◌^◌, map, All, Contains, IfOk, length};
ghost use Rattle.std.specs.List.Sorted.{IsStrictlySortedBy};
ghost use Rattle.name_table.specs.ByteOrder.{IsInByteOrder};
ghost use Rattle.grid_network.specs.Listing.{ListsAll};
ghost use Rattle.grid_network.specs.Nodes.{name_of};
ghost use Rattle.grid_network.specs.inside.Steps.{TellsNumbers, key_cmp};

use crate::key::Key;
use crate::named::names;
use crate::numbered_names::{keys_of, names_of, places_of};
use crate::sorted::put_in_byte_order;
use entry_list::Entries;
use outside::Name;
use std::alloc::{AllocError, Global};

/// The nodes in the order of their numbers, and for each point in the order of net, layer, x and y its number.
#[derive(Debug, Drop)]
pub(crate) struct Nodes {
    pub(crate) keys: Vec<Key>,
    pub(crate) names: Vec<Name>,
    pub(crate) numbers: Entries<u32>,
}

/// The nodes at these points, numbered in the byte order of their names.
pub(crate) fn named_nodes(alloc: Global, layers: u64, places: &[Key]) -> Result<Nodes, AllocError>
    requires layers { layers < 2 ^ 32 }
    requires few { length places.now < 2 ^ 32 }
    requires within { All (λ k. k.layer < layers) places.now }
    requires sorted { IsStrictlySortedBy key_cmp places.now }
    ensures same { IfOk result (λ nodes. ListsAll (λ k. Contains places.now k) nodes.keys.items) }
    ensures names { IfOk result (λ nodes. nodes.names.items ≡ map (name_of layers) nodes.keys.items) }
    ensures order { IfOk result (λ nodes. IsInByteOrder (map (name_of layers) nodes.keys.items)) }
    ensures numbers { IfOk result (λ nodes. TellsNumbers nodes.keys.items places.now nodes.numbers) }
{
    let mut named = names(alloc, layers, places)?;
    put_in_byte_order(&mut named);
    let keys = keys_of(alloc, places, &named)?;
    let numbers = places_of(alloc, &named)?;
    let names = names_of(alloc, named)?;
    Ok(Nodes {
        keys,
        names,
        numbers: Entries::new(numbers),
    })
}
