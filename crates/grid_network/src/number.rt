//! The numbers of the nodes.
ghost use Rattle.std.specs.Prelude.{◌≡◌, List, length};
ghost use Rattle.grid_network.specs.declared.key.Key.{Key};
ghost use Rattle.grid_network.specs.Nodes.{number_of};
ghost use Rattle.grid_network.specs.inside.Steps.{TellsNumbers};

use crate::key::Key;

/// The points of the nodes in the order of nets, layers, x and y, and the number of each.
#[derive(Clone, Copy)]
pub(crate) struct Numbers<'a> {
    pub(crate) places: &'a [Key],
    pub(crate) numbers: &'a [u32],
}

/// The number of a node.
pub(crate) fn number_of(nodes: Numbers, key: &Key) -> u32
    requires { length nodes.numbers.now ≡ length nodes.places.now }
    ensures { (keys : List Key) → TellsNumbers keys nodes.entry.places.now nodes.entry.numbers.now
        → result ≡ number_of keys key.now }
{
    match nodes.places.binary_search(key) {
        Ok(place) => nodes.numbers[place],
        Err(_) => 0,
    }
}
