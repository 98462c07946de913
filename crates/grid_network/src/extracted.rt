use crate::branch::Branch;
use crate::key::Key;
use entry_list::Entries;
use grid_net::{Net, Note};
use outside::Name;

/// The network of a drawn grid, with what its nodes and resistors are.
#[derive(Drop)]
pub struct Extracted {
    pub net: Net,
    /// The name of each node.
    pub names: Entries<Name>,
    /// The point of each node.
    pub keys: Entries<Key>,
    /// The drawn metal of each resistor.
    pub branches: Entries<Branch>,
    /// The layer lines.
    pub notes: Entries<Note>,
}
