ghost use Rattle.std.specs.Prelude.{◌≡◌};
ghost use Rattle.grid_net.specs.declared.error.NetError.TheVariants.{Want};

use std::alloc::AllocError;

/// The quantities of a network that have a limit, in the order in which they are tested.
#[derive(Clone, Copy, Debug, PartialEq, Eq)]
pub enum Quantity {
    /// The number of nodes: at most 2·10^6.
    Nodes,
    /// The number of resistors: at most 4·10^6.
    Resistors,
    /// A resistance: from 1 to 10^12 nano-ohms.
    Resistance,
    /// A pad's voltage: within 10^25 yoctovolts of 0.
    Voltage,
    /// The sum, over the loads as they are handed in, of the greater magnitude of the two ends: at most 10^18
    /// femtoamperes.
    Loads,
}

/// What refuses the lists of a network.
#[derive(Clone, Copy, Debug, PartialEq, Eq)]
pub enum NetError {
    /// An entry names a node beyond the last. `at` is its place, from 0, in the first list that has one.
    BadEnd {
        at: u64,
    },
    /// A quantity passes its limit. `at` is the place of the entry, from 0, or 0 for a number of the whole network.
    Range {
        quantity: Quantity,
        at: u64,
        number: i128,
    },
    /// Two pads of one node differ: the first pad of the node, and the first pad in the list that differs from the
    /// first of its node.
    PadConflict {
        node: u32,
        first: i128,
        second: i128,
    },
    /// There was not enough memory.
    Want,
}

impl From<AllocError> for NetError {
    ghost from_gives = { λ _ e. e ≡ Want };

    fn from(_error: AllocError) -> NetError {
        NetError::Want
    }
}
