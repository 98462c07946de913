//! Why a netlist has no network.
ghost use Rattle.std.specs.Prelude.{◌≡◌};
ghost use Rattle.spice_grid.specs.declared.error.SpiceKind.TheVariants.{Want};
ghost use Rattle.spice_grid.specs.Netlist.{spice_kind};

use fixed_decimal::DecimalError;
use grid_net::Quantity;
use outside::{Name, Place};
use spice_cards::CardsKind;
use std::alloc::AllocError;

/// Why a netlist is refused, and at which word.
#[derive(Debug, Drop)]
pub struct SpiceError {
    /// The word that is refused. At `Net` and at want of memory it says nothing.
    pub place: Place,
    /// What is wrong.
    pub kind: SpiceKind,
}

/// What is wrong. Of two kinds at one word the one that stands earlier here is told.
#[derive(Debug, Drop)]
pub enum SpiceKind {
    /// With this word the words so far begin no netlist.
    Syntax,
    /// The word begins a card or a dot line other than those that are read.
    OutOfProfileCard,
    /// The word is a number other than 0, the value of a source between two nodes other than `0`.
    FloatingSource,
    /// The word is no number, a number other than 0 that rounds to 0, or one beyond the limit.
    Number(DecimalError),
    /// The word is the low end of a load's range and above its value, or the high end and below it.
    OutOfRange,
    /// The whole text was read, and its cards make no network.
    Net(NetRefusal),
    /// There was not enough memory.
    Want,
}

/// What refuses the network of a netlist. The numbers of its nodes are those of its names, so no entry stands at another.
#[derive(Debug, Drop)]
pub enum NetRefusal {
    /// A quantity passes its limit. `at` is the place of the entry, from 0, or 0 for a number of the whole network.
    Range {
        quantity: Quantity,
        at: u64,
        number: i128,
    },
    /// Two pads of one node differ: the node's name, its first pad, and the first pad in the list that differs from the
    /// first of its node. In yoctovolts.
    PadConflict {
        node: Name,
        first: i128,
        second: i128,
    },
}

impl From<AllocError> for SpiceKind {
    ghost from_gives = { λ _ e. e ≡ Want };

    fn from(_error: AllocError) -> SpiceKind {
        SpiceKind::Want
    }
}

/// The kind of a netlist for a kind of its cards.
pub(crate) fn kind_of(kind: CardsKind) -> SpiceKind
    ensures { result ≡ spice_kind kind }
{
    match kind {
        CardsKind::Syntax => SpiceKind::Syntax,
        CardsKind::OutOfProfileCard => SpiceKind::OutOfProfileCard,
        CardsKind::FloatingSource => SpiceKind::FloatingSource,
        CardsKind::Number(error) => SpiceKind::Number(error),
        CardsKind::OutOfRange => SpiceKind::OutOfRange,
        CardsKind::Want => SpiceKind::Want,
    }
}
