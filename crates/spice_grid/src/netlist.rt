//! Netlists read.
ghost use Rattle.std.specs.Prelude.{◌≡◌, IfOk};
ghost use Rattle.spice_grid.specs.Netlist.{ReadsNetlist, NamedKeeps};

use crate::error::{SpiceError, SpiceKind, kind_of};
use crate::named::Named;
use outside::Place;
use spice_cards::read_cards;
use std::alloc::Global;

/// Reads a netlist: the network of its cards, with the names of its nodes in lower case and in byte order, its shorts and
/// its capacitors.
///
/// The cards, the comments, the title, the lines that go on with a card, the dot lines and the ranges of loads are those
/// that `spice_cards` reads. The node `0` stands where a resistor or a short names it or a source stands between `0` and
/// `0`, and is then a pad of 0 V. The pads stand in the order of their cards and that of `0` last, the resistors in the
/// order of theirs. Values of 0 are shorts: of a resistor, and of a source between two nodes other than `0`.
/// Capacitors make no nodes: an end of one is at ground where its name is `0`, at the node of its name, or nowhere where
/// no other card has the name.
///
/// Errors: the refusal at the earliest word, and there of the first kind, as `SpiceKind` lists them; `Net` where the
/// whole text was read and its cards make no network; `Want` for want of memory.
pub fn read_netlist(alloc: Global, text: &[u8]) -> Result<Named, SpiceError>
    ensures reads { ReadsNetlist text.now result }
    ensures keeps { IfOk result NamedKeeps }
{
    match read_cards(alloc, text) {
        Ok(cards) => match Named::build(alloc, cards) {
            Ok(named) => Ok(named),
            Err(kind) => Err(without_place(kind)),
        },
        Err(error) => Err(SpiceError {
            place: error.place,
            kind: kind_of(error.kind),
        }),
    }
}

// An error of the whole text, which has no place.
fn without_place(kind: SpiceKind) -> SpiceError
    ensures { result.kind ≡ kind }
{
    SpiceError {
        place: Place { line: 1, word: 1 },
        kind,
    }
}
