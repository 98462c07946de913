//! The answers, each with its exit status and its line.
ghost use Rattle.std.specs.Prelude.{◌≡◌, IfOk};
ghost use Rattle.answers.specs.Answer.{status_of, line_of};

use crate::built::Built;
use crate::kind::TextKind;
use crate::line::{
    built_line, certified_line, conflict_line, file_line, not_certified_line, range_line,
    refused_line, signed_line, solved_line, stepped_line, steps_line,
};
use bound_check::Side;
use entry_list::Entries;
use grid_net::Quantity;
use outside::{Name, Place};
use std::alloc::{AllocError, Global};

/// What a run comes to.
#[derive(Drop)]
pub enum Answer {
    /// The words are those of no command.
    Usage,
    /// Memory ran out.
    Want,
    /// The file could not be read.
    ReadFault(Name),
    /// The file could not be written.
    WriteFault(Name),
    /// The file has more bytes than an input may have.
    TooLong(Name),
    /// The text of the file is refused at the word of this place.
    Refused {
        file: Name,
        place: Place,
        kind: TextKind,
    },
    /// There is no grid, or no network is extracted from it: why, in words.
    NoGrid(Entries<u8>),
    /// A quantity of the network passes its limit. `at` is the place of the entry, from 0, or 0 for a number of the whole
    /// network.
    Range {
        quantity: Quantity,
        at: u64,
        number: i128,
    },
    /// So many steps times nodes, more than there may be.
    TooManySteps(u64),
    /// Two pads of one node or group differ: its name, its first pad and the one that differs. In yoctovolts.
    PadConflict {
        node: Name,
        first: i128,
        second: i128,
    },
    /// A capacitor joins two nodes of which none is a pad: the earlier of the two nodes of the first such capacitor.
    FloatingCapacitor(Name),
    /// No chain of resistors joins the node of this name to a pad: the first such node.
    Unsupplied(Name),
    /// The grid is drawn, certified and written, with these numbers.
    Built(Built),
    /// The wiring that another tool drew is certified, and its texts are written, with these numbers.
    SignedOff(Built),
    /// The texts of a made-up design are written.
    Generated,
    /// The network, of this many nodes and resistors, was certified in so many sweeps.
    Solved {
        nodes: u32,
        resistors: u32,
        sweeps: u64,
    },
    /// The network, of this many nodes, was bounded at so many steps after step 0.
    Stepped {
        nodes: u32,
        steps: u32,
    },
    /// The test of the certificate holds, on a network of this many nodes.
    Certified(u32),
    /// The first failing test of the certificate: the node's name, the side, and the number found there (yV for a
    /// value, fA for a flow or a sum).
    NotCertified(Name, Side, i128),
}

impl Answer {
    /// The exit status.
    pub fn status(&self) -> u8
        ensures { result ≡ status_of self.now }
    {
        match self {
            Answer::Certified(_) | Answer::Generated => 0,
            Answer::Solved { .. } | Answer::Stepped { .. } => 0,
            Answer::Built(numbers) | Answer::SignedOff(numbers) => numbers.status(),
            Answer::Usage => 2,
            Answer::ReadFault(_) | Answer::WriteFault(_) => 3,
            Answer::TooLong(_) | Answer::Refused { .. } => 4,
            Answer::NoGrid(_) => 5,
            Answer::Range { .. } | Answer::TooManySteps(_) => 6,
            Answer::PadConflict { .. } | Answer::FloatingCapacitor(_) => 6,
            Answer::Unsupplied(_) => 7,
            Answer::NotCertified(..) => 9,
            Answer::Want => 10,
        }
    }

    /// The line that is printed, with its line feed.
    pub fn line(&self, alloc: Global) -> Result<Vec<u8>, AllocError>
        ensures { IfOk result (λ line. line.items ≡ line_of self.now) }
    {
        match self {
            Answer::Usage => Vec::from_slice(alloc, b"pdn: Usage\n"),
            Answer::Want => Vec::from_slice(alloc, b"pdn: Want\n"),
            Answer::ReadFault(file) => file_line(alloc, b"pdn: ReadFault ", file.bytes(), b"\n"),
            Answer::WriteFault(file) => file_line(alloc, b"pdn: WriteFault ", file.bytes(), b"\n"),
            Answer::TooLong(file) => file_line(alloc, b"pdn: TooLong ", file.bytes(), b"\n"),
            Answer::Refused { file, place, kind } => {
                refused_line(alloc, file.bytes(), *place, *kind)
            }
            Answer::NoGrid(words) => file_line(alloc, b"pdn: ", words.as_slice(), b"\n"),
            Answer::Range {
                quantity,
                at,
                number,
            } => range_line(alloc, *quantity, *at, *number),
            Answer::TooManySteps(number) => steps_line(alloc, *number),
            Answer::PadConflict {
                node,
                first,
                second,
            } => conflict_line(alloc, node.bytes(), *first, *second),
            Answer::FloatingCapacitor(node) => {
                file_line(alloc, b"pdn: FloatingCapacitor ", node.bytes(), b"\n")
            }
            Answer::Unsupplied(node) => file_line(alloc, b"pdn: Unsupplied ", node.bytes(), b"\n"),
            Answer::Built(numbers) => built_line(alloc, *numbers),
            Answer::SignedOff(numbers) => signed_line(alloc, *numbers),
            Answer::Generated => Vec::from_slice(alloc, b"generated\n"),
            Answer::Solved {
                nodes,
                resistors,
                sweeps,
            } => solved_line(alloc, *nodes, *resistors, *sweeps),
            Answer::Stepped { nodes, steps } => stepped_line(alloc, *nodes, *steps),
            Answer::Certified(nodes) => certified_line(alloc, *nodes),
            Answer::NotCertified(node, side, found) => {
                not_certified_line(alloc, node.bytes(), *side, *found)
            }
        }
    }
}
