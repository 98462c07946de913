//! What a grid that is built, or signed off, comes to.
ghost use Rattle.std.specs.Prelude.{◌≡◌, ◌++◌, OnOk, decimal};
ghost use Rattle.answers.specs.Answer.{built_status, counted, grid_words, verdict_words};

use itoa::Buffer;
use std::alloc::AllocError;

/// The numbers of a grid that is built or signed off: its parts, its network, the verdicts, and the work of certification.
#[derive(Clone, Copy, Debug, PartialEq, Eq)]
pub struct Built {
    /// How many pieces of metal it has: straps, rails and rings.
    pub pieces: u64,
    /// How many stacks of cuts join pieces.
    pub stacks: u64,
    /// How many nodes the network has.
    pub nodes: u64,
    /// How many resistors it has.
    pub resistors: u64,
    /// How many pads it has.
    pub pads: u64,
    /// How many verdicts are SAFE.
    pub safe: u64,
    /// How many verdicts are UNSAFE.
    pub unsafe_: u64,
    /// How many verdicts are OPEN.
    pub open: u64,
    /// How many branches and nets have no limit.
    pub unlimited: u64,
    /// In how many sweeps the network was certified.
    pub sweeps: u64,
}

impl Built {
    /// The exit status: 1 where some verdict is UNSAFE or OPEN, and else 0.
    pub(crate) fn status(self) -> u8
        ensures { result ≡ built_status self }
    {
        if self.unsafe_ == 0 && self.open == 0 {
            0
        } else {
            1
        }
    }

    /// Appends the parts of the grid, and its network.
    pub(crate) fn append_grid(self, line: &mut Vec<u8>) -> Result<(), AllocError>
        ensures { OnOk result (line.new.items ≡ line.old.items ++ grid_words self) }
    {
        append_count(line, self.pieces, b" pieces ")?;
        append_count(line, self.stacks, b" stacks ")?;
        append_count(line, self.nodes, b" nodes ")?;
        append_count(line, self.resistors, b" resistors ")?;
        append_count(line, self.pads, b" pads ")?;
        Ok(())
    }

    /// Appends the verdicts, and the work of certification.
    pub(crate) fn append_verdicts(self, line: &mut Vec<u8>) -> Result<(), AllocError>
        ensures { OnOk result (line.new.items ≡ line.old.items ++ verdict_words self) }
    {
        append_count(line, self.safe, b" safe ")?;
        append_count(line, self.unsafe_, b" unsafe ")?;
        append_count(line, self.open, b" open ")?;
        append_count(line, self.unlimited, b" unlimited ")?;
        append_count(line, self.sweeps, b" sweeps")?;
        Ok(())
    }
}

/// Appends a count and the words after it.
fn append_count(line: &mut Vec<u8>, count: u64, words: &[u8]) -> Result<(), AllocError>
    ensures { OnOk result (line.new.items ≡ line.old.items ++ counted count words.now) }
{
    let mut buffer = Buffer::new();
    line.extend_from_slice(buffer.format(count).as_bytes())?;
    line.extend_from_slice(words)?;
    Ok(())
}
