// A stream of written bytes, as standard output is one.
ghost use Rattle.std.specs.Prelude.{◌≡◌, ℕ, ◌≤◌, ◌<◌, List, length, take, Option, IfOk, OnOk, OnErr, IsErrOf};
ghost use Rattle.outside.specs.Counts.{Rose};
ghost use Rattle.outside.specs.Known.{WhereKnown};
ghost use Rattle.outside.specs.Sink.{Adds};

use crate::Refusal;

/// Where bytes are written, one piece after another.
///
/// Whether it is known what was written never changes.
/// The count never falls, and one that stands at 2^64 - 1 counts as risen.
pub trait Sink {
    /// The bytes written so far, where they are known.
    ghost known: { Self → Option (List ℕ) };

    /// The count of the calls that failed.
    ghost faults: { Self → ℕ };

    /// Adds the first bytes of a piece to those written, and answers how many.
    fn write(&mut self, piece: &[u8]) -> Result<usize, Refusal>
        ensures added { IfOk result (λ n. WhereKnown (Adds (take n piece.now)) (known self.old) (known self.new)) }
        ensures kept { OnErr result (known self.new ≡ known self.old) }
        ensures within { IfOk result (λ n. n ≤ length piece.now) }
        ensures some { IfOk result (λ n. 0 < length piece.now → 0 < n) }

        // A call that is not refused counts no fault, and one that failed counts one.
        ensures calm { OnOk result (faults self.new ≡ faults self.old) }
        ensures none_falls { faults self.old ≤ faults self.new }
        ensures failed { IsErrOf result Refusal.Failed → Rose (faults self.old) (faults self.new) };
}
