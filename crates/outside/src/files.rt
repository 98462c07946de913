// Files as the program sees them: what a call may do to them, and the counts of what failed.
ghost use Rattle.std.specs.Prelude.{◌≡◌, ◌≤◌, ◌<◌, List, ℕ, length, Option, IfOk, IfSome, OnOk, OnErr, OnSome, IsErrOf};
ghost use Rattle.outside.specs.Counts.{ChangesReads, ChangesWrites, FaultCounts, NoneFalls, Rose};
ghost use Rattle.outside.specs.Known.{WhereKnown};
ghost use Rattle.outside.specs.Files.{Holdings, bytes_in, IsReadAt, MakesEmpty, Appends};

use std::alloc::AllocError;

/// Why a call on the outside was refused.
#[derive(Clone, Copy, Debug, PartialEq, Eq)]
pub enum Refusal {
    /// The outside failed, and counted it.
    Failed,
    /// There was no memory.
    Want,
}

impl From<AllocError> for Refusal {
    ghost use Rattle.std.specs.Prelude.{◌≡◌};
    ghost use Rattle.outside.specs.declared.files.Refusal.TheVariants.{Want};

    ghost from_gives = { λ _ e. e ≡ Want };

    fn from(_: AllocError) -> Refusal {
        Refusal::Want
    }
}

/// Files by name, each a list of bytes.
///
/// Whether it is known what they hold never changes.
/// No count ever falls, and one that stands at 2^64 - 1 counts as risen.
pub trait Files {
    /// What the files hold, where that is known.
    ghost known: { Self → Option Holdings };

    /// The counts of the calls that failed. Those by name mean something only where it is known what the files hold.
    ghost counts: { Self → FaultCounts };

    /// Reads bytes of a file from a place on into a slice, and answers how many.
    /// No byte into a slice that is not empty is the end of the file.
    fn read_at(&mut self, name: &str, at: u64, into: &mut [u8]) -> Result<usize, Refusal>
        ensures kept { known self.new ≡ known self.old }
        ensures within { IfOk result (λ n. n ≤ length into.old) }
        ensures read { IfOk result
            (λ n. IfSome (known self.old) (λ held. IsReadAt (bytes_in held name.now) at n into.new)) }

        // A call that is not refused counts no fault, one that failed counts one, and no other name is touched.
        ensures calm { OnOk result (counts self.new ≡ counts self.old) }
        ensures none_falls { NoneFalls (counts self.old) (counts self.new) }
        ensures only { ChangesReads name.now (counts self.old) (counts self.new) }
        ensures failed { IsErrOf result Refusal.Failed → Rose (counts self.old).faults (counts self.new).faults }
        ensures failed_read { IsErrOf result Refusal.Failed
            → OnSome (known self.old) (Rose ((counts self.old).reads name.now) ((counts self.new).reads name.now)) };

    /// Makes a file with no bytes under a name, in the place of the one that was there.
    fn create(&mut self, name: &str) -> Result<(), Refusal>
        ensures created { OnOk result (WhereKnown (MakesEmpty name.now) (known self.old) (known self.new)) }
        ensures kept { OnErr result (known self.new ≡ known self.old) }

        // A call that is not refused counts no fault, one that failed counts one, and no other name is touched.
        ensures calm { OnOk result (counts self.new ≡ counts self.old) }
        ensures none_falls { NoneFalls (counts self.old) (counts self.new) }
        ensures only { ChangesWrites name.now (counts self.old) (counts self.new) }
        ensures failed { IsErrOf result Refusal.Failed → Rose (counts self.old).faults (counts self.new).faults }
        ensures failed_write { IsErrOf result Refusal.Failed
            → OnSome (known self.old) (Rose ((counts self.old).writes name.now) ((counts self.new).writes name.now)) };

    /// Adds the first bytes of a piece to a file, which it makes where there is none, and answers how many.
    fn append(&mut self, name: &str, piece: &[u8]) -> Result<usize, Refusal>
        ensures appended { IfOk result
            (λ n. WhereKnown (Appends name.now piece.now n) (known self.old) (known self.new)) }
        ensures kept { OnErr result (known self.new ≡ known self.old) }
        ensures within { IfOk result (λ n. n ≤ length piece.now) }
        ensures some { IfOk result (λ n. 0 < length piece.now → 0 < n) }

        // A call that is not refused counts no fault, one that failed counts one, and no other name is touched.
        ensures calm { OnOk result (counts self.new ≡ counts self.old) }
        ensures none_falls { NoneFalls (counts self.old) (counts self.new) }
        ensures only { ChangesWrites name.now (counts self.old) (counts self.new) }
        ensures failed { IsErrOf result Refusal.Failed → Rose (counts self.old).faults (counts self.new).faults }
        ensures failed_write { IsErrOf result Refusal.Failed
            → OnSome (known self.old) (Rose ((counts self.old).writes name.now) ((counts self.new).writes name.now)) };
}
