// Files in memory, of which some calls fail.
ghost use Rattle.std.specs.Prelude.{◌≡◌, ◌≢◌, ◌⊎◌, ◌-◌, [], length, map, min, MatchOption, Some, None, IfOk, OnOk, OnErr, IsErrOf};
ghost use Rattle.outside.specs.Calls.{FailsNext, IsCounted, IsUncounted, CountsNone, CountsRead, CountsWrite, counts_of};
ghost use Rattle.outside.specs.Counts.{ChangesReads, ChangesWrites, NoneFalls, Rose};
ghost use Rattle.outside.specs.Directory.{stored};
ghost use Rattle.outside.specs.Entries.{value_under};
ghost use Rattle.outside.specs.Files.{bytes_in, IsReadAt, MakesEmpty, Appends};

use crate::calls::Calls;
use crate::directory::{Directory, read_bytes};
use crate::{Files, Name, Refusal};
use std::alloc::{AllocError, Global};
use std::marker::Model;

/// Files in memory, for tests: what they hold is known, and the calls that are listed fail.
///
/// The calls on a name are counted from 1, and their number stands still at 2^64 - 1.
/// A call that runs out of memory is not counted, so the next call on the name has the number that it had.
#[derive(Debug, Drop)]
pub struct MemFiles {
    directory: Directory,
    calls: Calls,
}

impl Model for MemFiles {
    ghost use Rattle.outside.specs.MemFiles.{FilesInMemory};

    ghost Value = { FilesInMemory };

    ghost view = { λ files. record { files = files.directory; calls = files.calls } };
}

impl MemFiles {
    /// Files with these names and bytes, of which the first of a name counts.
    /// A call fails where its name and number are listed, and a read where there is no such file.
    /// It fails only for want of memory.
    pub fn new(
        alloc: Global,
        files: Vec<(Name, Vec<u8>)>,
        failing: Vec<(Name, u64)>,
    ) -> Result<MemFiles, AllocError>
        ensures { IfOk result (λ made. made ≡ record {
          files = map stored files.items;
          calls = record { failing = failing.items; tallies = []; faults = 0 };
        }) }
    {
        Ok(MemFiles {
            directory: Directory::new(alloc, files),
            calls: Calls::new(alloc, failing),
        })
    }

    /// The bytes of a file. `None` where there is no file of that name.
    pub fn bytes(&self, name: &str) -> Option<&[u8]>
        ensures { MatchOption result (value_under self.now.files name.now ≡ None)
            (λ bytes. value_under self.now.files name.now ≡ Some bytes.now) }
    {
        self.directory.bytes(name)
    }
}

impl Files for MemFiles {
    ghost known = { λ files. Some (value_under files.files) };

    ghost counts = { λ files. counts_of files.calls };

    fn read_at(&mut self, name: &str, at: u64, into: &mut [u8]) -> Result<usize, Refusal>
        ensures kept { self.new.files ≡ self.old.files }
        ensures read { IfOk result (λ n. IsReadAt (bytes_in (value_under self.old.files) name.now) at n into.new) }
        ensures all { IfOk result
            (λ n. n ≡ min (length into.old) (length (bytes_in (value_under self.old.files) name.now) - at)) }

        // It fails exactly where its call is listed, or where there is no such file.
        ensures cause { IsErrOf result Refusal.Failed
            → FailsNext self.old.calls name.now ⊎ (value_under self.old.files name.now ≡ None) }
        ensures no_cause { OnOk result
            (¬ FailsNext self.old.calls name.now × (value_under self.old.files name.now ≢ None)) }

        // What is counted of the call, whether it answers Ok, fails or runs out of memory.
        ensures counted { OnOk result (IsCounted name.now CountsNone self.old.calls self.new.calls) }
        ensures counted_failed { IsErrOf result Refusal.Failed
            → IsCounted name.now (CountsRead name.now) self.old.calls self.new.calls }
        ensures uncounted { IsErrOf result Refusal.Want → IsUncounted self.old.calls self.new.calls }

        ensures calm { OnOk result (counts_of self.new.calls ≡ counts_of self.old.calls) }
        ensures none_falls { NoneFalls (counts_of self.old.calls) (counts_of self.new.calls) }
        ensures only { ChangesReads name.now (counts_of self.old.calls) (counts_of self.new.calls) }
        ensures failed { IsErrOf result Refusal.Failed → Rose self.old.calls.faults self.new.calls.faults }
        ensures failed_read { IsErrOf result Refusal.Failed
            → Rose ((counts_of self.old.calls).reads name.now) ((counts_of self.new.calls).reads name.now) }
    {
        let place = self.calls.place(name)?;
        if !self.calls.fails_next(name, place) {
            if let Some(bytes) = self.directory.bytes(name) {
                let count = read_bytes(bytes, at, into);
                self.calls.count(place);
                return Ok(count);
            }
        }
        self.calls.count_failed_read(place);
        Err(Refusal::Failed)
    }

    fn create(&mut self, name: &str) -> Result<(), Refusal>
        ensures created { OnOk result
            (MakesEmpty name.now (value_under self.old.files) (value_under self.new.files)) }
        ensures kept { OnErr result (self.new.files ≡ self.old.files) }

        // It fails exactly where its call is listed.
        ensures cause { IsErrOf result Refusal.Failed → FailsNext self.old.calls name.now }
        ensures no_cause { OnOk result (¬ FailsNext self.old.calls name.now) }

        // What is counted of the call, whether it answers Ok, fails or runs out of memory.
        ensures counted { OnOk result (IsCounted name.now CountsNone self.old.calls self.new.calls) }
        ensures counted_failed { IsErrOf result Refusal.Failed
            → IsCounted name.now (CountsWrite name.now) self.old.calls self.new.calls }
        ensures uncounted { IsErrOf result Refusal.Want → IsUncounted self.old.calls self.new.calls }

        ensures calm { OnOk result (counts_of self.new.calls ≡ counts_of self.old.calls) }
        ensures none_falls { NoneFalls (counts_of self.old.calls) (counts_of self.new.calls) }
        ensures only { ChangesWrites name.now (counts_of self.old.calls) (counts_of self.new.calls) }
        ensures failed { IsErrOf result Refusal.Failed → Rose self.old.calls.faults self.new.calls.faults }
        ensures failed_write { IsErrOf result Refusal.Failed
            → Rose ((counts_of self.old.calls).writes name.now) ((counts_of self.new.calls).writes name.now) }
    {
        let place = self.calls.begin_write(name)?;
        self.directory.create(name)?;
        self.calls.count(place);
        Ok(())
    }

    fn append(&mut self, name: &str, piece: &[u8]) -> Result<usize, Refusal>
        ensures appended { IfOk result
            (λ n. Appends name.now piece.now n (value_under self.old.files) (value_under self.new.files)) }
        ensures kept { OnErr result (self.new.files ≡ self.old.files) }
        ensures all { IfOk result (λ n. n ≡ length piece.now) }

        // It fails exactly where its call is listed.
        ensures cause { IsErrOf result Refusal.Failed → FailsNext self.old.calls name.now }
        ensures no_cause { OnOk result (¬ FailsNext self.old.calls name.now) }

        // What is counted of the call, whether it answers Ok, fails or runs out of memory.
        ensures counted { OnOk result (IsCounted name.now CountsNone self.old.calls self.new.calls) }
        ensures counted_failed { IsErrOf result Refusal.Failed
            → IsCounted name.now (CountsWrite name.now) self.old.calls self.new.calls }
        ensures uncounted { IsErrOf result Refusal.Want → IsUncounted self.old.calls self.new.calls }

        ensures calm { OnOk result (counts_of self.new.calls ≡ counts_of self.old.calls) }
        ensures none_falls { NoneFalls (counts_of self.old.calls) (counts_of self.new.calls) }
        ensures only { ChangesWrites name.now (counts_of self.old.calls) (counts_of self.new.calls) }
        ensures failed { IsErrOf result Refusal.Failed → Rose self.old.calls.faults self.new.calls.faults }
        ensures failed_write { IsErrOf result Refusal.Failed
            → Rose ((counts_of self.old.calls).writes name.now) ((counts_of self.new.calls).writes name.now) }
    {
        let place = self.calls.begin_write(name)?;
        self.directory.append(name, piece)?;
        self.calls.count(place);
        Ok(piece.len())
    }
}
