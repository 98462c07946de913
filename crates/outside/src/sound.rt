// The outside in memory that never fails.
ghost use Rattle.std.specs.Prelude.{◌≡◌, ◌↔◌, ◌-◌, ◌++◌, List, ℕ, [], length, map, min, MatchOption, Some, None, IsTrue, IsSome, IfOk, OnOk, OnErr, IsErrOf};
ghost use Rattle.outside.specs.Counts.{Rose, faults_alone};
ghost use Rattle.outside.specs.Directory.{stored};
ghost use Rattle.outside.specs.Entries.{value_under};
ghost use Rattle.outside.specs.Files.{bytes_in, IsReadAt, MakesEmpty, Appends};

use crate::directory::{Directory, read_bytes};
use crate::{Files, Name, Refusal, Sink};
use std::alloc::{AllocError, Global};
use std::marker::Model;

/// Files in memory of which no call fails but for want of memory. What they hold is known.
#[derive(Debug, Drop)]
pub struct SoundFiles {
    directory: Directory,
}

impl Model for SoundFiles {
    ghost use Rattle.std.specs.Prelude.{List, ℕ};

    ghost Value = { List (List ℕ × List ℕ) };

    ghost view = { λ files. files.directory };
}

impl SoundFiles {
    /// Files with these names and bytes, of which the first of a name counts. It fails only for want of memory.
    pub fn new(alloc: Global, files: Vec<(Name, Vec<u8>)>) -> Result<SoundFiles, AllocError>
        ensures { IfOk result (λ made. made ≡ map stored files.items) }
    {
        Ok(SoundFiles {
            directory: Directory::new(alloc, files),
        })
    }

    /// The bytes of a file. `None` where there is no file of that name.
    pub fn bytes(&self, name: &str) -> Option<&[u8]>
        ensures { MatchOption result (value_under self.now name.now ≡ None)
            (λ bytes. value_under self.now name.now ≡ Some bytes.now) }
    {
        self.directory.bytes(name)
    }

    /// Whether there is a file of that name.
    pub fn holds(&self, name: &str) -> bool
        ensures { IsTrue result ↔ IsSome (value_under self.now name.now) }
    {
        self.directory.bytes(name).is_some()
    }
}

impl Files for SoundFiles {
    ghost known = { λ files. Some (value_under files) };

    ghost counts = { λ _. faults_alone 0 };

    fn read_at(&mut self, name: &str, at: u64, into: &mut [u8]) -> Result<usize, Refusal>
        ensures kept { self.new ≡ self.old }
        ensures read { IfOk result (λ n. IsReadAt (bytes_in (value_under self.old) name.now) at n into.new) }
        ensures all { IfOk result
            (λ n. n ≡ min (length into.old) (length (bytes_in (value_under self.old) name.now) - at)) }
        ensures sound { IsErrOf result Refusal.Failed → ⊥ }
    {
        let bytes = self.directory.bytes(name).unwrap_or(&[]);
        Ok(read_bytes(bytes, at, into))
    }

    fn create(&mut self, name: &str) -> Result<(), Refusal>
        ensures created { OnOk result (MakesEmpty name.now (value_under self.old) (value_under self.new)) }
        ensures kept { OnErr result (self.new ≡ self.old) }
        ensures sound { IsErrOf result Refusal.Failed → ⊥ }
    {
        self.directory.create(name)?;
        Ok(())
    }

    fn append(&mut self, name: &str, piece: &[u8]) -> Result<usize, Refusal>
        ensures appended { IfOk result
            (λ n. Appends name.now piece.now n (value_under self.old) (value_under self.new)) }
        ensures kept { OnErr result (self.new ≡ self.old) }
        ensures all { IfOk result (λ n. n ≡ length piece.now) }
        ensures sound { IsErrOf result Refusal.Failed → ⊥ }
    {
        self.directory.append(name, piece)?;
        Ok(piece.len())
    }
}

/// A sink in memory of which no call fails but for want of memory. What was written is known.
#[derive(Debug, Drop)]
pub struct SoundSink {
    bytes: Vec<u8>,
}

impl Model for SoundSink {
    ghost use Rattle.std.specs.Prelude.{List, ℕ};

    ghost Value = { List ℕ };

    ghost view = { λ sink. sink.bytes.items };
}

impl SoundSink {
    /// An empty sink. It fails only for want of memory.
    pub fn new(alloc: Global) -> Result<SoundSink, AllocError>
        ensures { IfOk result (λ made. made ≡ []) }
    {
        Ok(SoundSink {
            bytes: Vec::new(alloc),
        })
    }

    /// The bytes written.
    pub fn bytes(&self) -> &[u8]
        ensures { result.now ≡ self.now }
    {
        &self.bytes
    }
}

impl Sink for SoundSink {
    ghost known = { λ sink. Some sink };

    ghost faults = { λ _. 0 };

    fn write(&mut self, piece: &[u8]) -> Result<usize, Refusal>
        ensures added { OnOk result (self.new ≡ self.old ++ piece.now) }
        ensures kept { OnErr result (self.new ≡ self.old) }
        ensures all { IfOk result (λ n. n ≡ length piece.now) }
        ensures sound { IsErrOf result Refusal.Failed → ⊥ }
    {
        self.bytes.extend_from_slice(piece)?;
        Ok(piece.len())
    }
}

/// Over sound files and a sound sink no fault is answered: their counts of faults never rise.
pub fn sound_counts_never_rise()
    ensures files { (old new : List (List ℕ × List ℕ))
        → ¬ Rose (⟦<SoundFiles as Files>⟧.counts old).faults (⟦<SoundFiles as Files>⟧.counts new).faults }
    ensures sink { (old new : List ℕ) → ¬ Rose (⟦<SoundSink as Sink>⟧.faults old) (⟦<SoundSink as Sink>⟧.faults new) }
{}
