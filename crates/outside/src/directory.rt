// Files that are held in memory.
ghost use Rattle.std.specs.Prelude.{◌≡◌, ◌-◌, [], length, map, min, MatchOption, OnOk, OnErr, Some, None};
ghost use Rattle.outside.specs.Directory.{stored};
ghost use Rattle.outside.specs.Entries.{value_under};
ghost use Rattle.outside.specs.Files.{IsReadAt, MakesEmpty, Appends};

use crate::Name;
use crate::entries::place_of;
use std::alloc::{AllocError, Global};
use std::marker::Model;

/// Files by name, of which the first of a name counts.
#[derive(Debug, Drop)]
pub(crate) struct Directory {
    alloc: Global,
    files: Vec<(Name, Vec<u8>)>,
}

impl Model for Directory {
    ghost use Rattle.std.specs.Prelude.{List, ℕ, map};
    ghost use Rattle.outside.specs.Directory.{stored};

    ghost Value = { List (List ℕ × List ℕ) };

    ghost view = { λ directory. map stored directory.files.items };
}

impl Directory {
    pub(crate) fn new(alloc: Global, files: Vec<(Name, Vec<u8>)>) -> Directory
        ensures { result ≡ map stored files.items }
    {
        Directory { alloc, files }
    }

    /// The bytes of a file.
    pub(crate) fn bytes(&self, name: &str) -> Option<&[u8]>
        ensures { MatchOption result (value_under self.now name.now ≡ None)
            (λ bytes. value_under self.now name.now ≡ Some bytes.now) }
    {
        match place_of(&self.files, name.as_bytes()) {
            Some(place) => Some(&self.files[place].1),
            None => None,
        }
    }

    /// Makes a file empty, or adds an empty one. It fails only for want of memory.
    pub(crate) fn create(&mut self, name: &str) -> Result<(), AllocError>
        ensures created { OnOk result (MakesEmpty name.now (value_under self.old) (value_under self.new)) }
        ensures kept { OnErr result (self.new ≡ self.old) }
    {
        match place_of(&self.files, name.as_bytes()) {
            Some(place) => self.files[place].1.clear(),
            None => {
                let named = Name::new(self.alloc, name.as_bytes())?;
                self.files.push((named, Vec::new(self.alloc)))?;
            }
        }
        Ok(())
    }

    /// Adds bytes at the end of a file, which it makes where there is none. It fails only for want of memory.
    pub(crate) fn append(&mut self, name: &str, piece: &[u8]) -> Result<(), AllocError>
        ensures appended { OnOk result
            (Appends name.now piece.now (length piece.now) (value_under self.old) (value_under self.new)) }
        ensures kept { OnErr result (self.new ≡ self.old) }
    {
        match place_of(&self.files, name.as_bytes()) {
            Some(place) => self.files[place].1.extend_from_slice(piece)?,
            None => {
                let named = Name::new(self.alloc, name.as_bytes())?;
                let bytes = piece.to_vec(self.alloc)?;
                self.files.push((named, bytes))?;
            }
        }
        Ok(())
    }
}

/// Copies bytes of a file from a place on into a slice, as many as there are and the slice takes.
pub(crate) fn read_bytes(bytes: &[u8], at: u64, into: &mut [u8]) -> usize
    ensures read { IsReadAt bytes.now at result into.new }
    ensures all { result ≡ min (length into.old) (length bytes.now - at) }
{
    let start = at.min(bytes.len() as u64) as usize;
    let count = into.len().min(bytes.len() - start);
    into[..count].copy_from_slice(&bytes[start..start + count]);
    count
}
