//! Lists of entries of which each has a name of its own.
#![tactic(auto)]

ghost use Rattle.std.specs.Prelude.{◌≡◌, ◌↔◌, [], ◌∷◌, ◌++◌, Contains, IfOk, IsTrue, OnOk};
ghost use Rattle.name_table.specs.Numbering.{TakesName, AreDistinct};

use entry_list::Entries;
use name_table::NameTable;
use std::alloc::{AllocError, Global};
use std::marker::Model;

/// Entries in the order in which they came, and their names, of which none stands twice.
///
/// A contract sees the names and the entries.
#[derive(Drop)]
pub struct NamedEntries<'a, T> {
    names: NameTable<'a>,
    entries: Vec<T>,
}

impl<'a, T> Model for NamedEntries<'a, T> {
    ghost use Rattle.named_entries.specs.Named.{NamedList};

    ghost Value = { NamedList T };

    ghost view = { λ named. record { names = named.names; entries = named.entries.items } };
}

impl<'a, T: Drop> NamedEntries<'a, T> {
    /// No entries.
    pub fn new(alloc: Global) -> Result<NamedEntries<'a, T>, AllocError>
        ensures names { IfOk result (λ named. named.names ≡ []) }
        ensures entries { IfOk result (λ named. named.entries ≡ []) }
    {
        Ok(NamedEntries {
            names: NameTable::with_capacity(alloc, 0)?,
            entries: Vec::new(alloc),
        })
    }

    /// Whether an entry has the name.
    pub fn contains(&self, name: &'a [u8]) -> bool
        ensures { IsTrue result ↔ Contains self.now.names name.now }
    {
        self.names.contains(name)
    }

    /// One more entry, at the end. A table of names is full with 2^32 - 1 of them, more than a text of 2^28 bytes has.
    ///
    /// Error: want of memory.
    pub fn add(&mut self, name: &'a [u8], entry: T) -> Result<(), AllocError>
        ensures names { OnOk result (TakesName self.old.names self.new.names name.now) }
        ensures entries { OnOk result (self.new.entries ≡ self.old.entries ++ entry ∷ []) }
    {
        match self.names.number(name) {
            Ok(_) => {}
            Err(_) => return Err(AllocError),
        }
        self.entries.push(entry)?;
        Ok(())
    }

    /// The entries, in their order.
    pub fn into_entries(self) -> Entries<T>
        ensures entries { result ≡ self.entry.entries }
        ensures distinct { AreDistinct self.entry.names }
    {
        let _count = self.names.len();
        Entries::new(self.entries)
    }
}
