//! Names that stand.
ghost use Rattle.std.specs.Prelude.{◌≡◌, [], IfOk, OnOk};
ghost use Rattle.list_laws.specs.Among.{is_among};
ghost use Rattle.pdn_script.specs.Names.{with_name};

use name_table::NameTable;
use std::alloc::{AllocError, Global};
use std::marker::Model;

/// Names, each once, in the order in which they first came.
///
/// A contract sees the list of them.
#[derive(Drop)]
pub(crate) struct Names<'a> {
    table: NameTable<'a>,
}

impl<'a> Model for Names<'a> {
    ghost use Rattle.std.specs.Prelude.{ℕ, List};

    ghost Value = { List (List ℕ) };

    ghost view = { λ names. names.table };
}

impl<'a> Names<'a> {
    pub(crate) fn new(alloc: Global) -> Result<Names<'a>, AllocError>
        ensures { IfOk result (λ names. names ≡ []) }
    {
        Ok(Names {
            table: NameTable::with_capacity(alloc, 0)?,
        })
    }

    /// Whether it is one of the names.
    pub(crate) fn contains(&self, name: &'a [u8]) -> bool
        ensures { result ≡ is_among self.now name.now }
    {
        self.table.contains(name)
    }

    /// One more name, if it is new.
    pub(crate) fn add(&mut self, name: &'a [u8]) -> Result<(), AllocError>
        ensures { OnOk result (self.new ≡ with_name self.old name.now) }
    {
        match self.table.number(name) {
            Ok(_) => {}
            Err(_) => return Err(AllocError),
        }
        Ok(())
    }
}
