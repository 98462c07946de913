//! The cells of two libraries as one record.
ghost use Rattle.std.specs.Prelude.{◌≡◌, ◌↔◌, ℕ, List, map, not, Contains, IfOk, OnOk};
ghost use Rattle.list_laws.specs.Among.{is_among};
ghost use Rattle.lef_cells.specs.Join.{without, joined};
ghost use Rattle.lef_cells.specs.Limits.{CellsKeep};

use crate::record::{Cells, MacroCell, Site};
use entry_list::Entries;
use name_table::NameTable;
use std::alloc::{AllocError, Global};

/// An entry that has a name.
trait HasName {
    ghost name_of: { Self → List ℕ };

    fn name(&self) -> &[u8]
        ensures { result.now ≡ name_of self.now };
}

impl HasName for Site {
    ghost name_of = { λ site. site.name };

    fn name(&self) -> &[u8] {
        self.name.bytes()
    }
}

impl HasName for MacroCell {
    ghost name_of = { λ cell. cell.name };

    fn name(&self) -> &[u8] {
        self.name.bytes()
    }
}

/// The names of the entries.
fn names_of<'a, T: HasName>(alloc: Global, entries: &'a [T]) -> Result<NameTable<'a>, AllocError>
    ensures { IfOk result (λ names. (name : List ℕ) → Contains names name ↔ Contains (map T.name_of entries.now) name) }
{
    let mut names = NameTable::with_capacity(alloc, entries.len())?;
    for entry in entries {
        match names.number(entry.name()) {
            Ok(_) => {}
            Err(_) => return Err(AllocError),
        }
    }
    Ok(names)
}

/// Whether the entry has none of the names.
fn is_new<'a, T: HasName>(names: &NameTable<'a>, entry: &'a T) -> bool
    ensures { result ≡ not (is_among names.now (T.name_of entry.now)) }
{
    !names.contains(entry.name())
}

/// Keeps the entries of which none of these has the name.
fn keep_new<T: HasName + Drop>(
    alloc: Global,
    taken: &[T],
    entries: &mut Vec<T>,
) -> Result<(), AllocError>
    ensures { OnOk result (entries.new.items ≡ without T.name_of taken.now entries.old.items) }
{
    let names = names_of(alloc, taken)?;
    entries.retain(|entry| is_new(&names, entry));
    Ok(())
}

/// The entries of the first list, and then those of the second whose names the first has not.
fn joined<T: HasName + Drop>(
    first: Entries<T>,
    second: Entries<T>,
) -> Result<Entries<T>, AllocError>
    ensures { IfOk result (λ entries. entries ≡ joined T.name_of first second) }
{
    let mut entries = first.into_items();
    let mut others = second.into_items();
    keep_new(*entries.allocator(), &entries, &mut others)?;
    entries.append(&mut others)?;
    Ok(Entries::new(entries))
}

impl Cells {
    /// The cells of two libraries: the sites and the macros of this one, and then those of the other one whose names
    /// this one has not. Of two entries of one name so the first stays.
    ///
    /// Error: want of memory.
    pub fn join(self, other: Cells) -> Result<Cells, AllocError>
        ensures sites { IfOk result (λ cells. cells.sites ≡ joined (λ site. site.name) self.sites other.sites) }
        ensures macros { IfOk result (λ cells. cells.macros ≡ joined (λ cell. cell.name) self.macros other.macros) }
        ensures keeps { IfOk result (λ cells. CellsKeep self → CellsKeep other → CellsKeep cells) }
    {
        Ok(Cells {
            sites: joined(self.sites, other.sites)?,
            macros: joined(self.macros, other.macros)?,
        })
    }
}
