//! The blocks of two libraries as one record.
ghost use Rattle.std.specs.Prelude.{◌≡◌, ◌↔◌, ℕ, List, map, not, Contains, IfOk, OnOk};
ghost use Rattle.list_laws.specs.Among.{is_among};
ghost use Rattle.lef_cells.specs.Join.{without, joined};
ghost use Rattle.macro_blocks.specs.Limits.{BlocksKeep};
ghost use Rattle.macro_blocks.specs.Record.{name_of};

use crate::record::{BlockMacro, Blocks};
use entry_list::Entries;
use name_table::NameTable;
use std::alloc::{AllocError, Global};

/// The names of the macros.
fn names_of<'a>(alloc: Global, macros: &'a [BlockMacro]) -> Result<NameTable<'a>, AllocError>
    ensures { IfOk result (λ names. (name : List ℕ) → Contains names name ↔ Contains (map name_of macros.now) name) }
{
    let mut names = NameTable::with_capacity(alloc, macros.len())?;
    for cell in macros {
        match names.number(cell.name.bytes()) {
            Ok(_) => {}
            Err(_) => return Err(AllocError),
        }
    }
    Ok(names)
}

/// Whether the macro has none of the names.
fn is_new<'a>(names: &NameTable<'a>, cell: &'a BlockMacro) -> bool
    ensures { result ≡ not (is_among names.now (name_of cell.now)) }
{
    !names.contains(cell.name.bytes())
}

/// Keeps the macros of which none of these has the name.
fn keep_new(
    alloc: Global,
    taken: &[BlockMacro],
    macros: &mut Vec<BlockMacro>,
) -> Result<(), AllocError>
    ensures { OnOk result (macros.new.items ≡ without name_of taken.now macros.old.items) }
{
    let names = names_of(alloc, taken)?;
    macros.retain(|cell| is_new(&names, cell));
    Ok(())
}

/// The macros of the first list, and then those of the second whose names the first has not.
fn joined(
    first: Entries<BlockMacro>,
    second: Entries<BlockMacro>,
) -> Result<Entries<BlockMacro>, AllocError>
    ensures { IfOk result (λ macros. macros ≡ joined name_of first second) }
{
    let mut macros = first.into_items();
    let mut others = second.into_items();
    keep_new(*macros.allocator(), &macros, &mut others)?;
    macros.append(&mut others)?;
    Ok(Entries::new(macros))
}

impl Blocks {
    /// The blocks of two libraries: the macros of this one, and then those of the other one whose names this one has not.
    ///
    /// Error: want of memory.
    pub fn join(self, other: Blocks) -> Result<Blocks, AllocError>
        ensures macros { IfOk result (λ blocks. blocks.macros ≡ joined name_of self.macros other.macros) }
        ensures keeps { IfOk result (λ blocks. BlocksKeep self → BlocksKeep other → BlocksKeep blocks) }
    {
        Ok(Blocks {
            macros: joined(self.macros, other.macros)?,
        })
    }
}
