ghost use Rattle.std.specs.Prelude.{◌≡◌, ◌↔◌, ℕ, List, Contains, map, IfOk, OnOk, MatchOption};
ghost use Rattle.name_table.specs.Numbering.{TakesName, AreDistinct};
ghost use Rattle.grid_taps.specs.Naming.{At, IsUnknown};

use bias_file::{Amps, DropLimit, PadAt, Supply};
use def_design::Component;
use lef_cells::MacroCell;
use lef_tech::RoutingLayer;
use name_table::NameTable;
use outside::Name;
use std::alloc::{AllocError, Global};

// What has a name.
pub(crate) trait Named {
    ghost name_of: { Self → List ℕ };

    fn name(&self) -> &[u8]
        ensures { result.now ≡ name_of self.now };
}

impl Named for Name {
    ghost name_of = { λ name. name };

    fn name(&self) -> &[u8] {
        self.bytes()
    }
}

impl Named for RoutingLayer {
    ghost name_of = { λ layer. layer.name };

    fn name(&self) -> &[u8] {
        self.name.bytes()
    }
}

impl Named for MacroCell {
    ghost name_of = { λ cell. cell.name };

    fn name(&self) -> &[u8] {
        self.name.bytes()
    }
}

impl Named for Component {
    ghost name_of = { λ component. component.name };

    fn name(&self) -> &[u8] {
        self.name.bytes()
    }
}

impl Named for Supply {
    ghost name_of = { λ supply. supply.net };

    fn name(&self) -> &[u8] {
        self.net.bytes()
    }
}

impl Named for DropLimit {
    ghost name_of = { λ limit. limit.net };

    fn name(&self) -> &[u8] {
        self.net.bytes()
    }
}

impl Named for PadAt {
    ghost name_of = { λ pad. pad.net };

    fn name(&self) -> &[u8] {
        self.net.bytes()
    }
}

impl Named for Amps {
    ghost name_of = { λ amps. amps.name };

    fn name(&self) -> &[u8] {
        self.name.bytes()
    }
}

// A table of the names of these. Where no name stands twice, each has its place.
pub(crate) fn table_of<'a, T: Named>(
    alloc: Global,
    items: &'a [T],
) -> Result<NameTable<'a>, AllocError>
    ensures names { IfOk result (λ table. (name : List ℕ) → Contains table name ↔ Contains (map T.name_of items.now) name) }
    ensures places { IfOk result (λ table. AreDistinct (map T.name_of items.now) → table ≡ map T.name_of items.now) }
{
    let mut table = NameTable::with_capacity(alloc, items.len())?;
    for item in items {
        add(&mut table, item.name())?;
    }
    Ok(table)
}

// One more name. A table is full with 2^32 - 1 of them, for which no memory is there either.
fn add<'a>(table: &mut NameTable<'a>, name: &'a [u8]) -> Result<(), AllocError>
    ensures { OnOk result (TakesName table.old table.new name.now) }
{
    match table.number(name) {
        Ok(_) => Ok(()),
        Err(_) => Err(AllocError),
    }
}

// The place of a name that is in the table.
pub(crate) fn place_of<'a>(table: &mut NameTable<'a>, name: &'a [u8]) -> Option<u32>
    ensures place { MatchOption result (IsUnknown table.old name.now) (λ k. At table.old k name.now) }
    ensures same { table.new ≡ table.old }
{
    if !table.contains(name) {
        return None;
    }
    match table.number(name) {
        Ok(number) => Some(number),
        Err(_) => unreachable!(),
    }
}
