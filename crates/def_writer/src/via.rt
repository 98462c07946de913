//! The vias of a grid.
ghost use Rattle.std.specs.Prelude.{◌≡◌, ◌++◌, IfOk, OnOk, fold, decimal};
ghost use Rattle.def_writer.specs.Via.{arrays_of, by_via, via_of, via_name, with_array};

use grid_pieces::StackAt;
use itoa::Buffer;
use std::alloc::{AllocError, Global};
use std::collections::BTreeMap;
use via_arrays::CutArray;

/// A via: a rule, by its place among the rules of the technology, with so many columns and rows of cuts.
#[derive(Clone, Copy, Debug, PartialEq, Eq, PartialOrd, Ord)]
pub struct Via {
    pub rule: u32,
    pub columns: u32,
    pub rows: u32,
}

// The via of an array.
pub(crate) fn via_of(array: &CutArray) -> Via
    ensures { result ≡ via_of array.now }
{
    Via {
        rule: array.rule,
        columns: array.columns,
        rows: array.rows,
    }
}

// The arrays of the stacks by their vias.
pub(crate) fn by_via(
    alloc: Global,
    stacks: &[StackAt],
) -> Result<BTreeMap<Via, CutArray>, AllocError>
    ensures { IfOk result (λ vias. vias.entries ≡ by_via (arrays_of stacks.now)) }
{
    let mut vias = BTreeMap::new(alloc);
    for at in stacks {
        add_arrays(&mut vias, at.stack.arrays.as_slice())?;
    }
    Ok(vias)
}

// Adds the vias of these arrays.
fn add_arrays(vias: &mut BTreeMap<Via, CutArray>, arrays: &[CutArray]) -> Result<(), AllocError>
    ensures { OnOk result (vias.new.entries ≡ fold with_array vias.old.entries arrays.now) }
{
    for array in arrays {
        vias.insert(via_of(array), *array)?;
    }
    Ok(())
}

// Appends the name of a via.
pub(crate) fn append_name(out: &mut Vec<u8>, via: Via) -> Result<(), AllocError>
    ensures { OnOk result (out.new.items ≡ out.old.items ++ via_name via) }
{
    out.extend_from_slice(b"pdn_")?;
    append_count(out, via.rule as u64 + 1)?;
    out.push(b'_')?;
    append_count(out, via.columns as u64)?;
    out.push(b'_')?;
    append_count(out, via.rows as u64)
}

// Appends a whole number.
fn append_count(out: &mut Vec<u8>, count: u64) -> Result<(), AllocError>
    ensures { OnOk result (out.new.items ≡ out.old.items ++ decimal count) }
{
    let mut buffer = Buffer::new();
    out.extend_from_slice(buffer.format(count).as_bytes())
}
