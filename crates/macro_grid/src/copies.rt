//! Copies of what a grid holds.
ghost use Rattle.std.specs.Prelude.{◌≡◌, IfOk};

use entry_list::Entries;
use grid_pieces::{DomainAt, StackAt};
use outside::Name;
use std::alloc::{AllocError, Global};
use via_arrays::{CutArray, Stack};

pub(crate) fn copied_name(alloc: Global, name: &Name) -> Result<Name, AllocError>
    ensures { IfOk result (λ copy. copy ≡ name.now) }
{
    Name::new(alloc, name.bytes())
}

pub(crate) fn copied_names(alloc: Global, names: &[Name]) -> Result<Vec<Name>, AllocError>
    ensures { IfOk result (λ copies. copies.items ≡ names.now) }
{
    let mut copies = Vec::new(alloc);
    for name in names {
        copies.push(copied_name(alloc, name)?)?;
    }
    Ok(copies)
}

pub(crate) fn copied_flags(alloc: Global, flags: &[bool]) -> Result<Vec<bool>, AllocError>
    ensures { IfOk result (λ copies. copies.items ≡ flags.now) }
{
    flags.iter().copied().collect(alloc)
}

pub(crate) fn copied_domains(
    alloc: Global,
    domains: &[DomainAt],
) -> Result<Vec<DomainAt>, AllocError>
    ensures { IfOk result (λ copies. copies.items ≡ domains.now) }
{
    domains.iter().copied().collect(alloc)
}

pub(crate) fn copied_stacks(alloc: Global, stacks: &[StackAt]) -> Result<Vec<StackAt>, AllocError>
    ensures { IfOk result (λ copies. copies.items ≡ stacks.now) }
{
    let mut copies = Vec::new(alloc);
    for stack in stacks {
        copies.push(copied_stack(alloc, stack)?)?;
    }
    Ok(copies)
}

fn copied_stack(alloc: Global, at: &StackAt) -> Result<StackAt, AllocError>
    ensures { IfOk result (λ copy. copy ≡ at.now) }
{
    Ok(StackAt {
        net: at.net,
        x: at.x,
        y: at.y,
        crossing: at.crossing,
        stack: copied_layers(alloc, &at.stack)?,
    })
}

fn copied_layers(alloc: Global, stack: &Stack) -> Result<Stack, AllocError>
    ensures { IfOk result (λ copy. copy ≡ stack.now) }
{
    Ok(Stack {
        from: stack.from,
        to: stack.to,
        arrays: Entries::new(copied_arrays(alloc, stack.arrays.as_slice())?),
        ohms: Entries::new(copied_ohms(alloc, stack.ohms.as_slice())?),
    })
}

fn copied_arrays(alloc: Global, arrays: &[CutArray]) -> Result<Vec<CutArray>, AllocError>
    ensures { IfOk result (λ copies. copies.items ≡ arrays.now) }
{
    arrays.iter().copied().collect(alloc)
}

fn copied_ohms(alloc: Global, ohms: &[u64]) -> Result<Vec<u64>, AllocError>
    ensures { IfOk result (λ copies. copies.items ≡ ohms.now) }
{
    ohms.iter().copied().collect(alloc)
}
