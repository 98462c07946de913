//! The fields of records, from the values of options.
ghost use Rattle.std.specs.Prelude.{◌≡◌, IfOk};
ghost use Rattle.pdn_script.specs.Field.{start_of as start, maybe_start as starts, start_or_ground as start_or, IsNames, IsMaybeNames, AreNumbers, AreMaybeNumbers};
ghost use Rattle.pdn_script.specs.inside.Value.{count_in, HaveNumbers};
ghost use Rattle.pdn_script.specs.Known.{or_empty as or_nothing};
ghost use Rattle.script_options.specs.declared.number.Quantity.TheVariants as quantities;

use crate::known::or_empty;
use crate::record::Start;
use crate::text::Bytes;
use entry_list::Entries;
use outside::Name;
use script_options::{Quantity, list_numbers, parts_of};
use std::alloc::{AllocError, Global};

/// The net that the word says.
fn start_of(text: &[u8]) -> Start
    ensures { result ≡ start text.now }
{
    if text == b"POWER".as_slice() {
        Start::Power
    } else {
        Start::Ground
    }
}

/// The net that is stated.
pub(crate) fn maybe_start(value: &Option<Bytes<'_>>) -> Option<Start>
    ensures { result ≡ starts value.now }
{
    match value {
        Some(text) => Some(start_of(text.bytes())),
        None => None,
    }
}

/// The net that is stated, or the ground.
pub(crate) fn start_or_ground(value: &Option<Bytes<'_>>) -> Start
    ensures { result ≡ start_or value.now }
{
    match value {
        Some(text) => start_of(text.bytes()),
        None => Start::Ground,
    }
}

/// The name.
pub(crate) fn name(alloc: Global, value: &Option<Bytes<'_>>) -> Result<Name, AllocError>
    ensures { IfOk result (λ name. name ≡ or_nothing value.now) }
{
    Name::new(alloc, or_empty(value))
}

/// The name, if one is stated.
pub(crate) fn maybe_name(
    alloc: Global,
    value: &Option<Bytes<'_>>,
) -> Result<Option<Name>, AllocError>
    ensures { IfOk result (λ name. name ≡ value.now) }
{
    match value {
        Some(text) => Ok(Some(Name::new(alloc, text.bytes())?)),
        None => Ok(None),
    }
}

/// The names of a list.
pub(crate) fn names(alloc: Global, value: &Option<Bytes<'_>>) -> Result<Entries<Name>, AllocError>
    ensures { IfOk result (λ names. IsNames value.now names) }
{
    Ok(Entries::new(parts_of(alloc, or_empty(value))?))
}

/// The names of a list, if one is stated.
pub(crate) fn maybe_names(
    alloc: Global,
    value: &Option<Bytes<'_>>,
) -> Result<Option<Entries<Name>>, AllocError>
    ensures { IfOk result (λ names. IsMaybeNames value.now names) }
{
    match value {
        Some(text) => Ok(Some(Entries::new(parts_of(alloc, text.bytes())?))),
        None => Ok(None),
    }
}

/// The count, if one is stated: at most 10^6.
pub(crate) fn maybe_count(number: Option<u64>) -> Option<u32>
    ensures { result ≡ count_in number }
{
    match number {
        Some(number) => Some(number.min(1_000_000) as u32),
        None => None,
    }
}

/// The numbers of a list.
pub(crate) fn numbers(
    alloc: Global,
    quantity: Quantity,
    value: &Option<Bytes<'_>>,
) -> Result<Entries<u64>, AllocError>
    ensures { IfOk result (λ numbers. HaveNumbers quantity value.now → AreNumbers quantity value.now numbers) }
{
    Ok(Entries::new(list_numbers(alloc, quantity, or_empty(value))?))
}

/// The lengths of a list, if one is stated.
pub(crate) fn maybe_lengths(
    alloc: Global,
    value: &Option<Bytes<'_>>,
) -> Result<Option<Entries<u64>>, AllocError>
    ensures { IfOk result (λ numbers. HaveNumbers quantities.Length value.now → AreMaybeNumbers value.now numbers) }
{
    match value {
        Some(text) => Ok(Some(Entries::new(list_numbers(alloc, Quantity::Length, text.bytes())?))),
        None => Ok(None),
    }
}
