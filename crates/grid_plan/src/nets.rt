//! The nets of a script, in byte order.
ghost use Rattle.std.specs.Prelude.{◌≡◌, IfOk, OnOk, map};
ghost use Rattle.std.specs.Option.{is_some};
ghost use Rattle.std.specs.List.Sorted.{IsPermutation};
ghost use Rattle.name_places.specs.Places.{place_of};
ghost use Rattle.name_table.specs.ByteOrder.{IsInByteOrder};
ghost use Rattle.name_table.specs.Numbering.{AreDistinct, TakesName};
ghost use Rattle.pdn_script.specs.declared.record.Domain.{Domain};
ghost use Rattle.grid_plan.specs.Names.{AreNets, HaveNets, powers_of};

use name_places::NamePlaces;
use name_table::NameTable;
use outside::Name;
use pdn_script::{Domain, Script};
use std::alloc::{AllocError, Global};

// A table of the nets of the domains, in byte order, each once.
#[tactic(auto, using(crate::proofs::Stepped::nets_are))]
pub(crate) fn nets<'a>(alloc: Global, script: &'a Script) -> Result<NamePlaces<'a>, AllocError>
    ensures { IfOk result (AreNets script.now) }
{
    let table = net_table(alloc, script.domains.as_slice())?;
    let nets = ordered_nets(alloc, &table)?;
    Ok(nets)
}

// The names of a table in byte order.
fn ordered_nets<'a>(alloc: Global, table: &NameTable<'a>) -> Result<NamePlaces<'a>, AllocError>
    ensures { IfOk result (λ nets. IsPermutation table.now nets × IsInByteOrder nets) }
{
    let ordered = table.ordered(alloc)?;
    NamePlaces::new(alloc, ordered.names.into_items())
}

fn net_table<'a>(alloc: Global, domains: &'a [Domain]) -> Result<NameTable<'a>, AllocError>
    ensures { IfOk result (λ table. AreDistinct table × HaveNets domains.now table) }
{
    let mut table = NameTable::with_capacity(alloc, 0)?;
    for domain in domains {
        add_net(&mut table, &domain.power)?;
        add_net(&mut table, &domain.ground)?;
    }
    Ok(table)
}

fn add_net<'a>(table: &mut NameTable<'a>, net: &'a Name) -> Result<(), AllocError>
    ensures takes { OnOk result (TakesName table.old table.new net.now) }
    ensures distinct { OnOk result (AreDistinct table.new) }
{
    match table.number(net.bytes()) {
        Ok(_) => Ok(()),
        Err(_) => Err(AllocError),
    }
}

// The names of a table, copied.
pub(crate) fn copied<'a>(alloc: Global, nets: &NamePlaces<'a>) -> Result<Vec<Name>, AllocError>
    ensures { IfOk result (λ names. names.items ≡ nets.now) }
{
    copies(alloc, nets.names())
}

fn copies(alloc: Global, names: &[&[u8]]) -> Result<Vec<Name>, AllocError>
    ensures { IfOk result (λ copies. copies.items ≡ map (λ n. n.now) names.now) }
{
    let mut copies = Vec::new(alloc);
    for name in names {
        copies.push(Name::new(alloc, name)?)?;
    }
    Ok(copies)
}

// For each net whether a domain has it as its power. The powers' table answers it.
#[tactic(auto, using(crate::proofs::Stepped::powers_are))]
pub(crate) fn powers<'a>(
    alloc: Global,
    script: &'a Script,
    nets: &NamePlaces<'a>,
) -> Result<Vec<bool>, AllocError>
    ensures { IfOk result (λ power. power.items ≡ powers_of script.now nets.now) }
{
    let table = power_table(alloc, script.domains.as_slice())?;
    let power = among(alloc, &table, nets.names())?;
    Ok(power)
}

// For each name whether a table has it.
fn among<'a>(
    alloc: Global,
    table: &NamePlaces<'a>,
    names: &[&'a [u8]],
) -> Result<Vec<bool>, AllocError>
    ensures { IfOk result (λ found. found.items ≡ map (λ n. is_some (place_of table.now n.now)) names.now) }
{
    let mut found = Vec::new(alloc);
    for name in names {
        found.push(is_among(table, name))?;
    }
    Ok(found)
}

fn is_among<'a>(table: &NamePlaces<'a>, name: &'a [u8]) -> bool
    ensures { result ≡ is_some (place_of table.now name.now) }
{
    table.place(name).is_some()
}

fn power_table<'a>(alloc: Global, domains: &'a [Domain]) -> Result<NamePlaces<'a>, AllocError>
    ensures { IfOk result (λ table. table ≡ map (λ (domain : Domain). domain.power) domains.now) }
{
    let mut names: Vec<&'a [u8]> = Vec::new(alloc);
    for domain in domains {
        names.push(domain.power.bytes())?;
    }
    NamePlaces::new(alloc, names)
}
