//! The supplies and drop limits of nets.
ghost use Rattle.std.specs.Prelude.{◌≡◌, pos, map, slice_index_or, slice_get, IfOk};
ghost use Rattle.grid_limits.specs.Limits.{net_limit, supply_at, drop_at};
ghost use Rattle.grid_network.specs.declared.key.Key.{Key as Node};
ghost use Rattle.bias_file.specs.declared.record.Supply.{Supply as Potential};
ghost use Rattle.bias_file.specs.declared.record.DropLimit.{DropLimit as Drop};

use bias_file::{Bias, DropLimit, Supply};
use grid_network::Key;
use grid_pieces::Grid;
use name_places::NamePlaces;
use outside::Name;
use signoff_report::NetLimit;
use std::alloc::{AllocError, Global};

/// The nets of a grid with their supplies and drop limits, in their order.
pub(crate) fn net_limits<'a>(
    alloc: Global,
    grid: &'a Grid,
    bias: &'a Bias,
) -> Result<Vec<NetLimit>, AllocError>
    ensures { IfOk result (λ limits. limits.items ≡ map (net_limit bias.now) grid.now.nets) }
{
    let supplies = supply_places(alloc, bias.supplies.as_slice())?;
    let drops = drop_places(alloc, bias.drops.as_slice())?;
    let mut limits = Vec::new(alloc);
    for net in grid.nets.as_slice() {
        limits.push(net_limit(alloc, bias, &supplies, &drops, net)?)?;
    }
    Ok(limits)
}

// A net with its supply and its drop limit.
fn net_limit<'a>(
    alloc: Global,
    bias: &Bias,
    supplies: &NamePlaces<'a>,
    drops: &NamePlaces<'a>,
    net: &'a Name,
) -> Result<NetLimit, AllocError>
    requires supplies { supplies.now ≡ map (λ (s : Potential). s.net) bias.now.supplies }
    requires drops { drops.now ≡ map (λ (d : Drop). d.net) bias.now.drops }
    ensures { IfOk result (λ limit. limit ≡ net_limit bias.now net.now) }
{
    let supply = supplies.place(net.bytes());
    let drop = drops.place(net.bytes());
    Ok(NetLimit {
        name: Name::new(alloc, net.bytes())?,
        supply: supply_at(bias.supplies.as_slice(), supply),
        drop: drop_at(bias.drops.as_slice(), drop),
    })
}

// The places of the nets in the lines of supplies.
fn supply_places<'a>(alloc: Global, supplies: &'a [Supply]) -> Result<NamePlaces<'a>, AllocError>
    ensures { IfOk result (λ places. places ≡ map (λ (s : Potential). s.net) supplies.now) }
{
    let mut names = Vec::new(alloc);
    for supply in supplies {
        names.push(supply.net.bytes())?;
    }
    NamePlaces::new(alloc, names)
}

// Their places in the lines of drop limits.
fn drop_places<'a>(alloc: Global, drops: &'a [DropLimit]) -> Result<NamePlaces<'a>, AllocError>
    ensures { IfOk result (λ places. places ≡ map (λ (d : Drop). d.net) drops.now) }
{
    let mut names = Vec::new(alloc);
    for drop in drops {
        names.push(drop.net.bytes())?;
    }
    NamePlaces::new(alloc, names)
}

// The potential of the supply line at a place, 0 where there is none.
fn supply_at(supplies: &[Supply], place: Option<usize>) -> i128
    ensures { result ≡ supply_at supplies.now place }
{
    match place {
        Some(place) => volts_at(supplies, place),
        None => 0,
    }
}

fn volts_at(supplies: &[Supply], place: usize) -> i128
    ensures { result ≡ slice_index_or (map (λ (s : Potential). s.volts) supplies.now) place (pos 0) }
{
    match supplies.get(place) {
        Some(supply) => supply.volts,
        None => 0,
    }
}

// The number of the droplimit line at a place, none where there is none.
fn drop_at(drops: &[DropLimit], place: Option<usize>) -> Option<i128>
    ensures { result ≡ drop_at drops.now place }
{
    match place {
        Some(place) => limit_at(drops, place),
        None => None,
    }
}

fn limit_at(drops: &[DropLimit], place: usize) -> Option<i128>
    ensures { result ≡ slice_get (map (λ (d : Drop). d.volts) drops.now) place }
{
    match drops.get(place) {
        Some(drop) => Some(drop.volts),
        None => None,
    }
}

/// The net of each node, in their order.
pub(crate) fn nets_of(alloc: Global, keys: &[Key]) -> Result<Vec<u32>, AllocError>
    ensures { IfOk result (λ nets. nets.items ≡ map (λ (key : Node). key.net) keys.now) }
{
    keys.iter().map(|key| key.net).collect(alloc)
}
