//! The two nets.
ghost use Rattle.std.specs.Prelude.{◌≡◌, ◌≢◌, ◌⊎◌, ◌<◌, [], ◌∷◌, map, filter, length, IfOk, IfErr, true, false, MatchResult};
ghost use Rattle.std.specs.Bool.{MatchBool};
ghost use Rattle.name_table.specs.ByteOrder.{IsBefore};
ghost use Rattle.wire_names.specs.Nets.{has_wiring, is_wired, wired_nets, net_number};
ghost use Rattle.wire_names.specs.inside.Pair.{ArePair, AreNoPair};

use crate::error::NameError;
use def_wiring::{WiredNet, Wires};
use outside::Name;
use std::alloc::{AllocError, Global};
use std::cmp::Ordering;

// The names of the power net and of the ground net, and whether the power net comes first in byte order.
#[derive(Drop)]
pub(crate) struct Pair {
    pub(crate) power: Name,
    pub(crate) ground: Name,
    pub(crate) power_first: bool,
}

// The number of the power net or of the ground net.
pub(crate) fn net_number(power_first: bool, power: bool) -> u32
    ensures is { result ≡ net_number power_first power }
    ensures within { result < 2 }
{
    if power == power_first {
        return 0;
    }
    1
}

// The two nets with wiring.
pub(crate) fn nets_of(alloc: Global, wires: &Wires) -> Result<Pair, NameError>
    ensures { MatchResult result (ArePair wires.now) (AreNoPair wires.now) }
{
    let power = wired_nets(alloc, wires.nets.as_slice(), true)?;
    let ground = wired_nets(alloc, wires.nets.as_slice(), false)?;
    if power.len() != 1 || ground.len() != 1 {
        return Err(NameError::NetCount(power.len() as u64, ground.len() as u64));
    }
    ordered(alloc, power[0], ground[0])
}

// The nets of this use with wiring.
fn wired_nets<'a>(
    alloc: Global,
    nets: &'a [WiredNet],
    power: bool,
) -> Result<Vec<&'a WiredNet>, AllocError>
    ensures { IfOk result (λ some. map (λ n. n.now) some.items ≡ filter (is_wired power) nets.now) }
{
    let mut some = Vec::new(alloc);
    for net in nets {
        if is_wired(power, net) {
            some.push(net)?;
        }
    }
    Ok(some)
}

fn is_wired(power: bool, net: &WiredNet) -> bool
    ensures { result ≡ is_wired power net.now }
{
    has_wiring(net) && net.power == power
}

fn has_wiring(net: &WiredNet) -> bool
    ensures { result ≡ has_wiring net.now }
{
    !net.segments.as_slice().is_empty() || !net.vias.as_slice().is_empty()
}

// A pair with its order. Two nets of one name have none, and are answered as want of memory; no wiring that is read has
// them.
fn ordered(alloc: Global, power: &WiredNet, ground: &WiredNet) -> Result<Pair, NameError>
    ensures power { IfOk result (λ pair. pair.power ≡ power.now.name) }
    ensures ground { IfOk result (λ pair. pair.ground ≡ ground.now.name) }
    ensures order { IfOk result (λ pair. MatchBool pair.power_first (IsBefore power.now.name ground.now.name)
        (IsBefore ground.now.name power.now.name)) }
    ensures refused { IfErr result (λ error. error ≡ NameError.Want) }
{
    let power_first = comes_first(power.name.bytes(), ground.name.bytes())?;
    Ok(Pair {
        power: Name::new(alloc, power.name.bytes())?,
        ground: Name::new(alloc, ground.name.bytes())?,
        power_first,
    })
}

// Whether one name comes before another.
fn comes_first(one: &[u8], other: &[u8]) -> Result<bool, AllocError>
    ensures { IfOk result (λ first. MatchBool first (IsBefore one.now other.now) (IsBefore other.now one.now)) }
{
    match one.cmp(other) {
        Ordering::Less => Ok(true),
        Ordering::Equal => Err(AllocError),
        Ordering::Greater => Ok(false),
    }
}
