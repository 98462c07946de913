//! Chains of vias as stacks, in order.
ghost use Rattle.std.specs.Prelude.{◌≡◌, ◌+◌, AllPairs, All, IfOk, map, length, false};
ghost use Rattle.std.specs.List.Sorted.{IsPermutation};
ghost use Rattle.std.specs.Ordering.{is_gt};
ghost use Rattle.geom_rect.specs.Rect.{IsInOrder};
ghost use Rattle.lef_tech.specs.Limits.{TechKeeps};
ghost use Rattle.wire_names.specs.Keeping.{ViaStands};
ghost use Rattle.wire_stacks.specs.Stacks.{IsStackOf};
ghost use Rattle.wire_stacks.specs.declared.made.Made.{Made};
ghost use Rattle.wire_stacks.specs.inside.Made.{AreMade, IsMade, IsChainOf, made_order};

use crate::array::{arrays, ohms};
use crate::crossing::crossing_of;
use crate::number::number;
use entry_list::Entries;
use grid_pieces::StackAt;
use lef_tech::Tech;
use std::alloc::{AllocError, Global};
use via_arrays::Stack;
use wire_chains::{Chain, ViaAt};
use wire_names::NamedVia;

// A stack with the number of its chain, and which vias are at its lower and at its upper end.
#[derive(Debug, Drop)]
pub(crate) struct Made {
    pub(crate) number: u32,
    pub(crate) low: u32,
    pub(crate) high: u32,
    pub(crate) at: StackAt,
}

// The stacks of chains, in the order of the chains.
pub(crate) fn all_made(
    alloc: Global,
    tech: &Tech,
    vias: &[NamedVia],
    chains: &[Chain],
) -> Result<Vec<Made>, AllocError>
    requires tech { TechKeeps tech.now }
    requires stand { All (ViaStands (length tech.now.routing) (length tech.now.cuts) (length tech.now.rules)) vias.now }
    requires chains { All (IsChainOf vias.now) chains.now }
    ensures { IfOk result (λ made. AreMade tech.now vias.now chains.now made.items) }
{
    let mut made = Vec::new(alloc);
    for (place, chain) in chains.iter().enumerate() {
        made.push(one_made(alloc, tech, vias, chain.vias(), number(place)?)?)?;
    }
    Ok(made)
}

fn one_made(
    alloc: Global,
    tech: &Tech,
    vias: &[NamedVia],
    chain: &[ViaAt],
    number: u32,
) -> Result<Made, AllocError>
    requires tech { TechKeeps tech.now }
    requires stand { All (ViaStands (length tech.now.routing) (length tech.now.cuts) (length tech.now.rules)) vias.now }
    requires chain { IsChainOf vias.now chain.now }
    ensures { IfOk result (IsMade tech.now vias.now chain.now number) }
{
    let low = chain[0].via;
    let high = chain[chain.len() - 1].via;
    let at = stack_of(alloc, tech, vias, chain)?;
    Ok(Made {
        number,
        low,
        high,
        at,
    })
}

// The stack of a chain.
fn stack_of(
    alloc: Global,
    tech: &Tech,
    vias: &[NamedVia],
    chain: &[ViaAt],
) -> Result<StackAt, AllocError>
    requires tech { TechKeeps tech.now }
    requires stand { All (ViaStands (length tech.now.routing) (length tech.now.cuts) (length tech.now.rules)) vias.now }
    requires chain { IsChainOf vias.now chain.now }
    ensures stack { IfOk result (IsStackOf tech.now vias.now chain.now) }
    ensures upright { IfOk result (λ at. IsInOrder at.crossing) }
{
    let first = chain[0];
    let crossing = crossing_of(vias, chain, first.x, first.y);
    let arrays = arrays(alloc, vias, chain)?;
    let ohms = ohms(alloc, tech, vias, chain)?;
    let to = end(first.layer, chain.len())?;
    Ok(StackAt {
        net: first.net,
        x: first.x,
        y: first.y,
        crossing,
        stack: Stack {
            from: first.layer,
            to,
            arrays: Entries::new(arrays),
            ohms: Entries::new(ohms),
        },
    })
}

// The layer on which a stack of so many vias ends.
fn end(from: u32, vias: usize) -> Result<u32, AllocError>
    ensures { IfOk result (λ to. to ≡ from + vias) }
{
    number((from as usize).checked_add(vias).ok_or(AllocError)?)
}

// Puts stacks in order.
pub(crate) fn in_order(made: Vec<Made>) -> Vec<Made>
    ensures same { IsPermutation made.items result.items }
    ensures in_order { AllPairs (λ (a b : Made). is_gt (made_order a b) ≡ false) result.items }
{
    let mut all = made;
    sort(&mut all);
    all
}

fn sort(made: &mut [Made])
    ensures same { IsPermutation made.old made.new }
    ensures in_order { AllPairs (λ (a b : Made). is_gt (made_order a b) ≡ false) made.new }
{
    made.sort_unstable_by_key(|one| (
        one.at.net,
        one.at.x,
        one.at.y,
        one.at.stack.from,
        one.at.stack.to,
        one.at.crossing.x1,
        one.at.crossing.y1,
        one.at.crossing.x2,
        one.at.crossing.y2,
        one.number,
    ));
}

// The stacks alone.
pub(crate) fn alone(alloc: Global, made: Vec<Made>) -> Result<Vec<StackAt>, AllocError>
    ensures { IfOk result (λ stacks. stacks.items ≡ map (λ (one : Made). one.at) made.items) }
{
    made.into_iter().map(|one| one.at).collect(alloc)
}
