//! Groups of small netlists, and of long chains, stars and rings of shorts.
ghost use Rattle.std.specs.Prelude.{◌<◌, All, IfOk};

use crate::same::same;
use node_groups::*;
use std::alloc::{AllocError, Global};
use std::test::Fail;

// Nodes in a row, each shorted to the next.
fn chain(alloc: Global, nodes: u32) -> Result<Vec<(u32, u32)>, AllocError>
    ensures { IfOk result (λ shorts. All (λ s. (s.0 < nodes) × (s.1 < nodes)) shorts.items) }
{
    let mut shorts = Vec::new(alloc);
    for node in 1..nodes {
        shorts.push((node - 1, node))?;
    }
    Ok(shorts)
}

// The same row from its far end, each short turned.
fn chain_from_the_end(alloc: Global, nodes: u32) -> Result<Vec<(u32, u32)>, AllocError>
    ensures { IfOk result (λ shorts. All (λ s. (s.0 < nodes) × (s.1 < nodes)) shorts.items) }
{
    let mut shorts = Vec::new(alloc);
    for node in (1..nodes).rev() {
        shorts.push((node, node - 1))?;
    }
    Ok(shorts)
}

// Each node but the last shorted to the last.
fn star(alloc: Global, nodes: u32) -> Result<Vec<(u32, u32)>, AllocError>
    ensures { IfOk result (λ shorts. All (λ s. (s.0 < nodes) × (s.1 < nodes)) shorts.items) }
{
    let mut shorts = Vec::new(alloc);
    for node in 1..nodes {
        shorts.push((nodes - 1, node - 1))?;
    }
    Ok(shorts)
}

#[test]
fn nodes_without_shorts_stay_alone(rt: HostRuntime) -> Result<(), Fail> {
    let groups = group_nodes(rt.alloc(), 3, &[])?;
    same(&rt, groups.group.as_slice(), [0u32, 1, 2].as_slice());
    same(&rt, groups.firsts.as_slice(), [0u32, 1, 2].as_slice());
    let none = group_nodes(rt.alloc(), 0, &[])?;
    assert!(rt; none.firsts.as_slice().len() == 0);
    Ok(())
}

#[test]
fn two_groups_and_a_short_to_itself(rt: HostRuntime) -> Result<(), Fail> {
    let groups = group_nodes(rt.alloc(), 7, &[(5, 1), (4, 4), (3, 6), (6, 5), (2, 0)])?;
    same(
        &rt,
        groups.group.as_slice(),
        [0u32, 1, 0, 1, 2, 1, 1].as_slice(),
    );
    same(&rt, groups.firsts.as_slice(), [0u32, 1, 4].as_slice());
    Ok(())
}

#[test]
fn a_million_nodes_in_a_chain(rt: HostRuntime) -> Result<(), Fail> {
    let groups = group_nodes(rt.alloc(), 1_000_000, &chain(rt.alloc(), 1_000_000)?)?;
    same(&rt, groups.firsts.as_slice(), [0u32].as_slice());
    let back = group_nodes(
        rt.alloc(),
        1_000_000,
        &chain_from_the_end(rt.alloc(), 1_000_000)?,
    )?;
    same(&rt, back.firsts.as_slice(), [0u32].as_slice());
    assert!(rt; back.group.as_slice().iter().all(|group| *group == 0));
    Ok(())
}

#[test]
fn a_star_of_a_million_nodes(rt: HostRuntime) -> Result<(), Fail> {
    let groups = group_nodes(rt.alloc(), 1_000_001, &star(rt.alloc(), 1_000_000)?)?;
    same(&rt, groups.firsts.as_slice(), [0u32, 1_000_000].as_slice());
    Ok(())
}

#[test]
fn a_ring(rt: HostRuntime) -> Result<(), Fail> {
    let mut shorts = chain(rt.alloc(), 1_000)?;
    shorts.push((999, 0))?;
    let groups = group_nodes(rt.alloc(), 1_000, &shorts)?;
    same(&rt, groups.firsts.as_slice(), [0u32].as_slice());
    Ok(())
}
