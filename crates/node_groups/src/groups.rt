//! The groups of nodes.
ghost use Rattle.std.specs.List.{range_with_len};
ghost use Rattle.std.specs.Prelude.{◌≡◌, ◌<◌, ◌^◌, [], length, All, IfOk};
ghost use Rattle.node_groups.specs.Groups.{AreGroups};
ghost use Rattle.node_groups.specs.inside.Forest.{LeadsBack, AreNumbered};

use crate::forest::join_all;
use entry_list::Entries;
use std::alloc::{AllocError, Global};

/// The groups of the nodes that shorts join, in the order of their first nodes.
#[derive(Debug, Drop)]
pub struct Groups {
    /// For each node the number of its group.
    pub group: Entries<u32>,
    /// For each group its first node.
    pub firsts: Entries<u32>,
}

// Steps that lead from each node to itself.
fn alone(alloc: Global, nodes: u32) -> Result<Vec<u32>, AllocError>
    ensures { IfOk result (λ parents. parents.items ≡ range_with_len 0 nodes) }
{
    let mut parents = Vec::with_capacity(alloc, nodes as usize)?;
    for node in 0..nodes {
        parents.push(node)?;
    }
    Ok(parents)
}

// Numbers the groups in the order of the nodes that lead to themselves.
fn number(alloc: Global, parents: &[u32]) -> Result<Groups, AllocError>
    requires few { length parents.now < 2 ^ 32 }
    requires back { LeadsBack parents.now }
    ensures { IfOk result (λ groups. AreNumbered parents.now (length parents.now) groups.group groups.firsts) }
{
    let mut group = Vec::with_capacity(alloc, parents.len())?;
    let mut firsts = Vec::new(alloc);
    for (node, parent) in parents.iter().enumerate() {
        if *parent as usize == node {
            group.push(firsts.len() as u32)?;
            firsts.push(*parent)?;
        } else {
            let known = group[*parent as usize];
            group.push(known)?;
        }
    }
    Ok(Groups {
        group: Entries::new(group),
        firsts: Entries::new(firsts),
    })
}

// Each node as a group by itself.
fn own_groups(alloc: Global, nodes: u32) -> Result<Groups, AllocError>
    ensures { IfOk result (λ groups. AreGroups nodes [] groups.group groups.firsts) }
{
    let group = alone(alloc, nodes)?;
    let firsts = alone(alloc, nodes)?;
    Ok(Groups {
        group: Entries::new(group),
        firsts: Entries::new(firsts),
    })
}

/// The groups of the nodes `0 .. nodes - 1`. Two nodes have one group exactly where a chain of shorts joins them.
///
/// A short is given by its two ends; any number of shorts may join the same nodes, and one may join a node to itself.
/// It takes hardly more time than there are nodes and shorts, and a few bytes for each node. It fails only for want of
/// memory.
pub fn group_nodes(alloc: Global, nodes: u32, shorts: &[(u32, u32)]) -> Result<Groups, AllocError>
    requires { All (λ s. (s.0 < nodes) × (s.1 < nodes)) shorts.now }
    ensures { IfOk result (λ groups. AreGroups nodes shorts.now groups.group groups.firsts) }
{
    if shorts.is_empty() {
        return own_groups(alloc, nodes);
    }
    let mut parents = alone(alloc, nodes)?;
    join_all(&mut parents, shorts);
    number(alloc, &parents)
}
