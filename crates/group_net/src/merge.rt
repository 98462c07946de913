//! The network of the groups.
ghost use Rattle.std.specs.Prelude.{◌≡◌, ◌⊎◌, length, IsOk, IfOk, IfErr};
ghost use Rattle.grid_net.specs.Limits.{IsBuilt};
ghost use Rattle.node_groups.specs.Groups.{AreGroups};
ghost use Rattle.group_net.specs.Merging.{AreNodes, merged_network, PadsOfGroupsAgree};
ghost use Rattle.group_net.specs.Refusal.{IsRefusal};
ghost use Rattle.group_net.specs.inside.Told.{IsLeft, AsTold};
ghost use Rattle.group_net.specs.declared.merge.GroupError.TheVariants.{Want};

use crate::moved::{loads_of_groups, move_all};
use grid_net::{Net, NetError, Parts};
use node_groups::{Groups, group_nodes};
use std::alloc::{AllocError, Global};

/// The network of the groups of nodes that shorts join, and the groups.
#[derive(Drop)]
pub struct GroupNet {
    /// The network. The number of a node is that of its group.
    pub net: Net,
    /// The group of each node that was, and the first node of each group.
    pub groups: Groups,
}

/// What refuses to merge a network.
#[derive(Clone, Copy, Debug, PartialEq, Eq)]
pub enum GroupError {
    /// Two pads of one group differ: the first node of the group, the voltage of its first pad in the order of nodes,
    /// and the voltage of the first pad, in the order of nodes, that differs from the first of its group.
    PadConflict {
        node: u32,
        first: i128,
        second: i128,
    },
    /// There was not enough memory.
    Want,
}

impl From<AllocError> for GroupError {
    ghost from_gives = { λ _ e. e ≡ Want };

    fn from(_error: AllocError) -> GroupError {
        GroupError::Want
    }
}

/// The network of the groups of nodes that shorts join. Resistors keep their order, pads stand in the order of nodes,
/// and the loads of all nodes of a group are added.
///
/// Each end of a short is a node. It takes hardly more time than there are nodes, resistors and shorts. Where there are
/// no shorts the network is handed on as it stands, and is not built again.
pub fn merge_net(alloc: Global, net: Net, shorts: &[(u32, u32)]) -> Result<GroupNet, GroupError>
    requires { AreNodes net.nodes shorts.now }
    ensures groups { IfOk result (λ merged. AreGroups net.nodes shorts.now merged.groups.group merged.groups.firsts) }
    ensures network { IfOk result (λ merged.
        merged.net ≡ merged_network net merged.groups.group (length merged.groups.firsts)) }
    ensures agree { IsOk result → PadsOfGroupsAgree net shorts.now }
    ensures refused { IfErr result (λ e. IsRefusal net shorts.now e) }
    ensures built { IsBuilt net }
{
    let groups = group_nodes(alloc, net.nodes(), shorts)?;
    if shorts.is_empty() {
        return Ok(GroupNet { net, groups });
    }
    let Parts {
        mut resistors,
        mut pads,
        loads,
    } = net.into_parts();
    let group = groups.group.as_slice();
    let firsts = groups.firsts.as_slice();
    move_all(&mut resistors, &mut pads, group);
    let loads = loads_of_groups(alloc, &loads, group)?;
    match Net::build(alloc, firsts.len() as u32, resistors, pads, loads) {
        Ok(net) => Ok(GroupNet { net, groups }),
        Err(error) => Err(told(error, firsts)),
    }
}

// What a refusal of the merged lists means for the nodes: no limit is newly passed, so that pads differ or memory was
// wanting.
fn told(error: NetError, firsts: &[u32]) -> GroupError
    requires { IsLeft error (length firsts.now) }
    ensures { AsTold error firsts.now result }
{
    match error {
        NetError::PadConflict {
            node,
            first,
            second,
        } => GroupError::PadConflict {
            node: firsts[node as usize],
            first,
            second,
        },
        NetError::Want => GroupError::Want,
        NetError::BadEnd { .. } | NetError::Range { .. } => unreachable!(),
    }
}
