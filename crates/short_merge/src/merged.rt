//! The merged network of a netlist.
ghost use Rattle.std.specs.Prelude.{◌≡◌, [], IsOk, IfOk, IfErr};
ghost use Rattle.grid_net.specs.Limits.{IsBuilt};
ghost use Rattle.group_net.specs.Merging.{PadsOfGroupsAgree};
ghost use Rattle.spice_grid.specs.Caps.{EndAmong, HaveCapacitance};
ghost use Rattle.short_merge.specs.Netlist.{IsNetlist};
ghost use Rattle.short_merge.specs.Merged.{IsMerged};
ghost use Rattle.short_merge.specs.Refusal.{IsMergeRefusal};
ghost use Rattle.short_merge.specs.declared.merged.MergeError.TheVariants.{Want};

use crate::caps::caps_of_groups;
use crate::names::{into_name, names_of_groups};
use entry_list::Entries;
use grid_net::Net;
use group_net::{GroupError, GroupNet, merge_net, nothing_shorted};
use node_groups::Groups;
use outside::Name;
use spice_grid::{Cap, Named};
use std::alloc::{AllocError, Global};

/// The network of a netlist's groups of nodes that shorts join.
#[derive(Drop)]
pub struct Merged {
    /// The network. The number of a node is that of its group.
    pub net: Net,
    /// The name of each group: that of its first node.
    pub names: Entries<Name>,
    /// For each node of the netlist the number of its group.
    pub group: Entries<u32>,
    /// The capacitors in the order of the netlist, which are no part of the network. The number of a node is that of its group.
    pub caps: Entries<Cap>,
}

/// What refuses to merge a netlist.
#[derive(Debug, Drop)]
pub enum MergeError {
    /// Two pads of one group differ: the name of the group, the voltage of its first pad in the order of nodes, and the
    /// voltage of the first pad, in the order of nodes, that differs from the first pad of its group. In yoctovolts.
    PadConflict {
        name: Name,
        first: i128,
        second: i128,
    },
    /// There was not enough memory.
    Want,
}

impl From<AllocError> for MergeError {
    ghost from_gives = { λ _ e. e ≡ Want };

    fn from(_error: AllocError) -> MergeError {
        MergeError::Want
    }
}

/// The merged network of a netlist: exactly the nodes that a chain of shorts joins are one node of it.
///
/// A group bears the name of its first node, and the groups stand in the order of their first nodes. Resistors keep their
/// order, and one whose ends are of one group joins that group to itself. The loads of a group's nodes are added, low ends
/// and high ends. Capacitors keep their order, and their ends are given by groups. A netlist without shorts comes back as it was.
///
/// Each node has one name, and the ends of each short and capacitor are nodes, or ground or nowhere those of capacitors. It takes hardly more time than there are nodes,
/// resistors and shorts. Errors: two pads of one group that differ; want of memory.
pub fn merge(alloc: Global, named: Named) -> Result<Merged, MergeError>
    requires { IsNetlist named }
    ensures merged { IfOk result (λ merged. IsMerged named merged) }
    ensures agree { IsOk result → PadsOfGroupsAgree named.net named.shorts }
    ensures refused { IfErr result (λ e. IsMergeRefusal named e) }
    ensures unshorted { named.shorts ≡ []
        → IfOk result (λ merged. (merged.net ≡ named.net) × (merged.names ≡ named.names)
        × (merged.caps ≡ named.caps)) }
    ensures built { IsBuilt named.net }
    ensures ends { IfOk result (λ merged. EndAmong merged.net.nodes merged.caps) }
    ensures capacitances { HaveCapacitance named.caps → IfOk result (λ merged. HaveCapacitance merged.caps) }
{
    nothing_shorted();
    let Named {
        net,
        names,
        shorts,
        caps,
    } = named;
    match merge_net(alloc, net, shorts.as_slice()) {
        Ok(GroupNet { net, groups }) => {
            let Groups { group, firsts } = groups;
            let names = names_of_groups(names.into_items(), firsts.as_slice());
            let caps = caps_of_groups(caps, group.as_slice());
            Ok(Merged {
                net,
                names: Entries::new(names),
                group,
                caps,
            })
        }
        Err(
            GroupError::PadConflict {
                node,
                first,
                second,
            },
        ) => Err(MergeError::PadConflict {
            name: into_name(names.into_items(), node),
            first,
            second,
        }),
        Err(GroupError::Want) => Err(MergeError::Want),
    }
}
