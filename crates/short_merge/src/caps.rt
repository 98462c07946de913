//! The capacitors of a merged network.
ghost use Rattle.std.specs.Prelude.{◌≡◌, length, map};
ghost use Rattle.spice_grid.specs.Caps.{IsAmong, EndAmong};
ghost use Rattle.short_merge.specs.Merged.{merged_end, merged_cap};

use entry_list::Entries;
use spice_grid::{Cap, End};

// The end of a capacitor, where a node is given by its group.
fn group_end(end: End, group: &[u32]) -> End
    requires { IsAmong (length group.now) end }
    ensures { result ≡ merged_end group.now end }
{
    match end {
        End::Node(node) => End::Node(group[node as usize]),
        End::Ground => End::Ground,
        End::Nowhere => End::Nowhere,
    }
}

// Gives the ends of capacitors by the groups of their nodes.
fn group_caps(caps: &mut [Cap], group: &[u32])
    requires { EndAmong (length group.now) caps.old }
    ensures { caps.new ≡ map (merged_cap group.now) caps.old }
{
    for cap in caps.iter_mut() {
        cap.a = group_end(cap.a, group);
        cap.b = group_end(cap.b, group);
    }
}

/// The capacitors with their ends by groups. The list is changed where it stands.
pub(crate) fn caps_of_groups(caps: Entries<Cap>, group: &[u32]) -> Entries<Cap>
    requires { EndAmong (length group.now) caps }
    ensures { result ≡ map (merged_cap group.now) caps }
{
    let mut items = caps.into_items();
    group_caps(&mut items, group);
    Entries::new(items)
}
