//! The names of groups.
ghost use Rattle.std.specs.Prelude.{◌≡◌, ◌<◌, [], length, map, slice_index_or, All};
ghost use Rattle.std.specs.List.Sorted.{IsStrictlyIncreasing};

use outside::Name;

/// The names of the first nodes of groups, which rise. No name is copied. Where there are as many groups as nodes, the
/// list is handed on as it stands.
pub(crate) fn names_of_groups(names: Vec<Name>, firsts: &[u32]) -> Vec<Name>
    requires nodes { All (λ first. first < length names.items) firsts.now }
    requires rising { IsStrictlyIncreasing firsts.now }
    ensures { result.items ≡ map (λ node. slice_index_or names.items node []) firsts.now }
{
    if firsts.len() == names.len() {
        return names;
    }
    let mut kept = names;
    for (group, first) in firsts.iter().enumerate() {
        kept.swap(group, *first as usize);
    }
    kept.truncate(firsts.len());
    kept
}

/// The name of a node.
pub(crate) fn into_name(names: Vec<Name>, node: u32) -> Name
    requires { node < length names.items }
    ensures { result ≡ slice_index_or names.items node [] }
{
    let mut left = names;
    left.swap_remove(node as usize)
}
