//! Steps from each node to a node of its group that stands no later. The steps are shortened on the way, so that many
//! shorts take hardly more time than there are of them.
ghost use Rattle.std.specs.Prelude.{◌≡◌, ◌<◌, ℕ, List, length, slice_index, All};
ghost use Rattle.node_groups.specs.Joined.{AreJoined};
ghost use Rattle.node_groups.specs.inside.Forest.{LeadsBack, LeadsTo, Follows, KeepsJoined, IsMadeOf, KeepsFirsts, IsByShorts, Joins};

// The node to which the steps from a node lead and that leads to itself. On the way each second node is led to the
// node after the next.
fn first_of(parents: &mut [u32], node: u32) -> u32
    requires node { node < length parents.old }
    requires back { LeadsBack parents.old }
    ensures leads_to_itself { slice_index parents.new result ≡ result }
    ensures is_node { result < length parents.new }
    ensures back { LeadsBack parents.new }
    ensures joined { (label : ℕ → ℕ) → Follows label parents.new → label node ≡ label result }
    ensures kept { KeepsJoined parents.old parents.new }
    ensures reached { LeadsTo parents.old node result }
    ensures made_of { IsMadeOf parents.new parents.old }
    ensures firsts { KeepsFirsts parents.old parents.new }
{
    let mut at = node;
    'up: while parents[at as usize] != at {
        let next = parents[at as usize];
        let after = parents[next as usize];
        parents[at as usize] = after;
        at = after;
    }
    at
}

// Joins the groups of the two ends of a short: the later of their first nodes leads to the earlier one from now on.
fn join(parents: &mut [u32], one: u32, other: u32)
    requires one { one < length parents.old }
    requires other { other < length parents.old }
    requires back { LeadsBack parents.old }
    ensures back { LeadsBack parents.new }
    ensures joined { (label : ℕ → ℕ) → Follows label parents.new → label one ≡ label other }
    ensures kept { KeepsJoined parents.old parents.new }
    ensures by_shorts { (shorts : List (ℕ × ℕ)) → AreJoined shorts one other → IsByShorts shorts parents.old
        → IsByShorts shorts parents.new }
{
    let first = first_of(parents, one);
    let second = first_of(parents, other);
    if first < second {
        parents[second as usize] = first;
    } else {
        parents[first as usize] = second;
    }
}

/// Joins the groups of the ends of each short, from nodes that lead nowhere.
pub(crate) fn join_all(parents: &mut [u32], shorts: &[(u32, u32)])
    requires nodes { All (λ s. (s.0 < length parents.old) × (s.1 < length parents.old)) shorts.now }
    requires back { LeadsBack parents.old }
    requires by_shorts { IsByShorts shorts.now parents.old }
    ensures back { LeadsBack parents.new }
    ensures by_shorts { IsByShorts shorts.now parents.new }
    ensures joins { Joins shorts.now parents.new }
{
    for (one, other) in shorts {
        join(parents, *one, *other);
    }
}
