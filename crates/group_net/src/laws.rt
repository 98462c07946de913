//! What the solutions of a network with shorts mean for the network of its groups. Each law is a function whose body
//! only recalls laws of a network.
ghost use Rattle.std.specs.Prelude.{◌≡◌, ◌<◌, ℕ, ℤ, pos, ◌*ℤ◌, ◌≤ℤ◌, List, [], length, slice_index};
ghost use Rattle.std.specs.List.{range_with_len};
ghost use Rattle.grid_net.specs.Network.{Network};
ghost use Rattle.grid_net.specs.Limits.{IsBuilt};
ghost use Rattle.grid_net.specs.Solution.{IsSolution};
ghost use Rattle.grid_net.specs.Shorted.{IsShortedSolution};
ghost use Rattle.node_groups.specs.Groups.{AreGroups};
ghost use Rattle.group_net.specs.Merging.{AreNodes, merged_network, group_potential, group_drawn, IsConflict, PadsDiffer};

use grid_net::built_network;

/// What a conflict tells are two pads whose nodes are joined and whose voltages differ, and the first node of their group.
pub fn conflicts_differ()
    ensures { (net : Network) (shorts : List (ℕ × ℕ)) (node : ℕ) (first second : ℤ) → IsBuilt net
        → IsConflict net shorts node first second → PadsDiffer net shorts node first second }
{}

/// Without shorts each node is a group by itself, and the network is as it was.
pub fn nothing_shorted()
    ensures group { (nodes : ℕ) (group firsts : List ℕ) → AreGroups nodes [] group firsts → group ≡ range_with_len 0 nodes }
    ensures firsts { (nodes : ℕ) (group firsts : List ℕ) → AreGroups nodes [] group firsts
        → firsts ≡ range_with_len 0 nodes }
    ensures network { (net : Network) (group firsts : List ℕ) → IsBuilt net → AreGroups net.nodes [] group firsts
        → merged_network net group (length firsts) ≡ net }
{}

/// Every solution of a network with shorts is, group by group, a solution of the merged network, over the same
/// denominator: the potential of each group is that of each of its nodes, the current through each resistor stays, and
/// what is drawn out of a group is drawn out of its nodes together.
pub fn solutions_by_groups()
    ensures merged { (net : Network) (shorts : List (ℕ × ℕ)) (group firsts : List ℕ) (q : ℕ) (p c l s : ℕ → ℤ)
        → IsBuilt net → AreNodes net.nodes shorts → AreGroups net.nodes shorts group firsts
        → IsShortedSolution net shorts q p c l s
        → IsSolution (merged_network net group (length firsts)) q (group_potential firsts p) c
        (group_drawn net.nodes group l) }
    ensures at_nodes { (net : Network) (shorts : List (ℕ × ℕ)) (group firsts : List ℕ) (q : ℕ) (p c l s : ℕ → ℤ)
        → AreGroups net.nodes shorts group firsts → IsShortedSolution net shorts q p c l s
        → (i : ℕ) → i < net.nodes → p i ≡ group_potential firsts p (slice_index group i) }
{
    built_network();
}

/// Bounds between which every solution of the merged network lies, group by group, are bounds of every solution of the
/// network with shorts, at each node those of its group.
pub fn bounds_of_groups()
    ensures { (net : Network) (shorts : List (ℕ × ℕ)) (group firsts : List ℕ) (q : ℕ) (low high : ℕ → ℤ)
        → IsBuilt net → AreNodes net.nodes shorts → AreGroups net.nodes shorts group firsts
        → ((p c l : ℕ → ℤ) → IsSolution (merged_network net group (length firsts)) q p c l → (g : ℕ) → g < length firsts
        → ((pos q *ℤ low g) ≤ℤ p g) × (p g ≤ℤ (pos q *ℤ high g)))
        → (p c l s : ℕ → ℤ) → IsShortedSolution net shorts q p c l s → (i : ℕ) → i < net.nodes
        → ((pos q *ℤ low (slice_index group i)) ≤ℤ p i) × (p i ≤ℤ (pos q *ℤ high (slice_index group i))) }
{
    solutions_by_groups();
}
