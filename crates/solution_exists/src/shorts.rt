//! The laws of existence and uniqueness of a network with shorts. Each is a function whose body only recalls laws of a built
//! network and of its groups.
ghost use Rattle.std.specs.Prelude.{◌≡◌, ◌<◌, ℕ, ℤ, List, length, slice_index_or};
ghost use Rattle.grid_net.specs.Network.{Network};
ghost use Rattle.grid_net.specs.Limits.{IsBuilt};
ghost use Rattle.grid_net.specs.Shorted.{IsShortedSolution};
ghost use Rattle.node_groups.specs.Groups.{AreGroups};
ghost use Rattle.group_net.specs.Merging.{AreNodes, PadsOfGroupsAgree, merged_network};
ghost use Rattle.solution_exists.specs.Existence.{EachIsSupplied, AreDrawn, DrawAlike, AreSame};
ghost use Rattle.solution_exists.specs.Shorted.{HasShortedSolution, with_loop};

use grid_net::built_network;
use group_net::solutions_by_groups;

/// For every built network with shorts of which no two pads of one group differ and each group is joined to a pad by resistors, and
/// whatever fixed currents are drawn within the ranges of its loads, there is a denominator above 0, and there are voltages and
/// currents over it, through resistors and through shorts, that meet Ohm's and Kirchhoff's laws.
pub fn a_shorted_solution_exists()
    ensures { (net : Network) (shorts : List (ℕ × ℕ)) (group firsts : List ℕ) (d : ℕ) (drawn : ℕ → ℤ) → IsBuilt net
        → AreNodes net.nodes shorts → AreGroups net.nodes shorts group firsts → PadsOfGroupsAgree net shorts
        → EachIsSupplied (merged_network net group (length firsts)) → AreDrawn net d drawn
        → HasShortedSolution net shorts d drawn }
{
    built_network();
}

/// Two solutions in which the same is drawn have the same voltage at each node and the same current through each resistor, as
/// fractions. Of the currents through shorts nothing is said: they are not the only ones.
pub fn a_shorted_solution_is_unique()
    ensures voltages { (net : Network) (shorts : List (ℕ × ℕ)) (group firsts : List ℕ) (q r : ℕ)
        (p c l s p' c' l' s' : ℕ → ℤ) → IsBuilt net → AreNodes net.nodes shorts → AreGroups net.nodes shorts group firsts
        → EachIsSupplied (merged_network net group (length firsts)) → IsShortedSolution net shorts q p c l s
        → IsShortedSolution net shorts r p' c' l' s' → DrawAlike net q l r l' → AreSame net.nodes q p r p' }
    ensures currents { (net : Network) (shorts : List (ℕ × ℕ)) (group firsts : List ℕ) (q r : ℕ)
        (p c l s p' c' l' s' : ℕ → ℤ) → IsBuilt net → AreNodes net.nodes shorts → AreGroups net.nodes shorts group firsts
        → EachIsSupplied (merged_network net group (length firsts)) → IsShortedSolution net shorts q p c l s
        → IsShortedSolution net shorts r p' c' l' s' → DrawAlike net q l r l' → AreSame (length net.resistors) q c r c' }
{
    built_network();
    solutions_by_groups();
}

/// The currents of shorts are free: where two shorts have the same ends, a current of any size may go round them besides.
pub fn short_currents_are_free()
    ensures { (net : Network) (shorts : List (ℕ × ℕ)) (q : ℕ) (p c l s : ℕ → ℤ) (there back : ℕ) (x : ℤ) (d : ℕ × ℕ)
        → there < length shorts → back < length shorts → slice_index_or shorts there d ≡ slice_index_or shorts back d
        → IsShortedSolution net shorts q p c l s → IsShortedSolution net shorts q p c l (with_loop there back x s) }
{}
