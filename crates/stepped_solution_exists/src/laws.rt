//! The laws of a solution over time steps. Each is a function whose body only recalls laws of one network.
ghost use Rattle.std.specs.Prelude.{◌<◌, ◌≤◌, ℕ, ℤ, List, length};
ghost use Rattle.grid_net.specs.Network.{Network, IsNetwork};
ghost use Rattle.capacitors.specs.declared.Cap.{Cap};
ghost use Rattle.wave_file.specs.declared.record.Change.{Change};
ghost use Rattle.step_bounds.specs.Capacitors.{companions as companions_of_caps};
ghost use Rattle.step_bounds.specs.Changes.{AreChanges};
ghost use Rattle.step_bounds.specs.SteppedSolution.{IsSteppedSolution};
ghost use Rattle.solution_exists.specs.Existence.{EachIsSupplied, AreSame};
ghost use Rattle.stepped_solution_exists.specs.Existence.{AreDrawnOver, HasSteppedSolution, DrawAlikeOver, low_ends_over};

use solution_exists::{
    a_branched_solution_exists, a_branched_solution_is_unique, a_solution_exists,
    a_solution_is_unique, solutions_scale,
};

/// There is a solution of Ohm's and Kirchhoff's laws and of the backward Euler rule over whole time steps, for any network of which
/// each node is joined to a pad by resistors, with whatever capacitors, and whatever fixed currents are drawn within the loads'
/// ranges of each step, as the low ends of all.
pub fn a_stepped_solution_exists()
    ensures fixed { (net : Network) (caps : List Cap) (changes : List Change) (time last d : ℕ) (drawn : ℕ → ℕ → ℤ)
        → IsNetwork net → EachIsSupplied net → AreDrawnOver net changes last d drawn
        → HasSteppedSolution net (companions_of_caps net caps time) changes last d drawn }
    ensures low_ends { (net : Network) (caps : List Cap) (changes : List Change) (time last : ℕ) → IsNetwork net
        → EachIsSupplied net → AreChanges net changes
        → HasSteppedSolution net (companions_of_caps net caps time) changes last 1 (low_ends_over net changes) }
{
    a_solution_exists();
    a_branched_solution_exists();
    solutions_scale();
}

/// And there is only one: two solutions in which the same is drawn at each step have the same voltage at each node and step, the
/// same current through each resistor, and the same current into each capacitor that counts.
pub fn a_stepped_solution_is_unique()
    ensures voltages { (net : Network) (caps : List Cap) (changes : List Change) (time last q r : ℕ)
        (p c k l p' c' k' l' : ℕ → ℕ → ℤ) → IsNetwork net → EachIsSupplied net
        → IsSteppedSolution net (companions_of_caps net caps time) changes last q p c k l
        → IsSteppedSolution net (companions_of_caps net caps time) changes last r p' c' k' l'
        → DrawAlikeOver net last q l r l' → (t : ℕ) → t ≤ last → AreSame net.nodes q (p t) r (p' t) }
    ensures currents { (net : Network) (caps : List Cap) (changes : List Change) (time last q r : ℕ)
        (p c k l p' c' k' l' : ℕ → ℕ → ℤ) → IsNetwork net → EachIsSupplied net
        → IsSteppedSolution net (companions_of_caps net caps time) changes last q p c k l
        → IsSteppedSolution net (companions_of_caps net caps time) changes last r p' c' k' l'
        → DrawAlikeOver net last q l r l' → (t : ℕ) → t ≤ last → AreSame (length net.resistors) q (c t) r (c' t) }
    ensures charges { (net : Network) (caps : List Cap) (changes : List Change) (time last q r : ℕ)
        (p c k l p' c' k' l' : ℕ → ℕ → ℤ) → IsNetwork net → EachIsSupplied net
        → IsSteppedSolution net (companions_of_caps net caps time) changes last q p c k l
        → IsSteppedSolution net (companions_of_caps net caps time) changes last r p' c' k' l'
        → DrawAlikeOver net last q l r l' → (t : ℕ) → 0 < t → t ≤ last
        → AreSame (length (companions_of_caps net caps time)) q (k t) r (k' t) }
{
    a_solution_is_unique();
    a_branched_solution_is_unique();
}
