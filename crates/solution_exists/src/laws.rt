//! The laws of existence and uniqueness, over plain lists and whole numbers without a bound. Each is a function without a
//! body.
ghost use Rattle.std.specs.Prelude.{◌≡◌, ◌<◌, ℕ, ℤ, pos, ◌*ℤ◌, List, All, length};
ghost use Rattle.grid_net.specs.Network.{Network, IsNetwork, low_load};
ghost use Rattle.grid_net.specs.Building.{PadsAgree};
ghost use Rattle.grid_net.specs.Solution.{IsSolution};
ghost use Rattle.solution_exists.specs.Existence.{EachIsSupplied, AreDrawn, HasSolution, DrawAlike, AreSame};
ghost use Rattle.solution_exists.specs.Branches.{Branch, AreBranches, Balances, HasBranchedSolution, HoldAlike};

/// For every network of which each node is joined to a pad by resistors, and whatever fixed currents are drawn within the
/// ranges of its loads, there is a denominator above 0, and there are voltages and currents over it, that meet Ohm's and
/// Kirchhoff's laws; as where the low ends of all loads are drawn.
pub fn a_solution_exists()
    ensures fixed { (net : Network) (d : ℕ) (drawn : ℕ → ℤ) → IsNetwork net → EachIsSupplied net → AreDrawn net d drawn
        → HasSolution net d drawn }
    ensures low_ends { (net : Network) → IsNetwork net → EachIsSupplied net → HasSolution net 1 (low_load net) }
{}

/// And there is only one: two solutions in which the same is drawn have the same voltage at each node and the same current
/// through each resistor, as fractions, whatever their denominators.
pub fn a_solution_is_unique()
    ensures voltages { (net : Network) (q r : ℕ) (p c l p' c' l' : ℕ → ℤ) → IsNetwork net → EachIsSupplied net
        → IsSolution net q p c l → IsSolution net r p' c' l' → DrawAlike net q l r l' → AreSame net.nodes q p r p' }
    ensures currents { (net : Network) (q r : ℕ) (p c l p' c' l' : ℕ → ℤ) → IsNetwork net → EachIsSupplied net
        → IsSolution net q p c l → IsSolution net r p' c' l' → DrawAlike net q l r l'
        → AreSame (length net.resistors) q c r c' }
{}

/// Where no two pads of one node differ, each pad's node has that pad's voltage in every solution: the first pad of a node, of
/// which the laws speak, stands for them all.
pub fn each_pad_holds()
    ensures { (net : Network) (q : ℕ) (p c l : ℕ → ℤ) → PadsAgree net.pads → All (λ pad. pad.node < net.nodes) net.pads
        → IsSolution net q p c l → All (λ pad. p pad.node ≡ pos q *ℤ pad.volts) net.pads }
{}

/// The same of a network some of whose nodes are joined by resistances to held voltages: whatever is held and drawn, there
/// are voltages and currents that meet the laws.
pub fn a_branched_solution_exists()
    ensures { (net : Network) (branches : List Branch) (d : ℕ) (held drawn : ℕ → ℤ) → IsNetwork net → EachIsSupplied net
        → AreBranches net.nodes branches → HasBranchedSolution net branches d held drawn }
{}

/// And there are no others: where the same is held and drawn, the voltages, the currents through resistors and those into
/// branches are the same fractions.
pub fn a_branched_solution_is_unique()
    ensures voltages { (net : Network) (branches : List Branch) (q r : ℕ) (h l p c k h' l' p' c' k' : ℕ → ℤ)
        → IsNetwork net → EachIsSupplied net → AreBranches net.nodes branches → Balances net branches (pos q) h l p c k
        → Balances net branches (pos r) h' l' p' c' k' → HoldAlike branches q h r h' → DrawAlike net q l r l'
        → AreSame net.nodes q p r p' }
    ensures currents { (net : Network) (branches : List Branch) (q r : ℕ) (h l p c k h' l' p' c' k' : ℕ → ℤ)
        → IsNetwork net → EachIsSupplied net → AreBranches net.nodes branches → Balances net branches (pos q) h l p c k
        → Balances net branches (pos r) h' l' p' c' k' → HoldAlike branches q h r h' → DrawAlike net q l r l'
        → AreSame (length net.resistors) q c r c' }
    ensures branch_currents { (net : Network) (branches : List Branch) (q r : ℕ) (h l p c k h' l' p' c' k' : ℕ → ℤ)
        → IsNetwork net → EachIsSupplied net → AreBranches net.nodes branches → Balances net branches (pos q) h l p c k
        → Balances net branches (pos r) h' l' p' c' k' → HoldAlike branches q h r h' → DrawAlike net q l r l'
        → AreSame (length branches) q k r k' }
{}

/// Multiples of what meets the equations meet them, over the multiple of the denominator.
pub fn solutions_scale()
    ensures { (net : Network) (branches : List Branch) (n q : ℤ) (held drawn p c k : ℕ → ℤ)
        → Balances net branches q held drawn p c k → Balances net branches (n *ℤ q) (λ i. n *ℤ held i)
        (λ i. n *ℤ drawn i) (λ i. n *ℤ p i) (λ j. n *ℤ c j) (λ j. n *ℤ k j) }
{}
