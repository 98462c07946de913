//! What the report says of every solution of Ohm's and Kirchhoff's laws.
ghost use Rattle.std.specs.Prelude.{◌≡◌, ◌<◌, ℕ, ℤ, Some, length};
ghost use Rattle.grid_net.specs.Solution.{IsSolution};
ghost use Rattle.bound_check.specs.Certified.{nanovolt, nanoampere, LiesWithin};
ghost use Rattle.em_rules.specs.declared.words.Verdict.TheVariants.{Safe, Unsafe};
ghost use Rattle.em_rules.specs.Verdict.{KeepsLimit};
ghost use Rattle.signoff_report.specs.Limits.{AreLimitsOf, net_at, branch_at, resistor_at};
ghost use Rattle.signoff_report.specs.Shown.{shown_voltage, shown_current};
ghost use Rattle.signoff_report.specs.Judged.{branch_verdict, net_verdict};
ghost use Rattle.signoff_report.specs.Solved.{EachNodeKeeps, SomeNodePasses};

use crate::records::Limits;
use bound_check::Certified;
use em_rules::ends_tell;

/// What the report of a certified network says holds in every solution, over any denominator and for every load within
/// its range: each voltage and each current lies within its printed interval; a branch that is printed SAFE keeps its
/// limit, and one that is printed UNSAFE passes it; each node of a net that is printed SAFE keeps the limit of drops, and
/// some node of one that is printed UNSAFE passes it.
pub fn verdicts_hold(certified: &Certified, limits: &Limits)
    requires { AreLimitsOf certified.now.net limits.now }
    ensures voltages { (q : ℕ) (p c drawn : ℕ → ℤ) → IsSolution certified.now.net q p c drawn → (node : ℕ)
        → node < certified.now.net.nodes → LiesWithin nanovolt q (p node) (shown_voltage certified.now node) }
    ensures currents { (q : ℕ) (p c drawn : ℕ → ℤ) → IsSolution certified.now.net q p c drawn → (k : ℕ)
        → k < length certified.now.net.resistors
        → LiesWithin nanoampere q (c k) (shown_current certified.now (resistor_at certified.now.net k)) }
    ensures safe_branches { (k limit : ℕ) → k < length certified.now.net.resistors
        → (branch_at certified.now limits.now k).1 ≡ Some limit
        → branch_verdict certified.now (branch_at certified.now limits.now k) ≡ Safe
        → (q : ℕ) (p c drawn : ℕ → ℤ) → IsSolution certified.now.net q p c drawn → KeepsLimit limit q (c k) }
    ensures unsafe_branches { (k limit : ℕ) → k < length certified.now.net.resistors
        → (branch_at certified.now limits.now k).1 ≡ Some limit
        → branch_verdict certified.now (branch_at certified.now limits.now k) ≡ Unsafe
        → (q : ℕ) (p c drawn : ℕ → ℤ) → IsSolution certified.now.net q p c drawn → ¬ KeepsLimit limit q (c k) }
    ensures safe_nets { (k : ℕ) (drop : ℤ) → k < length limits.now.nets → (net_at limits.now k).drop ≡ Some drop
        → net_verdict certified.now limits.now k (net_at limits.now k) ≡ Safe
        → (q : ℕ) (p c drawn : ℕ → ℤ) → IsSolution certified.now.net q p c drawn
        → EachNodeKeeps certified.now.net limits.now k (net_at limits.now k).supply drop q p }
    ensures unsafe_nets { (k : ℕ) (drop : ℤ) → k < length limits.now.nets → (net_at limits.now k).drop ≡ Some drop
        → net_verdict certified.now limits.now k (net_at limits.now k) ≡ Unsafe
        → (q : ℕ) (p c drawn : ℕ → ℤ) → IsSolution certified.now.net q p c drawn
        → SomeNodePasses certified.now.net limits.now k (net_at limits.now k).supply drop q p }
{
    let _nodes = certified.net().nodes();
    let _high = certified.high();
    let _low = certified.low();
    ends_tell();
}
