//! The laws of a certificate, over plain lists and whole numbers without a bound. Each is a function without a body.
ghost use Rattle.std.specs.Prelude.{◌≡◌, ◌<◌, ◌+◌, ◌^◌, ◌*ℤ◌, ◌≤ℤ◌, ℕ, ℤ, pos, neg_ℤ, negsuc, length, take, slice_index_or, List, [], ◌∷◌, Option, Some, None};
ghost use Rattle.grid_net.specs.declared.part.Resistor.{Resistor};
ghost use Rattle.grid_net.specs.Search.{first_below, first_of};
ghost use Rattle.grid_net.specs.Network.{Network, IsNetwork, entry_of};
ghost use Rattle.grid_net.specs.Solution.{IsSolution};
ghost use Rattle.grid_net.specs.Certificate.{HighHolds, LowHolds, IsCertificate};
ghost use Rattle.bound_check.specs.declared.fails.Fails.{Fails};
ghost use Rattle.bound_check.specs.declared.fails.Side.TheVariants.{HighValue, LowValue, HighFlow, LowFlow, High, Low};
ghost use Rattle.bound_check.specs.Failing.{first_failing, IsFailing};
ghost use Rattle.bound_check.specs.OneSided.{MeetsLaws, PadsAtMost, PadsAtLeast};
ghost use Rattle.bound_check.specs.Example.{example, example_potential, example_current, example_drawn, example_high, example_low, example_less, example_thin};

/// The maximum principle: each solution lies within the lists of a certificate, at each node, whatever its denominator.
/// Of the test only the sums are needed, and a solution need not exist.
pub fn maximum_principle()
    ensures at_least_low { (net : Network) (low : ℕ → ℤ) (q : ℕ) (p c drawn : ℕ → ℤ) → IsNetwork net
        → LowHolds net low → IsSolution net q p c drawn → (i : ℕ) → i < net.nodes → (pos q *ℤ low i) ≤ℤ p i }
    ensures at_most_high { (net : Network) (high : ℕ → ℤ) (q : ℕ) (p c drawn : ℕ → ℤ) → IsNetwork net
        → HighHolds net high → IsSolution net q p c drawn → (i : ℕ) → i < net.nodes → p i ≤ℤ (pos q *ℤ high i) }
{}

/// The maximum principle on one side: where the laws are met and no pad is above its voltage, no node is above a list that
/// meets the high half of the sums; and where no pad is below its voltage, none is below one that meets the low half.
pub fn one_sided_principle()
    ensures at_least_low { (net : Network) (low : ℕ → ℤ) (q : ℕ) (p c drawn : ℕ → ℤ) → IsNetwork net
        → LowHolds net low → MeetsLaws net q p c drawn → PadsAtLeast net q p → (i : ℕ) → i < net.nodes
        → (pos q *ℤ low i) ≤ℤ p i }
    ensures at_most_high { (net : Network) (high : ℕ → ℤ) (q : ℕ) (p c drawn : ℕ → ℤ) → IsNetwork net
        → HighHolds net high → MeetsLaws net q p c drawn → PadsAtMost net q p → (i : ℕ) → i < net.nodes
        → p i ≤ℤ (pos q *ℤ high i) }
{}

/// There is no failing test exactly where the certificate holds.
pub fn no_failing_test()
    ensures holds { (net : Network) (high low : List ℤ) → first_failing net high low ≡ None
        → IsCertificate net high low }
    ensures none { (net : Network) (high low : List ℤ) → IsCertificate net high low
        → first_failing net high low ≡ None }
{}

/// What a refusal names fails indeed: the test on that side, at that node, with that number.
pub fn a_refusal_is_true()
    ensures { (net : Network) (high low : List ℤ) (f : Fails) → first_failing net high low ≡ Some f
        → IsFailing net (entry_of high) (entry_of low) f.node f.side f.found }
{}

/// A search that goes up and stops at the first answer gives the first answer, over numbers and over the entries of a
/// list.
pub fn a_search_goes_up()
    ensures over_numbers { (n i : ℕ) (test : ℕ → Option Fails) (f : Fails) → i < n → first_below i test ≡ None
        → test i ≡ Some f → first_below n test ≡ Some f }
    ensures over_entries { (test : Resistor → Option Fails) (rs : List Resistor) (k : ℕ) (d : Resistor) (f : Fails)
        → k < length rs → first_of test (take k rs) ≡ None → test (slice_index_or rs k d) ≡ Some f
        → first_of test rs ≡ Some f }
    ensures one_more_entry { (test : Resistor → Option Fails) (rs : List Resistor) (k : ℕ) (d : Resistor)
        → k < length rs → first_of test (take k rs) ≡ None → test (slice_index_or rs k d) ≡ None
        → first_of test (take (k + 1) rs) ≡ None }
{}

/// The definitions are met: the worked network has a solution, over the denominator 1, and two lists that pass, with
/// the least strict values at its node without a pad.
pub fn worked_example()
    ensures network { IsNetwork example }
    ensures solution { IsSolution example 1 example_potential example_current example_drawn }
    ensures certificate { IsCertificate example example_high example_low }
{}

/// Which test is named on the worked network: a sum of 0, a pad that is above its entry, and a smaller load; and of
/// several failing tests the first: values before flows before sums, nodes in order, high before low.
pub fn worked_refusals()
    ensures zero_sum { first_failing example (pos 999000000000000000000000 ∷ pos 1000000000000000000000000
        ∷ []) example_low ≡ Some (record { node = 0; side = High; found = pos 0 }) }
    ensures pad_below { first_failing example (pos 999000000000001000000000 ∷ pos 999999999999999999999999
        ∷ []) example_low ≡ Some (record { node = 1; side = High; found = negsuc 0 }) }
    ensures smaller_load { first_failing example_less example_high example_low
        ≡ Some (record { node = 0; side = High; found = pos 0 }) }
    ensures high_value { first_failing example_thin (pos (10 ^ 37 + 1) ∷ pos 0 ∷ [])
        (neg_ℤ (pos (10 ^ 37 + 1)) ∷ pos 0 ∷ []) ≡ Some
        (record { node = 0; side = HighValue; found = pos (10 ^ 37 + 1) }) }
    ensures low_value { first_failing example_thin (pos 0 ∷ pos (10 ^ 37 + 1) ∷ [])
        (neg_ℤ (pos (10 ^ 37 + 1)) ∷ pos 0 ∷ []) ≡ Some
        (record { node = 0; side = LowValue; found = neg_ℤ (pos (10 ^ 37 + 1)) }) }
    ensures high_flow { first_failing example_thin (pos (10 ^ 31 + 1) ∷ pos 0 ∷ []) (pos (10 ^ 31 + 1) ∷ pos 0 ∷ [])
        ≡ Some (record { node = 1; side = HighFlow; found = neg_ℤ (pos (10 ^ 31 + 1)) }) }
    ensures low_flow { first_failing example_thin (pos 0 ∷ pos 0 ∷ []) (pos (10 ^ 31 + 1) ∷ pos 0 ∷ [])
        ≡ Some (record { node = 1; side = LowFlow; found = neg_ℤ (pos (10 ^ 31 + 1)) }) }
    ensures low_sum { first_failing example example_high
        (pos 1000000000000000000000000 ∷ pos 1000000000000000000000000 ∷ [])
        ≡ Some (record { node = 0; side = Low; found = pos 1000000000000 }) }
    ensures low_pad { first_failing example example_high
        (pos 998999999999999000000000 ∷ pos 1000000000000000000000001 ∷ [])
        ≡ Some (record { node = 1; side = Low; found = pos 1 }) }
{}
