ghost use Rattle.std.specs.Prelude.{◌↔◌, ℕ, AllPairs, Bool, Contains, IsTrue, List};
ghost use Rattle.std.specs.List.Sorted.{IsPermutation};
ghost use Rattle.list_laws.specs.Among.{is_among};

/// The law of the test: a name is among others exactly where it is a member of their list.
pub fn among_is_membership()
    ensures { (names : List (List ℕ)) (name : List ℕ) → IsTrue (is_among names name) ↔ Contains names name }
{}

/// The law of lists put in another order: a test that does not tell two apart and that each two of a list pass, each two
/// of the list still pass.
pub fn pairs_outlast_order<X>()
    ensures { (test : X → X → Bool) → ((x y : X) → IsTrue (test x y) → IsTrue (test y x)) → (xs ys : List X)
        → IsPermutation xs ys → AllPairs (λ x y. IsTrue (test x y)) xs → AllPairs (λ x y. IsTrue (test x y)) ys }
{}
