//! The laws of signing off. Each is a function whose body only recalls laws of the crates below.
ghost use Rattle.std.specs.Prelude.{◌≡◌, ◌≢◌, ℕ, List};
ghost use Rattle.answers.specs.declared.answer.Answer.{Answer as Told};
ghost use Rattle.answers.specs.declared.answer.Answer.TheVariants.{Want, Unsupplied};
ghost use Rattle.judging.specs.Texts.{HasNetwork};
ghost use Rattle.short_merge.specs.declared.merged.Merged.{Merged};
ghost use Rattle.spice_grid.specs.declared.named.Named.{Named};
ghost use Rattle.solving.specs.Signed.{EachIsSupplied};
ghost use Rattle.solving.specs.Refusal.{IsUnsigned, IsToUnsigned};

use judging::netlists_are_merged_once;

/// The text of a netlist has one refusal, and one network of its groups; where it has a network, it is refused for a group
/// without supply alone, want of memory aside. It is never answered as words, files or certificates are.
pub fn netlists_are_solved_once()
    ensures refusal { (file text : List ℕ) (a b : Told) → IsUnsigned file text a → IsUnsigned file text b → a ≢ Want
        → b ≢ Want → a ≡ b }
    ensures supply { (file text : List ℕ) (named : Named) (merged : Merged) (answer : Told)
        → HasNetwork text named merged → IsUnsigned file text answer → answer ≢ Want
        → (¬ EachIsSupplied merged.net) × ((node : List ℕ) × (answer ≡ Unsupplied node)) }
    ensures network { (text : List ℕ) (named other : Named) (merged fellow : Merged) → HasNetwork text named merged
        → HasNetwork text other fellow → (named ≡ other) × (merged ≡ fellow) }
    ensures sort { (file text : List ℕ) (answer : Told) → IsUnsigned file text answer → IsToUnsigned answer }
{
    netlists_are_merged_once();
}
