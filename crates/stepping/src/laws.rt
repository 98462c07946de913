//! The laws of stepping. Each is a function whose body only recalls laws of the crates below.
ghost use Rattle.std.specs.Prelude.{◌≡◌, ◌≢◌, ◌⊎◌, ℕ, List};
ghost use Rattle.answers.specs.declared.answer.Answer.{Answer as Told};
ghost use Rattle.answers.specs.declared.answer.Answer.TheVariants.{Want};
ghost use Rattle.short_merge.specs.declared.merged.Merged.{Merged};
ghost use Rattle.spice_grid.specs.declared.named.Named.{Named};
ghost use Rattle.wave_file.specs.declared.record.Waves.{Waves};
ghost use Rattle.stepping.specs.Inputs.{TwoTexts, GiveWaves, CanBeStepped};
ghost use Rattle.stepping.specs.Refusal.{NamesLimit, PassesLimit, IsUnstepped, IsToUnstepped};

use judging::netlists_are_merged_once;

/// Two texts are refused in one way, want of memory aside, unless a limit is passed at some step: which step and which number
/// that is may be told of different lists, each a certificate of the steps before. Texts that can be stepped are refused for
/// such a limit alone.
pub fn netlists_are_stepped_alike()
    ensures refusal { (netlist waves : List ℕ) (texts : TwoTexts) (time steps : ℕ) (a b : Told)
        → IsUnstepped netlist waves texts time steps a → IsUnstepped netlist waves texts time steps b
        → a ≢ Want → b ≢ Want → (a ≡ b) ⊎ (PassesLimit texts time steps a × PassesLimit texts time steps b) }
    ensures limit { (netlist waves : List ℕ) (texts : TwoTexts) (time steps : ℕ) (named : Named) (merged : Merged)
        (changes : Waves) (answer : Told) → GiveWaves texts named merged changes → CanBeStepped merged steps
        → IsUnstepped netlist waves texts time steps answer → answer ≢ Want
        → NamesLimit merged changes time steps answer }
    ensures sort { (netlist waves : List ℕ) (texts : TwoTexts) (time steps : ℕ) (answer : Told)
        → IsUnstepped netlist waves texts time steps answer → IsToUnstepped answer }
{
    netlists_are_merged_once();
}
