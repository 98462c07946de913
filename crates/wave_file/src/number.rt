//! The numbers of a wave file.
ghost use Rattle.std.specs.Prelude.{◌≡◌, ◌≤◌, ◌^◌, ℕ, IfSome, IfNone};
ghost use Rattle.wave_file.specs.Number.{steps, amperes, IsStep};

use number_place::{NumberForm, NumberPlace, NumberSign, number_at};

/// The greatest number of a step, and the most steps that there may be.
pub const MOST_STEPS: u32 = 1000;

/// The greatest magnitude of a current, in fA: 1000 A.
pub const AMPERES_LIMIT: u128 = 1_000_000_000_000_000_000;

/// The number of a step, in digits alone.
pub(crate) const STEPS: NumberPlace = NumberPlace {
    form: NumberForm::Integer,
    places: 0,
    limit: MOST_STEPS as u128,
    sign: NumberSign::Positive,
};

/// Amperes in fA, with a scale or none, as a netlist has them.
pub(crate) const AMPERES: NumberPlace = NumberPlace {
    form: NumberForm::Scaled,
    places: 15,
    limit: AMPERES_LIMIT,
    sign: NumberSign::Any,
};

/// The step that the word stands for. None where it stands for none.
pub(crate) fn step_at(text: &[u8]) -> Option<u32>
    ensures some { IfSome result (λ k. IsStep text.now k) }
    ensures none { IfNone result ((k : ℕ) → ¬ IsStep text.now k) }
{
    match number_at(STEPS, text) {
        Ok(step) => Some(step as u32),
        Err(_) => None,
    }
}
