//! Numbers among the words.
ghost use Rattle.std.specs.Prelude.{◌≡◌, ◌<◌, ◌≤◌, ◌^◌, ℕ, IfNone, IfSome};
ghost use Rattle.std.specs.List.{list_all};
ghost use Rattle.std.specs.Char.{is_ascii_digit};
ghost use Rattle.command_words.specs.Words.{IsNumber, IsTime, seconds};

use number_place::{NumberForm, NumberPlace, NumberSign, number_at, values_fit_their_places};

/// Seconds in units of 10^-18 s, with a scale or none, above 0 and at most 1 s.
const SECONDS: NumberPlace = NumberPlace {
    form: NumberForm::Scaled,
    places: 18,
    limit: 1_000_000_000_000_000_000,
    sign: NumberSign::Positive,
};

/// Whether each byte is a digit.
fn are_digits(text: &[u8]) -> bool
    ensures { result ≡ list_all is_ascii_digit text.now }
{
    text.iter().all(|byte| byte.is_ascii_digit())
}

/// The number that the digits write, if it fits 64 bits.
pub(crate) fn number_of(text: &str) -> Option<u64>
    ensures none { IfNone result ((number : ℕ) → IsNumber text.now number → number < 2 ^ 64 → ⊥) }
    ensures some { IfSome result (λ number. IsNumber text.now number) }
    ensures fits { IfSome result (λ number. number < 2 ^ 64) }
{
    if !are_digits(text.as_bytes()) {
        return None;
    }
    match text.parse::<u64>() {
        Ok(number) => Some(number),
        Err(_) => None,
    }
}

/// The side that the digits write, from 24 to 300.
pub(crate) fn side_of(text: &str) -> Option<u32>
    ensures none { IfNone result ((side : ℕ) → IsNumber text.now side → 24 ≤ side → side ≤ 300 → ⊥) }
    ensures some { IfSome result (λ side. IsNumber text.now side) }
    ensures range { IfSome result (λ side. (24 ≤ side) × (side ≤ 300)) }
{
    let number = number_of(text)?;
    if number < 24 || number > 300 {
        return None;
    }
    Some(number as u32)
}

/// The number of steps that the digits write, from 1 to 1000.
pub(crate) fn steps_of(text: &str) -> Option<u32>
    ensures none { IfNone result ((steps : ℕ) → IsNumber text.now steps → 1 ≤ steps → steps ≤ 1000 → ⊥) }
    ensures some { IfSome result (λ steps. IsNumber text.now steps) }
    ensures range { IfSome result (λ steps. (1 ≤ steps) × (steps ≤ 1000)) }
{
    let number = number_of(text)?;
    if number < 1 || number > 1000 {
        return None;
    }
    Some(number as u32)
}

/// The time that the text stands for, in units of 10^-18 s, above 0 and at most 1 s.
pub(crate) fn time_of(text: &str) -> Option<u128>
    ensures none { IfNone result ((time : ℕ) → ¬ IsTime text.now time) }
    ensures some { IfSome result (IsTime text.now) }
{
    values_fit_their_places();
    match number_at(SECONDS, text.as_bytes()) {
        Ok(time) => Some(time as u128),
        Err(_) => None,
    }
}
