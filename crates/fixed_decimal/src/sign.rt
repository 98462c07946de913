//! The sign of a number.

ghost use Rattle.std.specs.Prelude.{◌≡◌, ℕ, ◌↔◌, ◌&&◌, IfOk, IsTrue, pos, int_lt};
ghost use Rattle.fixed_decimal.specs.Number.{begins_minus, IsDecimal, IsNegative};
ghost use Rattle.fixed_decimal.specs.Integer.{IsInteger};
ghost use Rattle.fixed_decimal.specs.Spice.{IsSpice};
ghost use Rattle.fixed_decimal.specs.Value.{stands_for_number, StandsFor, IsAnswer};

use crate::error::DecimalError;

/// Whether a text stands for a number below 0, also for one that vanishes or that is out of range. `answer` is what
/// `read`, `read_spice` or `read_integer` has answered to the text, at any number of places and any limit. `-0` is not
/// below 0, and what is no number neither.
pub fn is_negative(text: &[u8], answer: Result<i128, DecimalError>) -> bool
    ensures decimal { (places limit : ℕ) → IsAnswer IsDecimal places limit text.now answer →
        IsTrue result ↔ StandsFor IsDecimal text.now IsNegative }
    ensures integer { (places limit : ℕ) → IsAnswer IsInteger places limit text.now answer →
        IsTrue result ↔ StandsFor IsInteger text.now IsNegative }
    ensures spice { (places limit : ℕ) → IsAnswer IsSpice places limit text.now answer →
        IsTrue result ↔ StandsFor IsSpice text.now IsNegative }
{
    match answer {
        Ok(_) => is_below_zero(answer),
        Err(error) => is_refused_negative(text, error),
    }
}

/// Whether a value that was read is below 0.
fn is_below_zero(answer: Result<i128, DecimalError>) -> bool
    ensures { IfOk answer (λ value. result ≡ int_lt value (pos 0)) }
{
    match answer {
        Ok(value) => value < 0,
        Err(_) => false,
    }
}

/// Whether a text that has no value for this reason is a number with a minus.
fn is_refused_negative(text: &[u8], error: DecimalError) -> bool
    ensures { result ≡ (stands_for_number error && begins_minus text.now) }
{
    stands_for_number(error) && begins_minus(text)
}

/// Whether a text that has no value for this reason is a number.
fn stands_for_number(error: DecimalError) -> bool
    ensures { result ≡ stands_for_number error }
{
    match error {
        DecimalError::NotNumber => false,
        DecimalError::Vanishes => true,
        DecimalError::Range => true,
    }
}

/// Whether the text begins with a minus.
fn begins_minus(text: &[u8]) -> bool
    ensures { result ≡ begins_minus text.now }
{
    match text.first() {
        Some(first) => *first == b'-',
        None => false,
    }
}
