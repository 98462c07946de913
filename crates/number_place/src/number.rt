ghost use Rattle.std.specs.Prelude.{◌≡◌, ◌<◌, ◌^◌, ◌↔◌, ℕ, ℤ, pos, IsTrue, Result, Ok};
ghost use Rattle.fixed_decimal.specs.declared.error.DecimalError.{DecimalError as Error};
ghost use Rattle.fixed_decimal.specs.Number.{IsNegative};
ghost use Rattle.fixed_decimal.specs.Value.{IsAnswer, StandsFor};
ghost use Rattle.number_place.specs.declared.place.Refused.{Refused as Reason};
ghost use Rattle.number_place.specs.Place.{is_of, IsNumberAt, CanRead};
ghost use Rattle.number_place.specs.inside.Number.{other_sign, told};

use crate::place::{NumberForm, NumberPlace, NumberSign, Refused};
use fixed_decimal::{DecimalError, is_negative, read, read_integer, read_spice};

/// The value of the text, whatever its sign, or why it has none.
fn value_of(place: NumberPlace, text: &[u8]) -> Result<i128, DecimalError>
    requires { CanRead place }
    ensures answer { IsAnswer (is_of place.form) place.places place.limit text.now result }
    ensures only { (other : Result ℤ Error) →
        IsAnswer (is_of place.form) place.places place.limit text.now other → other ≡ result }
{
    match place.form {
        NumberForm::Decimal => read(text, place.places, place.limit),
        NumberForm::Scaled => read_spice(text, place.places, place.limit),
        NumberForm::Integer => read_integer(text, place.limit),
    }
}

/// Whether the answer is 0.
fn is_zero(answer: Result<i128, DecimalError>) -> bool
    ensures { IsTrue result ↔ (answer ≡ Ok (pos 0)) }
{
    match answer {
        Ok(value) => value == 0,
        Err(_) => false,
    }
}

/// Whether the text, which has this answer, is a number below 0.
fn is_below_zero(form: NumberForm, text: &[u8], answer: Result<i128, DecimalError>) -> bool
    ensures { (places limit : ℕ) → IsAnswer (is_of form) places limit text.now answer →
        IsTrue result ↔ StandsFor (is_of form) text.now IsNegative }
{
    is_negative(text, answer)
}

/// Whether a number may not stand where this sign is asked.
fn is_other_sign(sign: NumberSign, below: bool, zero: bool) -> bool
    ensures { result ≡ other_sign sign below zero }
{
    match sign {
        NumberSign::Any => false,
        NumberSign::NotNegative => below,
        NumberSign::Positive => below || zero,
    }
}

/// The answer in a place whose sign the number has.
fn told(answer: Result<i128, DecimalError>) -> Result<i128, Refused>
    ensures { result ≡ told answer }
{
    match answer {
        Ok(value) => Ok(value),
        Err(error) => Err(Refused::Number(error)),
    }
}

/// Reads the text as a number of the place.
///
/// Errors: `Syntax` for a number of a sign that may not stand there, and otherwise the reason for which the text has no
/// value.
pub fn number_at(place: NumberPlace, text: &[u8]) -> Result<i128, Refused>
    requires { CanRead place }
    ensures answer { IsNumberAt place text.now result }
    ensures only { (other : Result ℤ Reason) → IsNumberAt place text.now other → other ≡ result }
{
    let answer = value_of(place, text);
    let below = is_below_zero(place.form, text, answer);
    if is_other_sign(place.sign, below, is_zero(answer)) {
        return Err(Refused::Syntax);
    }
    told(answer)
}

/// The same where the limit fits 64 bits.
pub fn small_number_at(place: NumberPlace, text: &[u8]) -> Result<i64, Refused>
    requires place { CanRead place }
    requires small { place.limit < 2 ^ 63 }
    ensures answer { IsNumberAt place text.now result }
    ensures only { (other : Result ℤ Reason) → IsNumberAt place text.now other → other ≡ result }
{
    match number_at(place, text) {
        Ok(value) => Ok(value as i64),
        Err(refused) => Err(refused),
    }
}
