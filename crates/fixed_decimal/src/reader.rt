ghost use Rattle.std.specs.Prelude.{◌≡◌, ◌<◌, ◌≤◌, ◌^◌, ◌↔◌, ℤ, Result};
ghost use Rattle.fixed_decimal.specs.declared.error.DecimalError.{DecimalError as Error};
ghost use Rattle.fixed_decimal.specs.Number.{Number, IsDecimal};
ghost use Rattle.fixed_decimal.specs.Spice.{IsSpice};
ghost use Rattle.fixed_decimal.specs.Value.{Vanishes, IsAbove, StandsFor, DecimalReads, SpiceReads, IsAnswer};

use crate::error::DecimalError;
use crate::round::rounded;
use crate::scale::{Scale, scale_of};
use crate::short::short_value;
use crate::split::split;

/// Reads a number without a scale: an optional sign, digits with at most one point and at least one digit, and
/// optionally `e` or `E`, an optional sign and at least one digit. It answers the value times 10^places, rounded to
/// nearest, halves away from zero.
///
/// Errors: `NotNumber` for a text of another form, `Vanishes` for a value other than 0 that rounds to 0, `Range` for a
/// rounded value whose magnitude is above `limit`.
pub fn read(text: &[u8], places: u32, limit: u128) -> Result<i128, DecimalError>
    requires places { places ≤ 30 }
    requires limit { limit ≤ 10 ^ 37 }

    ensures value { (v : ℤ) → (result ≡ Ok v) ↔ DecimalReads places limit text.now v }
    ensures not_number { (result ≡ Err DecimalError.NotNumber) ↔ ((number : Number) → ¬ IsDecimal text.now number) }
    ensures vanishes { (result ≡ Err DecimalError.Vanishes) ↔ StandsFor IsDecimal text.now
        (λ number. Vanishes number places) }
    ensures range { (result ≡ Err DecimalError.Range) ↔ StandsFor IsDecimal text.now
        (λ number. IsAbove number places limit) }
    ensures answer { IsAnswer IsDecimal places limit text.now result }
    ensures only { (other : Result ℤ Error) → IsAnswer IsDecimal places limit text.now other → other ≡ result }
{
    match short_value(text, places, small_limit(limit)) {
        Some(value) => Ok(i128::from(value)),
        None => read_in_full(text, places, limit),
    }
}

/// The limit, or the greatest that 63 bits have.
fn small_limit(limit: u128) -> u64
    ensures within { result ≤ limit }
    ensures small { result < 2 ^ 63 }
{
    limit.min(i64::MAX as u128) as u64
}

/// The same as `read`, of any text.
// Most numbers have few digits, and are not brought here.
#[inline(never)]
fn read_in_full(text: &[u8], places: u32, limit: u128) -> Result<i128, DecimalError>
    requires places { places ≤ 30 }
    requires limit { limit ≤ 10 ^ 37 }
    ensures { IsAnswer IsDecimal places limit text.now result }
{
    let Some((number, rest)) = split(text) else {
        return Err(DecimalError::NotNumber);
    };
    if !rest.is_empty() {
        return Err(DecimalError::NotNumber);
    }
    rounded(number, Scale::ONE, places, limit)
}

/// Reads a number with a scale: a number as `read` reads it, and after it ASCII letters only, which may be none. The
/// scale is the first that fits the letters in either case: MEG 10^6, T 10^12, G 10^9, K 10^3, M 10^-3, U 10^-6, N
/// 10^-9, P 10^-12, F 10^-15. Other letters mean 1, and further letters are ignored. Letters that begin with MIL are
/// refused as `NotNumber`. It answers the value times 10^places, rounded to nearest, halves away from zero.
///
/// Errors: `NotNumber` for a text of another form, `Vanishes` for a value other than 0 that rounds to 0, `Range` for a
/// rounded value whose magnitude is above `limit`.
pub fn read_spice(text: &[u8], places: u32, limit: u128) -> Result<i128, DecimalError>
    requires places { places ≤ 30 }
    requires limit { limit ≤ 10 ^ 37 }

    ensures value { (v : ℤ) → (result ≡ Ok v) ↔ SpiceReads places limit text.now v }
    ensures not_number { (result ≡ Err DecimalError.NotNumber) ↔ ((number : Number) → ¬ IsSpice text.now number) }
    ensures vanishes { (result ≡ Err DecimalError.Vanishes) ↔ StandsFor IsSpice text.now
        (λ number. Vanishes number places) }
    ensures range { (result ≡ Err DecimalError.Range) ↔ StandsFor IsSpice text.now
        (λ number. IsAbove number places limit) }
    ensures answer { IsAnswer IsSpice places limit text.now result }
    ensures only { (other : Result ℤ Error) → IsAnswer IsSpice places limit text.now other → other ≡ result }
{
    match short_value(text, places, small_limit(limit)) {
        Some(value) => Ok(i128::from(value)),
        None => read_scaled_in_full(text, places, limit),
    }
}

/// The same as `read_spice`, of any text.
#[inline(never)]
fn read_scaled_in_full(text: &[u8], places: u32, limit: u128) -> Result<i128, DecimalError>
    requires places { places ≤ 30 }
    requires limit { limit ≤ 10 ^ 37 }
    ensures { IsAnswer IsSpice places limit text.now result }
{
    let Some((number, letters)) = split(text) else {
        return Err(DecimalError::NotNumber);
    };
    let Some(scale) = scale_of(letters) else {
        return Err(DecimalError::NotNumber);
    };
    rounded(number, scale, places, limit)
}
