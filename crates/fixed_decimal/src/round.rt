//! Rounding of a number to a whole number of units.

ghost use Rattle.std.specs.Prelude.{◌≡◌, ℕ, ◌+◌, ◌*◌, ◌^◌, ◌<◌, ◌≤◌, min, IfSome, IfNone, ◌⊎◌};
ghost use Rattle.fixed_decimal.specs.inside.Kept.{Keeps, IsCapped, Describes, AnswersNumber};
ghost use Rattle.fixed_decimal.specs.Number.{Number};
ghost use Rattle.fixed_decimal.specs.Spice.{scaled};
ghost use Rattle.fixed_decimal.specs.Value.{IsNearest, signed};

use crate::decimal::Decimal;
use crate::digits::Digits;
use crate::error::DecimalError;
use crate::scale::Scale;

/// The digits that are kept times 10^power. None where more digits stand after them, or where this is above 10^37.
fn raised(digits: Digits, power: u128) -> Option<u128>
    ensures some { IfSome result (λ m. (digits.kept ≡ 0) × (m ≡ 0) ⊎ (digits.dropped ≡ 0) × (power ≤ 37)
        × (m ≡ digits.kept * 10 ^ power)) }
    ensures none { IfNone result ((0 < digits.kept)
        × ((0 < digits.dropped) ⊎ (37 < power) ⊎ (2 ^ 128 ≤ digits.kept * 10 ^ power))) }
{
    if digits.kept == 0 {
        return Some(0);
    }
    if digits.dropped != 0 || power > 37 {
        return None;
    }
    digits.kept.checked_mul(10u128.pow(power as u32))
}

/// The whole number nearest to `kept` over 10^power, and the greater of two equally near ones.
fn lowered(kept: u128, power: u128) -> u128
    requires kept { kept < 10 ^ 38 + 10 }
    requires power { 0 < power }
    ensures { IsNearest kept (10 ^ power) result }
{
    if power > 38 {
        return 0;
    }
    let unit = 10u128.pow(power as u32);
    (kept + unit / 2) / unit
}

/// The whole number nearest to the digits times 10^up over 10^down, and the greater of two equally near ones. None
/// where it is above 10^37.
fn nearest(digits: Digits, up: u128, down: u128) -> Option<u128>
    requires kept { digits.kept < 10 ^ 38 + 10 }
    requires up { up < 10 ^ 24 }
    requires down { down < 10 ^ 24 }
    requires one { min up down < 2 ^ 65 }

    ensures some { IfSome result (λ m. (n u d : ℕ) → Keeps n digits → IsCapped u up → IsCapped d down →
        IsNearest (n * 10 ^ u) (10 ^ d) m) }
    ensures none { IfNone result ((n u d : ℕ) → Keeps n digits → IsCapped u up → IsCapped d down →
        (10 ^ 37 + 1) * 10 ^ d ≤ n * 10 ^ u) }
{
    let up = up + u128::from(digits.dropped);
    if down <= up {
        raised(digits, up - down)
    } else {
        Some(lowered(digits.kept, down - up))
    }
}

/// The magnitude with a minus, where it has one.
fn with_sign(negative: bool, magnitude: u128) -> i128
    requires { magnitude ≤ 10 ^ 37 }
    ensures { result ≡ signed negative magnitude }
{
    let value = magnitude as i128;
    if negative { -value } else { value }
}

/// The value of the number times its scale, rounded to so many places, within the limit.
pub fn rounded(
    number: Decimal,
    scale: Scale,
    places: u32,
    limit: u128,
) -> Result<i128, DecimalError>
    requires kept { number.digits.kept < 10 ^ 38 + 10 }
    requires up { scale.up ≤ 12 }
    requires down { scale.down ≤ 15 }
    requires places { places ≤ 30 }
    requires limit { limit ≤ 10 ^ 37 }

    ensures { (n : Number) → n.negative ≡ number.negative → Describes n number.digits number.up number.down →
        AnswersNumber (scaled n scale) places limit result }
{
    let up = number.up + u128::from(scale.up) + u128::from(places);
    let down = number.down + u128::from(scale.down);
    let Some(magnitude) = nearest(number.digits, up, down) else {
        return Err(DecimalError::Range);
    };
    if magnitude == 0 && number.digits.kept != 0 {
        return Err(DecimalError::Vanishes);
    }
    if magnitude > limit {
        return Err(DecimalError::Range);
    }
    Ok(with_sign(number.negative, magnitude))
}
