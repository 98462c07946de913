//! The longest number at the front of a text.

ghost use Rattle.std.specs.Prelude.{◌≡◌, ℕ, ◌+◌, ◌^◌, ◌<◌, ◌++◌, List, length, min, IfSome, IfNone, Option, Bool, false, codes};
ghost use Rattle.fixed_decimal.specs.Number.{Spelling, IsSpelling, spelling_text, letter_text};
ghost use Rattle.fixed_decimal.specs.inside.Split.{TakesSign, TakesExponent, TakesMantissa, IsMantissa, Splits, begins_exponent, begins_point};

use crate::decimal::Decimal;
use crate::digits::{Digits, take_digits, take_exponent_digits};

/// Whether a minus stands first, and the text after its sign, if it has one.
pub fn take_sign(text: &[u8]) -> (bool, &[u8])
    ensures { TakesSign text.now result.0 result.1.now }
{
    match text {
        [b'-', rest @ ..] => (true, rest),
        [b'+', rest @ ..] => (false, rest),
        _ => (false, text),
    }
}

/// The text after the letter of an exponent, if it begins with one.
fn after_letter(text: &[u8]) -> Option<&[u8]>
    ensures some { IfSome result (λ rest. (capital : Bool) × (text.now ≡ letter_text capital ++ rest.now)) }
    ensures none { IfNone result (begins_exponent text.now ≡ false) }
{
    match text {
        [b'e', rest @ ..] => Some(rest),
        [b'E', rest @ ..] => Some(rest),
        _ => None,
    }
}

/// The text after a point, if it begins with one.
pub fn after_point(text: &[u8]) -> Option<&[u8]>
    ensures some { IfSome result (λ rest. text.now ≡ codes "." ++ rest.now) }
    ensures none { IfNone result (begins_point text.now ≡ false) }
{
    match text {
        [b'.', rest @ ..] => Some(rest),
        _ => None,
    }
}

/// The powers of ten by which the exponent at the front of the text multiplies and divides, and the text after it.
fn take_exponent(text: &[u8]) -> (u128, u128, &[u8])
    ensures parts { TakesExponent text.now result.0 result.1 result.2.now }
    ensures up { result.0 < 10 ^ 22 }
    ensures down { result.1 < 10 ^ 22 }
    ensures one { min result.0 result.1 ≡ 0 }
{
    let Some(after) = after_letter(text) else {
        return (0, 0, text);
    };
    let (negative, digits) = take_sign(after);
    let (value, count) = take_exponent_digits(digits);
    if count == 0 {
        (0, 0, text)
    } else if negative {
        (0, value, &digits[count..])
    } else {
        (value, 0, &digits[count..])
    }
}

/// The digits before and after the point, how many stand after it, and the text after them. None where there is no
/// digit.
fn take_mantissa(text: &[u8]) -> Option<(Digits, u64, &[u8])>
    ensures some { IfSome result (λ r. TakesMantissa text.now r.0 r.1 r.2.now) }
    ensures none { IfNone result ((whole : List ℕ) (fraction : Option (List ℕ)) (rest : List ℕ) →
        ¬ IsMantissa text.now whole fraction rest) }
{
    let (whole, before) = take_digits(Digits::none(), text);
    let Some(after) = after_point(&text[before..]) else {
        if before == 0 {
            return None;
        }
        return Some((whole, 0, &text[before..]));
    };
    let (digits, decimals) = take_digits(whole, after);
    if before == 0 && decimals == 0 {
        return None;
    }
    Some((digits, decimals as u64, &after[decimals..]))
}

/// The longest number at the front of the text, and the text after it. None where the text begins with no number.
pub fn split(text: &[u8]) -> Option<(Decimal, &[u8])>
    ensures some { IfSome result (λ r. Splits text.now r.0 r.1.now) }
    ensures none { IfNone result ((s : Spelling) (rest : List ℕ) → IsSpelling s →
        ¬ (text.now ≡ spelling_text s ++ rest)) }
{
    let (negative, unsigned) = take_sign(text);
    let (digits, decimals, after) = take_mantissa(unsigned)?;
    let (up, down, rest) = take_exponent(after);
    Some((
        Decimal {
            negative,
            digits,
            up,
            down: down + u128::from(decimals),
        },
        rest,
    ))
}
