//! Numbers of few digits, as most are: they are read in 64 bits.

ghost use Rattle.std.specs.Prelude.{◌≡◌, ℕ, ◌+◌, ◌*◌, ◌^◌, ◌<◌, ◌≤◌, ℤ, length, take, IfSome, IsTrue, ◌↔◌};
ghost use Rattle.std.specs.Str.Parse.{AllDigits, digits_value_after};
ghost use Rattle.fixed_decimal.specs.Value.{DecimalReads, signed};
ghost use Rattle.fixed_decimal.specs.Short.{IsShort};
ghost use Rattle.fixed_decimal.specs.inside.Short.{IsExactly, IsRaised, IsShortFraction};
ghost use Rattle.fixed_decimal.specs.inside.Split.{IsRun};

use crate::split::{after_point, take_sign};

/// Digits are read on while those before write less than this.
const FEW: u64 = 100_000_000_000_000_000;

/// The number that digits in front of the text write after those of `before`, and how many these are: all that stand
/// there, or so many that they write `FEW` or more.
fn few_digits(before: u64, text: &[u8]) -> (u64, usize)
    requires { before < 10 ^ 18 }
    ensures within { result.1 ≤ length text.now }
    ensures form { AllDigits 10 (take result.1 text.now) }
    ensures value { result.0 ≡ digits_value_after 10 before (take result.1 text.now) }
    ensures few { result.0 < 10 ^ 18 }
{
    let mut value = before;
    for (i, byte) in text.iter().enumerate() {
        if value >= FEW || !byte.is_ascii_digit() {
            return (value, i);
        }
        value = value * 10 + u64::from(*byte - b'0');
    }
    (value, text.len())
}

/// 10^power, where it is at most 10^9.
fn small_power(power: u64) -> Option<u64>
    ensures is { IfSome result (λ unit. unit ≡ 10 ^ power) }
    ensures small { IfSome result (λ unit. unit ≤ 10 ^ 9) }
{
    match power {
        0 => Some(1),
        1 => Some(10),
        2 => Some(100),
        3 => Some(1_000),
        4 => Some(10_000),
        5 => Some(100_000),
        6 => Some(1_000_000),
        7 => Some(10_000_000),
        8 => Some(100_000_000),
        9 => Some(1_000_000_000),
        _ => None,
    }
}

/// The digits in units of 10^-places, of which so many stand after the point. None where that is too much for 64 bits.
fn raised(digits: u64, decimals: usize, places: u32) -> Option<u64>
    ensures { IfSome result (IsRaised digits decimals places) }
{
    let unit = small_power(u64::from(places).checked_sub(decimals as u64)?)?;
    digits.checked_mul(unit)
}

/// The same of digits that are to come after the point. None where something else stands there.
fn pointed(whole: u64, after: &[u8], places: u32) -> Option<u64>
    requires { whole < 10 ^ 18 }
    ensures form { IfSome result (λ magnitude. AllDigits 10 after.now) }
    ensures is { IfSome result (λ magnitude.
        IsRaised (digits_value_after 10 whole after.now) (length after.now) places magnitude) }
{
    let (digits, decimals) = few_digits(whole, after);
    if decimals < after.len() {
        return None;
    }
    raised(digits, decimals, places)
}

/// The magnitude of a text without sign and exponent that has few digits.
fn magnitude(text: &[u8], places: u32) -> Option<u64>
    ensures { IfSome result (IsExactly text.now places) }
{
    let (whole, before) = few_digits(0, text);
    if before == 0 {
        return None;
    }
    if before == text.len() {
        return raised(whole, 0, places);
    }
    pointed(whole, after_point(&text[before..])?, places)
}

/// The magnitude with a minus, where it has one.
fn with_sign(negative: bool, magnitude: u64) -> i64
    requires { magnitude < 2 ^ 63 }
    ensures { result ≡ signed negative magnitude }
{
    let value = magnitude as i64;
    if negative { -value } else { value }
}

/// The value of a text that has few digits, one of them before any point, no exponent, and no more decimals than places.
/// None where it is another text, which is read in full.
pub fn short_value(text: &[u8], places: u32, limit: u64) -> Option<i64>
    requires { limit < 2 ^ 63 }
    ensures { IfSome result (λ value. DecimalReads places limit text.now value) }
{
    let (negative, unsigned) = take_sign(text);
    let magnitude = magnitude(unsigned, places)?;
    if magnitude > limit {
        return None;
    }
    Some(with_sign(negative, magnitude))
}

/// How many digits stand in front of the text.
fn digit_count(text: &[u8]) -> usize
    ensures { IsRun text.now result }
{
    for (i, byte) in text.iter().enumerate() {
        if !byte.is_ascii_digit() {
            return i;
        }
    }
    text.len()
}

/// Whether the text is a sign or none, at least one and at most `whole` digits, and maybe a point with at most `decimals`
/// digits. Such a text has a value at no fewer places, where that many digits before the point pass no limit.
pub fn is_short(text: &[u8], whole: usize, decimals: usize) -> bool
    ensures short { IsTrue result ↔ IsShort whole decimals text.now }
    ensures value { IsTrue result → (places limit : ℕ) → decimals ≤ places → 10 ^ (whole + places) ≤ limit →
        (value : ℤ) × DecimalReads places limit text.now value }
{
    let (_, unsigned) = take_sign(text);
    let before = digit_count(unsigned);
    if before == 0 || before > whole {
        return false;
    }
    is_short_after(&unsigned[before..], decimals)
}

/// Whether the text is nothing, or a point with at most so many digits.
fn is_short_after(text: &[u8], decimals: usize) -> bool
    ensures { IsTrue result ↔ IsShortFraction decimals text.now }
{
    if text.is_empty() {
        return true;
    }
    match after_point(text) {
        Some(after) => after.len() <= decimals && digit_count(after) == after.len(),
        None => false,
    }
}
