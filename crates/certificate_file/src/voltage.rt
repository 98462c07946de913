//! The voltages of a certificate.
ghost use Rattle.std.specs.Prelude.{◌≡◌, ◌≤◌, ◌<◌, ◌^◌, ◌++◌, [], IfSome, Ok, length, codes, if◌then◌else◌};
ghost use Rattle.std.specs.Str.Parse.{AllDigits, IsNumeral, digits_value};
ghost use Rattle.fixed_decimal.specs.Value.{signed};
ghost use Rattle.certificate_file.specs.Voltage.{IsVoltage};

use fixed_decimal::{DecimalError, read_integer};

/// The greatest magnitude of a voltage in a certificate, in yV.
pub const VOLTAGE_LIMIT: u128 = 10_000_000_000_000_000_000_000_000_000_000_000_000;

/// 10^18, the weight of the digits before the last 18.
const FRONT_WEIGHT: u128 = 1_000_000_000_000_000_000;

/// Numbers of at most so many digits are within the limit.
const SHORT: usize = 37;

/// The number that at most 19 digits write, or `None` where another byte stands among them.
fn digits_number(digits: &[u8]) -> Option<u64>
    requires { length digits.now ≤ 19 }
    ensures all { IfSome result (λ number. AllDigits 10 digits.now) }
    ensures number { IfSome result (λ number. number ≡ digits_value 10 digits.now) }
{
    let mut number = 0u64;
    for byte in digits {
        if !byte.is_ascii_digit() {
            return None;
        }
        number = number * 10 + u64::from(*byte - b'0');
    }
    Some(number)
}

/// The number that at most 37 digits write, or `None` where there are none or more, or another byte stands among them.
fn short_number(digits: &[u8]) -> Option<u128>
    ensures numeral { IfSome result (λ number. IsNumeral 10 digits.now) }
    ensures number { IfSome result (λ number. number ≡ digits_value 10 digits.now) }
    ensures short { IfSome result (λ number. length digits.now ≤ 37) }
{
    if digits.is_empty() || digits.len() > SHORT {
        return None;
    }
    let at = digits.len().saturating_sub(18);
    let front = digits_number(&digits[..at])?;
    let back = digits_number(&digits[at..])?;
    Some(u128::from(front) * FRONT_WEIGHT + u128::from(back))
}

/// Whether the text begins with a minus, and what follows it.
fn sign_and_digits(text: &[u8]) -> (bool, &[u8])
    ensures { text.now ≡ (if result.0 then codes "-" else []) ++ result.1.now }
{
    match text {
        [b'-', digits @ ..] => (true, digits),
        _ => (false, text),
    }
}

/// The number with its sign.
fn signed(negative: bool, number: u128) -> i128
    requires { number < 10 ^ 37 }
    ensures { result ≡ signed negative number }
{
    if negative {
        -(number as i128)
    } else {
        number as i128
    }
}

/// The voltage that a word of at most 37 digits stands for. It is mostly this one.
fn short_voltage(text: &[u8]) -> Option<i128>
    ensures { IfSome result (λ value. IsVoltage text.now (Ok value)) }
{
    let (negative, digits) = sign_and_digits(text);
    let number = short_number(digits)?;
    Some(signed(negative, number))
}

/// The voltage that a word stands for, in yV: a `-` or none, and digits.
pub(crate) fn voltage(text: &[u8]) -> Result<i128, DecimalError>
    ensures { IsVoltage text.now result }
{
    match short_voltage(text) {
        Some(value) => Ok(value),
        None => read_integer(text, VOLTAGE_LIMIT),
    }
}
