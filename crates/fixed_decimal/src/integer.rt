//! Whole numbers.
ghost use Rattle.std.specs.Prelude.{◌≡◌, ◌≤◌, ◌^◌, ◌↔◌, ℤ, IsTrue, Result};
ghost use Rattle.std.specs.List.{list_all};
ghost use Rattle.std.specs.Char.{is_ascii_digit};
ghost use Rattle.fixed_decimal.specs.declared.error.DecimalError.{DecimalError as Error};
ghost use Rattle.fixed_decimal.specs.Number.{Number};
ghost use Rattle.fixed_decimal.specs.Integer.{IsInteger};
ghost use Rattle.fixed_decimal.specs.Value.{IsAnswer};
ghost use Rattle.fixed_decimal.specs.inside.Split.{after_minus};

use crate::error::DecimalError;
use crate::reader::read;

/// The text after its minus, if it has one.
fn without_minus(text: &[u8]) -> &[u8]
    ensures { result.now ≡ after_minus text.now }
{
    match text {
        [b'-', digits @ ..] => digits,
        _ => text,
    }
}

/// Whether each byte is a digit.
fn are_digits(text: &[u8]) -> bool
    ensures { result ≡ list_all is_ascii_digit text.now }
{
    text.iter().all(|byte| byte.is_ascii_digit())
}

/// Whether the text is a whole number.
fn is_integer(text: &[u8]) -> bool
    ensures { IsTrue result ↔ ((number : Number) × IsInteger text.now number) }
{
    let digits = without_minus(text);
    !digits.is_empty() && are_digits(digits)
}

/// Reads a whole number: a `-` or none, and digits, at least one.
///
/// Errors: `NotNumber` for a text of another form, as `+5` and `1.0`, `Range` for a value whose magnitude is above
/// `limit`.
pub fn read_integer(text: &[u8], limit: u128) -> Result<i128, DecimalError>
    requires { limit ≤ 10 ^ 37 }
    ensures answer { IsAnswer IsInteger 0 limit text.now result }
    ensures only { (other : Result ℤ Error) → IsAnswer IsInteger 0 limit text.now other → other ≡ result }
{
    if is_integer(text) {
        read(text, 0, limit)
    } else {
        Err(DecimalError::NotNumber)
    }
}
