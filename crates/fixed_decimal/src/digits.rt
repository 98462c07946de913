//! Runs of decimal digits.

ghost use Rattle.std.specs.Prelude.{◌≡◌, ℕ, ◌+◌, ◌-◌, ◌*◌, ◌^◌, ◌<◌, ◌≤◌, length, take};
ghost use Rattle.std.specs.Str.Parse.{digits_value, digits_value_after};
ghost use Rattle.fixed_decimal.specs.inside.Kept.{Keeps, IsCapped};
ghost use Rattle.fixed_decimal.specs.inside.Split.{IsRun};

/// The number that decimal digits write, of which the first 38 or 39 from the first other than 0 are kept.
#[derive(Clone, Copy)]
pub struct Digits {
    pub kept: u128,
    /// How many digits stand after those that are kept.
    pub dropped: u64,
}

/// Digits are kept while those before them write at most this.
const KEPT_LIMIT: u128 = 10_000_000_000_000_000_000_000_000_000_000_000_000;

impl Digits {
    pub fn none() -> Digits
        ensures keeps { Keeps 0 result }
        ensures count { result.dropped ≡ 0 }
    {
        Digits {
            kept: 0,
            dropped: 0,
        }
    }

    /// With one digit more.
    pub fn push(self, digit: u8) -> Digits
        requires digit { digit < 10 }
        requires room { self.dropped + 1 < 2 ^ 64 }

        ensures keeps { (n : ℕ) → Keeps n self → Keeps (n * 10 + digit) result }
        ensures count { result.dropped ≤ self.dropped + 1 }
    {
        if self.kept <= KEPT_LIMIT {
            Digits {
                kept: self.kept * 10 + u128::from(digit),
                dropped: self.dropped,
            }
        } else {
            Digits {
                kept: self.kept,
                dropped: self.dropped + 1,
            }
        }
    }
}

/// The digits of `before` and after them those that `text` begins with, and how many these are.
pub fn take_digits(before: Digits, text: &[u8]) -> (Digits, usize)
    requires { before.dropped + length text.now < 2 ^ 64 }

    ensures run { IsRun text.now result.1 }
    ensures keeps { (n : ℕ) → Keeps n before → Keeps (digits_value_after 10 n (take result.1 text.now)) result.0 }
    ensures count { result.0.dropped ≤ before.dropped + result.1 }
{
    let mut digits = before;
    for (i, byte) in text.iter().enumerate() {
        if !byte.is_ascii_digit() {
            return (digits, i);
        }
        digits = digits.push(*byte - b'0');
    }
    (digits, text.len())
}

/// An exponent is counted up to this or a little more. It is far above the length of any text.
const EXPONENT_LIMIT: u128 = 1_000_000_000_000_000_000_000;

/// The number that the digits write with which `text` begins, and how many these are. A number above `EXPONENT_LIMIT`
/// may come out as a smaller one above it.
pub fn take_exponent_digits(text: &[u8]) -> (u128, usize)
    ensures run { IsRun text.now result.1 }
    ensures value { IsCapped (digits_value 10 (take result.1 text.now)) result.0 }
    ensures fits { result.0 < 10 ^ 22 }
{
    let mut value: u128 = 0;
    for (i, byte) in text.iter().enumerate() {
        if !byte.is_ascii_digit() {
            return (value, i);
        }
        if value < EXPONENT_LIMIT {
            value = value * 10 + u128::from(*byte - b'0');
        }
    }
    (value, text.len())
}
