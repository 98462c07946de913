//! Numbers with a mantissa and a power of two, in whole numbers. Sums wrap where a range ends: what is proposed with
//! them is tested afterwards.

use crate::words::low_word;

/// `mantissa * 2^exponent`. A mantissa that is not 0 has 32 bits.
#[derive(Clone, Copy)]
pub struct Scaled {
    pub mantissa: u64,
    pub exponent: i64,
}

/// Shifted to the right, or to the left where `by` is below 0.
#[inline(always)]
pub fn shifted(value: i128, by: i64) -> i128 {
    if by >= 127 {
        value >> 127
    } else if by >= 0 {
        value >> by
    } else if by > -127 {
        value << -by
    } else {
        value << 126
    }
}

/// Shifted to the right, or to the left where `by` is below 0, and held within 2^125.
#[inline(always)]
pub fn held(value: i128, by: i64) -> i128 {
    if by >= 0 {
        return shifted(value, by);
    }
    let spare = value.unsigned_abs().leading_zeros() as i64;
    if by > -127 && -by < spare.wrapping_sub(2) {
        value << -by
    } else if value < 0 {
        -(1 << 125)
    } else {
        1 << 125
    }
}

/// The low 64 bits as a number with a sign.
#[inline(always)]
pub fn narrow(value: i128) -> i64 {
    low_word(value).cast_signed()
}

/// `value * mantissa * 2^-shift`, with a mantissa of 32 bits, held where it passes the range.
#[inline(always)]
pub fn times_scale(value: i128, mantissa: u64, shift: i64) -> i128 {
    let product = if value.unsigned_abs().leading_zeros() >= 34 {
        value.wrapping_mul(mantissa as i128)
    } else {
        value.saturating_mul(mantissa as i128)
    };
    held(product, shift)
}

/// The bits of a number without its sign.
#[inline(always)]
pub fn bits_of(value: u64) -> i64 {
    64i64.wrapping_sub(value.leading_zeros() as i64)
}

/// The bits of a wide number without its sign.
#[inline(always)]
pub fn wide_bits_of(value: u128) -> i64 {
    128i64.wrapping_sub(value.leading_zeros() as i64)
}

/// `over / under` as `factor * 2^-shift`, with a factor of at most 33 bits.
pub fn ratio(over: i128, under: i128) -> (i64, i64) {
    if over == 0 || under == 0 {
        return (0, 0);
    }
    let (n, d) = (over.unsigned_abs(), under.unsigned_abs());
    let (n_zeros, d_zeros) = (n.leading_zeros(), d.leading_zeros());
    let n63 = (n.wrapping_shl(n_zeros) >> 65) as u64;
    let d32 = (d.wrapping_shl(d_zeros) >> 96) as u64;
    let factor = n63.checked_div(d32).unwrap_or(0).cast_signed();
    let shift = (n_zeros as i64)
        .wrapping_sub(d_zeros as i64)
        .wrapping_add(31);
    if (over < 0) == (under < 0) {
        (factor, shift)
    } else {
        (factor.wrapping_neg(), shift)
    }
}

/// A number with a sign above 32 bits, as one word.
#[inline(always)]
pub fn packed_scale(mantissa: u64, exponent: i64) -> u64 {
    (exponent.cast_unsigned() << 32) | (mantissa & 0xffff_ffff)
}

/// The mantissa of such a word.
#[inline(always)]
pub fn scale_mantissa(word: u64) -> u64 {
    word & 0xffff_ffff
}

/// The exponent of such a word.
#[inline(always)]
pub fn scale_exponent(word: u64) -> i64 {
    word.cast_signed() >> 32
}

impl Scaled {
    /// 0.
    pub const ZERO: Scaled = Scaled {
        mantissa: 0,
        exponent: 0,
    };

    /// The sum, to 32 bits.
    #[inline(always)]
    pub fn plus(self, other: Scaled) -> Scaled {
        let (great, small) = if self.exponent >= other.exponent {
            (self, other)
        } else {
            (other, self)
        };
        let apart = great.exponent.wrapping_sub(small.exponent);
        let part = if 0 <= apart && apart < 32 {
            small.mantissa >> apart
        } else {
            0
        };
        let sum = great.mantissa.wrapping_add(part);
        let carry = (sum >> 32) & 1;
        Scaled {
            mantissa: sum >> carry,
            exponent: great.exponent.wrapping_add(carry as i64),
        }
    }

    /// The product, to the nearest of 32 bits.
    #[inline(always)]
    pub fn times(self, other: Scaled) -> Scaled {
        let product = self.mantissa.wrapping_mul(other.mantissa);
        let zeros = product.leading_zeros();
        let rounded = (product.wrapping_shl(zeros) >> 31).wrapping_add(1) >> 1;
        let carry = (rounded >> 32) & 1;
        let exponent = self.exponent.wrapping_add(other.exponent);
        let place = (carry as i64).wrapping_add(32).wrapping_sub(zeros as i64);
        Scaled {
            mantissa: rounded >> carry,
            exponent: exponent.wrapping_add(place),
        }
    }

    /// Whether this is the greater one of two whose mantissas have 32 bits.
    #[inline(always)]
    pub fn exceeds(self, other: Scaled) -> bool {
        self.exponent > other.exponent
            || (self.exponent == other.exponent && self.mantissa > other.mantissa)
    }

    /// The inverse, to 32 bits; 0 for 0.
    #[inline(always)]
    pub fn inverse(self) -> Scaled {
        let half = (1u64 << 63).wrapping_add(self.mantissa >> 1);
        let quotient = half.checked_div(self.mantissa).unwrap_or(0);
        Scaled {
            mantissa: quotient.min(0xffff_ffff),
            exponent: (-63i64).wrapping_sub(self.exponent),
        }
    }
}
