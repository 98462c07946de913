//! The words of edges: conductances in the lists, shares of a sum in the rows.

use crate::numbers::Scaled;
use crate::words::Words;

/// What is added to the exponent of a conductance in its word.
const BIAS: i64 = 512;

/// The least exponent of a conductance that is kept; smaller fill is dropped.
pub const LEAST_EXPONENT: i64 = 8 - BIAS;

/// An edge in the list of a node: the other end, and the conductance in 1/nΩ. Its word has, from the top, 22 bits of the
/// node, 10 of the exponent and 32 of the mantissa.
#[derive(Clone, Copy)]
pub struct Edge {
    pub node: u32,
    pub conductance: Scaled,
}

impl Edge {
    /// The edge of a word.
    #[inline(always)]
    pub fn of(word: u64) -> Edge {
        let exponent = ((word >> 32) & 1023) as i64;
        Edge {
            node: node_of(word),
            conductance: Scaled {
                mantissa: word & 0xffff_ffff,
                exponent: exponent.wrapping_sub(BIAS),
            },
        }
    }

    /// The edge's word.
    #[inline(always)]
    pub fn word(self) -> u64 {
        let exponent = self.conductance.exponent.wrapping_add(BIAS).cast_unsigned() & 1023;
        ((self.node as u64) << 42) | (exponent << 32) | (self.conductance.mantissa & 0xffff_ffff)
    }
}

/// The node of a word, of an edge or of a share.
#[inline(always)]
pub fn node_of(word: u64) -> u32 {
    (word >> 42) as u32
}

/// The word of a share in a row of elimination: `mantissa * 2^-shift`, at most 1. From the top it has 22 bits of the
/// node, 10 of the shift, which is 32 to 63, and 32 of the mantissa.
#[inline(always)]
pub fn share_word(node: u32, share: Scaled) -> u64 {
    let e = share.exponent;
    let (shift, mantissa) = if e > -32 {
        (32, 0xffff_ffff)
    } else if e >= -63 {
        (e.wrapping_neg().cast_unsigned(), share.mantissa)
    } else if e > -95 {
        (63, share.mantissa >> (-63 - e))
    } else {
        (63, 0)
    };
    ((node as u64) << 42) | (shift << 32) | (mantissa & 0xffff_ffff)
}

/// A share of a number, rounded down.
#[inline(always)]
pub fn share_of(value: i128, share: u64) -> i128 {
    let shift = ((share >> 32) & 63) as u32;
    let mantissa = share & 0xffff_ffff;
    let high = (value >> 64).wrapping_mul(mantissa as i128);
    let low = (value.cast_unsigned() & 0xffff_ffff_ffff_ffff).wrapping_mul(mantissa as u128);
    high.wrapping_shl(64u32.wrapping_sub(shift) & 63)
        .wrapping_add(low.wrapping_shr(shift).cast_signed())
}

/// The word of an entry in a row of the rest: 22 bits of the row's number, and 42 of the share, in units of 2^-42.
#[inline(always)]
pub fn entry_word(row: u32, share: u64) -> u64 {
    ((row as u64) << 42) | (share & 0x3ff_ffff_ffff)
}

/// The share of such a word.
#[inline(always)]
pub fn entry_share(word: u64) -> u64 {
    word & 0x3ff_ffff_ffff
}

/// The greatest exponent in a list of edges.
fn greatest_exponent(words: &Words, start: usize, len: u32) -> i64 {
    let mut top = i64::MIN;
    for k in 0..len {
        let edge = Edge::of(words.word(start.wrapping_add(k as usize)));
        top = top.max(edge.conductance.exponent);
    }
    top
}

/// The sum of the conductances in a list, in units of `2^(top - 40)`.
fn wide_sum(words: &Words, start: usize, len: u32, top: i64) -> u128 {
    let mut sum: u128 = 0;
    for k in 0..len {
        let g = Edge::of(words.word(start.wrapping_add(k as usize))).conductance;
        let below = top.wrapping_sub(g.exponent);
        if 0 <= below && below < 72 {
            sum = sum.wrapping_add((g.mantissa as u128) << 40 >> below);
        }
    }
    sum
}

/// The sum of a list's conductances, its inverse, and what gives shares of 42 bits.
#[derive(Clone, Copy)]
pub struct Sum {
    pub total: Scaled,
    pub inverse: Scaled,
    wide: u128,
    top: i64,
}

impl Sum {
    /// The sum of a list.
    pub fn of(words: &Words, start: usize, len: u32) -> Sum {
        let top = greatest_exponent(words, start, len);
        let wide = wide_sum(words, start, len, top);
        let zeros = wide.leading_zeros();
        let mantissa = (wide.wrapping_shl(zeros) >> 96) as u64;
        let total = Scaled {
            mantissa,
            exponent: top.wrapping_add(56).wrapping_sub(zeros as i64),
        };
        let total = if mantissa == 0 { Scaled::ZERO } else { total };
        Sum {
            total,
            inverse: total.inverse(),
            wide,
            top,
        }
    }

    /// What part of the sum an edge has.
    #[inline(always)]
    pub fn share(self, edge: Edge) -> Scaled {
        edge.conductance.times(self.inverse)
    }

    /// What gives the shares of this sum in units of 2^-42.
    pub fn parts(self) -> Parts {
        let zeros = self.wide.leading_zeros();
        let mantissa = self.wide.wrapping_shl(zeros) >> 64;
        let inverse = (1u128 << 127).checked_div(mantissa).unwrap_or(0);
        Parts {
            inverse: inverse.min(0xffff_ffff_ffff_ffff),
            exponent: self.top.wrapping_add(24).wrapping_sub(zeros as i64),
        }
    }
}

/// A sum's inverse to 64 bits.
#[derive(Clone, Copy)]
pub struct Parts {
    inverse: u128,
    exponent: i64,
}

impl Parts {
    /// What part of the sum an edge has, in units of 2^-42, below 1.
    #[inline(always)]
    pub fn share(self, edge: Edge) -> u64 {
        let by = self
            .exponent
            .wrapping_add(85)
            .wrapping_sub(edge.conductance.exponent);
        let product = (edge.conductance.mantissa as u128).wrapping_mul(self.inverse);
        let share = if by > 126 {
            0
        } else if by >= 1 {
            product.wrapping_add((1u128 << by) >> 1) >> by
        } else {
            product
        };
        share.min(0x3ff_ffff_ffff) as u64
    }
}
