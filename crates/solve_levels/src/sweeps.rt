//! The sweeps of a cycle over the rows of a level, and the currents that a list of voltages makes.

use crate::edges::{entry_share, node_of};
use crate::level::Rest;
use crate::lists::Pairs;
use crate::numbers::{narrow, scale_exponent, scale_mantissa, shifted};
use crate::words::Words;

/// The first number of an entry of the list, less the row's own.
#[inline(always)]
fn apart(words: &Words, values: Pairs, entry: u64, own: i64) -> i128 {
    let value = words.first(values.cell(node_of(entry))).cast_signed();
    let difference = value.wrapping_sub(own) as i128;
    (entry_share(entry) as i128).wrapping_mul(difference)
}

/// The sum of share times difference to the row's own number, over the entries of some cells.
#[inline(always)]
fn gather(words: &Words, values: Pairs, from: usize, to: usize, own: i64) -> i128 {
    let mut sum: i128 = 0;
    for cell in words.span(from, to) {
        let (one, two) = Words::parts(*cell);
        let of_one = apart(words, values, one, own);
        let of_two = apart(words, values, two, own);
        sum = sum.wrapping_add(of_one.wrapping_add(of_two));
    }
    sum
}

/// What a residual alone makes of a voltage.
#[inline(always)]
fn lifted(residual: u64, inverse: u64, unit: i64) -> i64 {
    let product = (residual.cast_signed() as i128).wrapping_mul(scale_mantissa(inverse) as i128);
    narrow(shifted(product, scale_exponent(inverse).wrapping_add(unit)))
}

/// The current of a sum of shares times voltages.
#[inline(always)]
fn current_of(gathered: i128, sum: u64, unit: i64) -> i64 {
    let product = (gathered >> 12).wrapping_mul(scale_mantissa(sum) as i128);
    let by = 30i64.wrapping_sub(unit).wrapping_sub(scale_exponent(sum));
    narrow(shifted(product, by))
}

/// The forward sweep from zero: the entries of lower rows alone count. Answers the bits that are in use.
#[inline(never)]
pub fn sweep_forward(words: &mut Words, rest: &Rest, unit: i64) -> u64 {
    let mut used: u64 = 0;
    for number in 0..rest.len {
        let row = rest.row(words, number);
        let cell = rest.corrections.cell(number);
        let (_, residual) = words.pair(cell);
        let middle = row.start.wrapping_add(row.below);
        let sum = gather(words, rest.corrections, row.start, middle, 0);
        let own = lifted(residual, row.inverse, unit);
        let value = narrow(sum >> 42).wrapping_add(own);
        words.put_pair(cell, value.cast_unsigned(), residual);
        used |= value.unsigned_abs();
    }
    used
}

/// The current that flows to a row from the rows above it.
#[inline(always)]
pub fn from_above(words: &Words, rest: &Rest, number: u32, unit: i64) -> i64 {
    let row = rest.row(words, number);
    let middle = row.start.wrapping_add(row.below);
    let end = rest.end(words, number);
    let sum = gather(words, rest.corrections, middle, end, 0);
    current_of(sum, row.sum, unit)
}

/// The backward sweep over all entries, by differences. Answers the bits that are in use.
#[inline(never)]
pub fn sweep_backward(words: &mut Words, rest: &Rest, unit: i64) -> u64 {
    let mut used: u64 = 0;
    for number in (0..rest.len).rev() {
        let row = rest.row(words, number);
        let end = rest.end(words, number);
        let cell = rest.corrections.cell(number);
        let (before, residual) = words.pair(cell);
        let before = before.cast_signed();
        let sum = gather(words, rest.corrections, row.start, end, before);
        let ground = (row.ground as i128).wrapping_mul(before as i128);
        let change = narrow(sum.wrapping_sub(ground) >> 42);
        let own = lifted(residual, row.inverse, unit);
        let value = before.wrapping_add(change).wrapping_add(own);
        words.put_pair(cell, value.cast_unsigned(), residual);
        used |= value.unsigned_abs();
    }
    used
}

/// The direction at a row, and the current that leaves there under all directions.
#[inline(always)]
pub fn driven(words: &Words, rest: &Rest, number: u32, unit: i64) -> (i64, i64) {
    let row = rest.row(words, number);
    let end = rest.end(words, number);
    let own = words.first(rest.directions.cell(number)).cast_signed();
    let sum = gather(words, rest.directions, row.start, end, own);
    let ground = (row.ground as i128).wrapping_mul(own as i128);
    (own, current_of(ground.wrapping_sub(sum), row.sum, unit))
}
