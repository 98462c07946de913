//! Flexible conjugate gradients: what they keep, and their steps.

use crate::level::{Level, Rest};
use crate::numbers::{bits_of, held, narrow, ratio, scale_exponent, shifted, wide_bits_of};
use crate::sweeps::driven;
use crate::words::Words;

/// The state of gradients on the rest of a level.
#[derive(Clone, Copy)]
pub struct Gradients {
    /// A residual `r` stands for the current `r * 2^-shift`, in the caller's unit.
    pub shift: i64,
    /// Corrections and directions are in units of `2^unit`, where a current of 1 over 1 nΩ is 1.
    pub unit: i64,
    /// The greatest residual.
    pub most: u64,
    /// The greatest one before the first step.
    pub first: u64,
    /// How many steps were made.
    pub steps: u32,
    /// What the residuals do along the last direction.
    pub gain: i128,
    /// What the last direction's currents do along it; 0 before the first step.
    pub energy: i128,
}

/// The greatest current of the rest's nodes.
fn widest(words: &Words, level: &Level) -> u128 {
    let mut most: u128 = 0;
    for row in 0..level.rest.len {
        let node = level.rest.numbers.number_at(words, row);
        most = most.max(level.currents.at(words, node).unsigned_abs());
    }
    most
}

/// The least unit in which no residual makes a voltage of more than 42 bits.
fn unit_for(words: &Words, rest: &Rest) -> i64 {
    let mut bits = i64::MIN;
    for number in 0..rest.len {
        let inverse = rest.row(words, number).inverse;
        let (_, residual) = words.pair(rest.corrections.cell(number));
        let of_residual = bits_of(residual.cast_signed().unsigned_abs());
        bits = bits.max(of_residual.wrapping_sub(scale_exponent(inverse)));
    }
    bits.wrapping_sub(10)
}

impl Gradients {
    /// Takes the currents of the rest's nodes as residuals.
    pub fn start(words: &mut Words, level: &Level) -> Gradients {
        let rest = &level.rest;
        let widest = widest(words, level);
        let shift = 42i64.wrapping_sub(wide_bits_of(widest));
        for row in 0..rest.len {
            let node = rest.numbers.number_at(words, row);
            let residual = narrow(shifted(level.currents.at(words, node), shift.wrapping_neg()));
            rest.corrections
                .put(words, row, 0, residual.cast_unsigned());
            rest.sums.put(words, row, 0);
        }
        Gradients {
            shift,
            unit: 0,
            most: narrow(shifted(widest.cast_signed(), shift.wrapping_neg())).unsigned_abs(),
            first: 0,
            steps: 0,
            gain: 0,
            energy: 0,
        }
    }

    /// Whether no residual is left, or none that reaches the goal.
    pub fn is_done(&self, goal: u128) -> bool {
        if self.most == 0 {
            return true;
        }
        let most = shifted(self.most as i128, self.shift);
        goal > 0 && most.unsigned_abs() < goal
    }

    /// Shifts the residuals so that the greatest one has 42 bits, and finds the unit before the first step.
    pub fn rescale(&mut self, words: &mut Words, rest: &Rest, is_first: bool) {
        let by = 42i64.wrapping_sub(bits_of(self.most));
        if by > 2 || by < 0 {
            for row in 0..rest.len {
                let (correction, residual) = rest.corrections.at(words, row);
                let moved = narrow(shifted(residual.cast_signed() as i128, by.wrapping_neg()));
                rest.corrections
                    .put(words, row, correction, moved.cast_unsigned());
            }
            self.shift = self.shift.wrapping_add(by);
            self.most = narrow(shifted(self.most as i128, by.wrapping_neg())).unsigned_abs();
        }
        if is_first {
            self.first = self.most;
            self.unit = unit_for(words, rest);
        }
    }

    /// Writes the sums of the steps as the voltages of the rest's nodes.
    pub fn finish(&self, words: &mut Words, level: &Level) {
        for row in 0..level.rest.len {
            let node = level.rest.numbers.number_at(words, row);
            let sum = level.rest.sums.at(words, row);
            level.volts.put(words, node, sum);
        }
    }
}

/// What the corrections do along the currents of the last direction.
#[inline(never)]
fn along_last(words: &Words, rest: &Rest) -> i128 {
    let mut sum: i128 = 0;
    for row in 0..rest.len {
        let correction = words.first(rest.corrections.cell(row)).cast_signed();
        let (_, current) = words.pair(rest.directions.cell(row));
        let part = (correction as i128).wrapping_mul(current.cast_signed() as i128);
        sum = sum.wrapping_add(part);
    }
    sum
}

/// The new directions: the corrections, and such a part of the last directions that the new ones drive no current along
/// those.
#[inline(never)]
fn turn(words: &mut Words, rest: &Rest, factor: i64, shift: i64) {
    for row in 0..rest.len {
        let correction = words.first(rest.corrections.cell(row)).cast_signed();
        let (last, current) = rest.directions.at(words, row);
        let part = (last.cast_signed() as i128).wrapping_mul(factor as i128);
        let direction = narrow(shifted(part, shift)).wrapping_add(correction);
        rest.directions
            .put(words, row, direction.cast_unsigned(), current);
    }
}

/// The currents of the directions, what they do along them, and what the residuals do along them.
#[inline(never)]
fn drive(words: &mut Words, rest: &Rest, unit: i64) -> (i128, i128) {
    let mut energy: i128 = 0;
    let mut gain: i128 = 0;
    for row in 0..rest.len {
        let (direction, current) = driven(words, rest, row, unit);
        rest.directions.put(
            words,
            row,
            direction.cast_unsigned(),
            current.cast_unsigned(),
        );
        let (_, residual) = words.pair(rest.corrections.cell(row));
        let along = (direction as i128).wrapping_mul(current as i128);
        energy = energy.wrapping_add(along);
        let gained = (direction as i128).wrapping_mul(residual.cast_signed() as i128);
        gain = gain.wrapping_add(gained);
    }
    (energy, gain)
}

/// Makes the next directions and their currents. False where these do nothing along them.
pub fn direct(words: &mut Words, rest: &Rest, state: &mut Gradients) -> bool {
    let (factor, shift) = ratio(along_last_of(words, rest, state), state.energy);
    turn(words, rest, factor, shift);
    let (energy, gain) = drive(words, rest, state.unit);
    state.energy = energy;
    state.gain = gain;
    energy > 0
}

/// What is to be taken off along the last direction; nothing before the first step.
fn along_last_of(words: &Words, rest: &Rest, state: &Gradients) -> i128 {
    if state.energy == 0 {
        return 0;
    }
    along_last(words, rest).wrapping_neg()
}

/// Steps along the directions, as far as the residuals along them fall.
#[inline(never)]
pub fn step(words: &mut Words, rest: &Rest, state: &mut Gradients) {
    let (factor, shift) = ratio(state.gain, state.energy);
    let to_sum = shift.wrapping_sub(state.unit).wrapping_add(state.shift);
    let mut most: u64 = 0;
    for row in 0..rest.len {
        let (direction, current) = rest.directions.at(words, row);
        let (correction, residual) = rest.corrections.at(words, row);
        let part = (direction.cast_signed() as i128).wrapping_mul(factor as i128);
        let sum = rest.sums.at(words, row).saturating_add(held(part, to_sum));
        rest.sums.put(words, row, sum);
        let fall = (current.cast_signed() as i128).wrapping_mul(factor as i128);
        let left = residual
            .cast_signed()
            .wrapping_sub(narrow(shifted(fall, shift)));
        rest.corrections
            .put(words, row, correction, left.cast_unsigned());
        most = most.max(left.unsigned_abs());
    }
    state.most = most;
    state.steps = state.steps.saturating_add(1);
}
