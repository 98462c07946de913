//! The solve of a level: elimination forward, flexible conjugate gradients on the rest with one cycle over the levels
//! below as the preconditioner, and elimination backward.

use crate::exchange::{pull_back, push_forward};
use crate::gradients::{Gradients, direct, step};
use crate::level::{Level, Rest};
use crate::numbers::{bits_of, shifted};
use crate::sweeps::{from_above, sweep_backward, sweep_forward};
use crate::words::Words;

/// How long gradients go on: so many steps at most, and until no residual passes the goal, in units of the currents. A
/// goal of 0 is that the first step cut the residuals to a third.
#[derive(Clone, Copy)]
pub struct Effort {
    pub steps: u32,
    pub goal: u128,
}

/// What a solve took, and the bits that are in use in its voltages.
#[derive(Clone, Copy)]
pub struct Solved {
    pub steps: u32,
    pub used: u128,
}

/// Solves the first level: its voltages from its currents, exactly where elimination took all nodes.
#[cycle(levels)]
pub fn solve(words: &mut Words, levels: &[Level], effort: Effort) -> Solved {
    let Some((level, below)) = levels.split_first() else {
        return Solved { steps: 0, used: 0 };
    };
    push_forward(words, level);
    let steps = solve_rest(words, level, below, effort);
    let used = pull_back(words, level);
    Solved { steps, used }
}

/// Conjugate gradients on the rest of a level. Answers how many steps were made.
#[cycle(levels)]
fn solve_rest(words: &mut Words, level: &Level, below: &[Level], effort: Effort) -> u32 {
    let rest = &level.rest;
    let mut state = Gradients::start(words, level);
    for number in 0..effort.steps {
        if state.is_done(effort.goal) {
            break;
        }
        state.rescale(words, rest, number == 0);
        if !precondition(words, level, below, &mut state) {
            break;
        }
        if !direct(words, rest, &mut state) {
            break;
        }
        step(words, rest, &mut state);
        if effort.goal == 0 && state.most < state.first / 3 {
            break;
        }
    }
    state.finish(words, level);
    state.steps
}

/// The corrections of one cycle, in a unit in which none passes 56 bits. False where there is none.
#[cycle(levels)]
fn precondition(words: &mut Words, level: &Level, below: &[Level], state: &mut Gradients) -> bool {
    for _ in 0..64 {
        let used = cycle(words, level, below, state.unit);
        let bits = bits_of(used);
        if bits <= 56 {
            return true;
        }
        state.unit = state.unit.wrapping_add(bits.wrapping_sub(50).max(4));
        if state.unit > 120 {
            return false;
        }
    }
    false
}

/// One cycle: a forward sweep, the level below on what that leaves, and a backward sweep. Answers the bits in use.
#[cycle(levels)]
fn cycle(words: &mut Words, level: &Level, below: &[Level], unit: i64) -> u64 {
    let mut used = sweep_forward(words, &level.rest, unit);
    if let Some(lower) = below.first() {
        restrict(words, level, lower, unit);
        // Two steps below only where the rest there is much smaller, so that the work of all levels stays bounded.
        let steps = if lower.rest.len <= level.rest.len / 3 {
            2
        } else {
            1
        };
        solve(words, below, Effort { steps, goal: 0 });
        used |= prolong(words, level, lower, unit);
    }
    used | sweep_backward(words, &level.rest, unit)
}

/// Adds up by groups what the forward sweep leaves: the currents from the rows above.
#[inline(never)]
fn restrict(words: &mut Words, level: &Level, lower: &Level, unit: i64) {
    lower.currents.fill(words, lower.nodes, 0);
    for row in 0..level.rest.len {
        let current = from_above(words, &level.rest, row, unit);
        let group = level.groups.number_at(words, row);
        lower.currents.add(words, group, current as i128);
    }
}

/// Adds the voltages of the groups to the corrections of their rows. All bits are in use where one passes 60.
#[inline(never)]
fn prolong(words: &mut Words, level: &Level, lower: &Level, unit: i64) -> u64 {
    let rest: &Rest = &level.rest;
    let mut used = 0;
    for row in 0..rest.len {
        let group = level.groups.number_at(words, row);
        let volts = shifted(lower.volts.at(words, group), unit);
        if volts.unsigned_abs() >> 60 != 0 {
            used = u64::MAX;
        }
        let cell = rest.corrections.cell(row);
        let (correction, residual) = words.pair(cell);
        let sum = correction.wrapping_add(crate::words::low_word(volts));
        words.put_pair(cell, sum, residual);
    }
    used
}
