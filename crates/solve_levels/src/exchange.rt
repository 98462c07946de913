//! What elimination took out, in a solve: currents go forward to the neighbours, and voltages come back.

use crate::edges::{node_of, share_of};
use crate::level::Level;
use crate::numbers::{scale_exponent, scale_mantissa, times_scale};
use crate::words::Words;

/// A node that was taken out: its number, and how many shares it has.
#[inline(always)]
pub fn taken(head: u64) -> (u32, usize) {
    ((head >> 32) as u32, (head & 0xffff_ffff) as usize)
}

/// The current of each node that was taken out goes to its neighbours by their shares; the neighbour of the greatest
/// share gets what the others leave, so that no current is lost.
pub fn push_forward(words: &mut Words, level: &Level) {
    let mut at = level.top;
    for k in 0..level.taken {
        let (head, _) = level.order.at(words, k);
        let (node, shares) = taken(head);
        if shares > 0 {
            push_node(words, level, node, at, shares);
            at = at.wrapping_sub(shares);
        }
    }
}

/// The current of one node goes to its neighbours.
#[inline(always)]
fn push_node(words: &mut Words, level: &Level, node: u32, top: usize, shares: usize) {
    let current = level.currents.at(words, node);
    let mut left = current;
    for k in 1..shares {
        let share = words.word(top.wrapping_sub(k).wrapping_sub(1));
        let part = share_of(current, share);
        left = left.wrapping_sub(part);
        level.currents.add(words, node_of(share), part);
    }
    let first = node_of(words.word(top.wrapping_sub(1)));
    level.currents.add(words, first, left);
}

/// The voltage of each node that was taken out is that of the neighbour of the greatest share, its shares of the others'
/// differences to that one, and what its own current makes. Answers the bits that are in use.
pub fn pull_back(words: &mut Words, level: &Level) -> u128 {
    let mut at = level.bottom;
    let mut used: u128 = 0;
    level.volts.put(words, level.nodes, 0);
    for k in (0..level.taken).rev() {
        let (head, inverse) = level.order.at(words, k);
        let (node, shares) = taken(head);
        let current = level.currents.at(words, node);
        let mut volts = times_scale(current, scale_mantissa(inverse), scale_exponent(inverse));
        if shares > 0 {
            volts = volts.wrapping_add(mean(words, level, at, shares));
            at = at.wrapping_add(shares);
        }
        level.volts.put(words, node, volts);
        used |= volts.unsigned_abs();
    }
    used
}

/// The mean of a node's neighbours by their shares, which lie from this word on, the greatest one last.
#[inline(always)]
fn mean(words: &Words, level: &Level, from: usize, shares: usize) -> i128 {
    let last = words.word(from.wrapping_add(shares).wrapping_sub(1));
    let first = level.volts.at(words, node_of(last));
    let mut sum = first;
    for k in 1..shares {
        let share = words.word(from.wrapping_add(k).wrapping_sub(1));
        let apart = level.volts.at(words, node_of(share)).wrapping_sub(first);
        sum = sum.wrapping_add(share_of(apart, share));
    }
    sum
}
