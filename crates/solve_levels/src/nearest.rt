//! A pad that is near each node: what gives the first voltages.

use crate::edges::node_of;
use crate::exchange::taken;
use crate::level::{Level, Rest};
use crate::lists::Column;
use crate::words::Words;

/// Gives a pad to each node of the first level that has none yet: to the rest by breadth, and to each node that was taken
/// out that of the neighbour of its greatest share. `near` has the pad's number plus 1 for each node, or 0.
pub fn spread_pads(words: &mut Words, level: &Level, near: Column) {
    spread_rest(words, &level.rest, near);
    let mut at = level.bottom;
    for k in (0..level.taken).rev() {
        let (head, _) = level.order.at(words, k);
        let (node, shares) = taken(head);
        if shares > 0 && near.at(words, node) == 0 {
            let first = words.word(at.wrapping_add(shares).wrapping_sub(1));
            if node_of(first) < level.nodes {
                let pad = near.at(words, node_of(first));
                near.put(words, node, pad);
            }
        }
        at = at.wrapping_add(shares);
    }
}

/// Gives pads to the rows, by breadth from those that have one. The queue stands where the sums of the steps will.
fn spread_rest(words: &mut Words, rest: &Rest, near: Column) {
    let mut queued: u32 = 0;
    for row in 0..rest.len {
        if near.at(words, rest.numbers.number_at(words, row)) != 0 {
            rest.sums.put(words, queued, row as i128);
            queued = queued.saturating_add(1);
        }
    }
    for place in 0..rest.len {
        if place < queued {
            let row = rest.row_queued(words, place);
            queued = reach(words, rest, near, row, queued);
        }
    }
}

/// Gives a row's pad to its neighbours that have none, and queues those. Answers how many are queued.
fn reach(words: &mut Words, rest: &Rest, near: Column, row: u32, queued: u32) -> u32 {
    let mut queued = queued;
    let pad = near.at(words, rest.numbers.number_at(words, row));
    let (start, _) = rest.start(words, row);
    let end = rest.end(words, row);
    for k in start.saturating_mul(2)..end.saturating_mul(2) {
        let other = node_of(words.word(k));
        let node = rest.numbers.number_at(words, other);
        if near.at(words, node) == 0 {
            near.put(words, node, pad);
            rest.sums.put(words, queued, other as i128);
            queued = queued.saturating_add(1);
        }
    }
    queued
}
