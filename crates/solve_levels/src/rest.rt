//! The nodes that elimination leaves, as rows of shares.

use crate::edges::{Edge, Parts, Sum, entry_word};
use crate::elimination::Left;
use crate::graph::{EdgeList, Graph, LONG};
use crate::level::{Rest, Row};
use crate::lists::{Column, Pairs};
use crate::numbers::packed_scale;
use crate::words::Words;

/// How many words the entries of all rows take at most. Long lists are cleared first.
fn entries_of(words: &mut Words, graph: &mut Graph, left: Left) -> usize {
    let mut entries: usize = 0;
    for k in 0..left.len {
        let node = left.list.number_at(words, k);
        let mut list = graph.list(words, node);
        if list.len > LONG {
            list = graph.tidy(words, node);
        }
        entries = entries.saturating_add(list.len as usize + 2);
    }
    entries
}

/// Gives each node that is left the number of its row, in its mark.
fn number_rows(words: &mut Words, graph: &Graph, left: Left, numbers: Column) {
    for row in 0..left.len {
        let node = left.list.number_at(words, row);
        graph.marks.put(words, node, row as u64);
        numbers.put(words, row, node as u64);
    }
}

/// Makes the rows at the high end. `None` where there is no room.
pub fn make_rest(words: &mut Words, graph: &mut Graph, left: Left) -> Option<Rest> {
    let entries = entries_of(words, graph, left);
    let numbers = Column::cut_high(words, left.len)?;
    let rows = Pairs::cut_high(words, 2 * left.len as usize + 2)?;
    let mut to = words.cut_high(entries)?;
    number_rows(words, graph, left, numbers);
    let rest = Rest {
        len: left.len,
        numbers,
        rows,
        ..Rest::NONE
    };
    for row in 0..left.len {
        to = make_row(words, graph, &rest, row, to);
    }
    rest.close(words, to >> 1);
    Some(rest)
}

/// Makes a row, whose entries begin at this word, and answers the word after them.
fn make_row(words: &mut Words, graph: &Graph, rest: &Rest, row: u32, from: usize) -> usize {
    let list = graph.list(words, rest.numbers.number_at(words, row));
    let sum = Sum::of(words, list.start, list.len);
    let parts = sum.parts();
    let middle = put_entries(words, graph, list, parts, Side::Below(row), from);
    let end = put_entries(words, graph, list, parts, Side::Above(row), middle);
    rest.put_row(
        words,
        row,
        Row {
            start: from >> 1,
            below: middle.saturating_sub(from) >> 1,
            inverse: packed_scale(sum.inverse.mantissa, sum.inverse.exponent.wrapping_neg()),
            sum: packed_scale(sum.total.mantissa, sum.total.exponent),
            ground: share_of_ground(words, graph, list, parts),
        },
    );
    end
}

/// The entries of lower rows than this one, or those of higher ones.
#[derive(Clone, Copy)]
enum Side {
    Below(u32),
    Above(u32),
}

impl Side {
    #[inline(always)]
    fn row(self) -> u32 {
        match self {
            Side::Below(row) => row,
            Side::Above(row) => row,
        }
    }

    #[inline(always)]
    fn has(self, other: u32) -> bool {
        match self {
            Side::Below(row) => other < row,
            Side::Above(row) => other >= row,
        }
    }
}

/// Writes the entries on one side of a row, and fills the last cell. Answers the word after them.
fn put_entries(
    words: &mut Words,
    graph: &Graph,
    list: EdgeList,
    parts: Parts,
    side: Side,
    from: usize,
) -> usize {
    let mut to = from;
    for k in 0..list.len {
        let edge = list.edge(words, k);
        if edge.node != graph.nodes {
            let other = graph.marks.number_at(words, edge.node);
            if side.has(other) {
                words.put(to, entry_word(other, parts.share(edge)));
                to = to.wrapping_add(1);
            }
        }
    }
    if to & 1 == 1 {
        words.put(to, entry_word(side.row(), 0));
        to = to.wrapping_add(1);
    }
    to
}

/// What part of a row's sum goes to ground.
fn share_of_ground(words: &Words, graph: &Graph, list: EdgeList, parts: Parts) -> u64 {
    let mut share = 0;
    for k in 0..list.len {
        let edge: Edge = list.edge(words, k);
        if edge.node == graph.nodes {
            share = parts.share(edge);
        }
    }
    share
}
