//! One level: a graph whose nodes were taken out as far as that is cheap, and the rest of them as rows.

use crate::lists::{Column, Pairs, Wides};
use crate::words::Words;

/// What is known of a level.
#[derive(Clone, Copy)]
pub struct Level {
    /// The number of nodes; ground has this number.
    pub nodes: u32,
    /// For each node that was taken out, in turn: its number above the number of its shares, and 1 over its sum.
    pub order: Pairs,
    /// How many nodes were taken out.
    pub taken: u32,
    /// The shares of the nodes that were taken out lie below this word, those of the first one highest.
    pub top: usize,
    /// And from this word on.
    pub bottom: usize,
    /// The current of each node, in a unit of the caller's.
    pub currents: Wides,
    /// The voltage of each node, and of ground, in the unit that belongs to it.
    pub volts: Wides,
    /// The rows of the nodes that are left.
    pub rest: Rest,
    /// For each row the number of its group, which is a node of the level below.
    pub groups: Column,
    /// The word from which on all was free before the level was made.
    pub floor: usize,
}

/// The nodes of a level that are left, as rows.
#[derive(Clone, Copy)]
pub struct Rest {
    /// How many there are.
    pub len: u32,
    /// The number of each row's node.
    pub numbers: Column,
    /// Two cells for each row.
    pub rows: Pairs,
    /// The correction and the residual of each row.
    pub corrections: Pairs,
    /// The direction of each row, and the currents that it makes.
    pub directions: Pairs,
    /// The sum of the steps of each row.
    pub sums: Wides,
}

/// A row: its entries, two to a cell, those of lower rows first; 1 over its sum; its sum; and what part of the sum goes
/// to ground.
#[derive(Clone, Copy)]
pub struct Row {
    pub start: usize,
    pub below: usize,
    pub inverse: u64,
    pub sum: u64,
    pub ground: u64,
}

impl Rest {
    /// No rows.
    pub const NONE: Rest = Rest {
        len: 0,
        numbers: Column::NONE,
        rows: Pairs::NONE,
        corrections: Pairs::NONE,
        directions: Pairs::NONE,
        sums: Wides::NONE,
    };

    /// Cuts the lists that gradients work on. `None` where there is no room.
    pub fn with_vectors(self, words: &mut Words) -> Option<Rest> {
        let corrections = Pairs::cut(words, self.len as usize)?;
        let directions = Pairs::cut(words, self.len as usize)?;
        let sums = Wides::cut(words, self.len as usize)?;
        Some(Rest {
            corrections,
            directions,
            sums,
            ..self
        })
    }

    // The first cell of a row.
    #[inline(always)]
    fn row_cell(&self, row: u32) -> usize {
        self.rows.start().wrapping_add(2 * row as usize)
    }

    /// The first cell of a row's entries, and how many cells have entries of lower rows.
    #[inline(always)]
    pub fn start(&self, words: &Words, row: u32) -> (usize, usize) {
        let head = words.first(self.row_cell(row));
        ((head >> 32) as usize, (head & 0xffff_ffff) as usize)
    }

    /// The cell after the last one of a row's entries.
    #[inline(always)]
    pub fn end(&self, words: &Words, row: u32) -> usize {
        let next = self.row_cell(row).wrapping_add(2);
        (words.first(next) >> 32) as usize
    }

    /// A row.
    #[inline(always)]
    pub fn row(&self, words: &Words, row: u32) -> Row {
        let cell = self.row_cell(row);
        let (head, inverse) = words.pair(cell);
        let (sum, ground) = words.pair(cell.wrapping_add(1));
        let start = (head >> 32) as usize;
        Row {
            start,
            below: (head & 0xffff_ffff) as usize,
            inverse,
            sum,
            ground,
        }
    }

    /// The row at a place of the queue that stands where the sums will.
    pub fn row_queued(&self, words: &Words, place: u32) -> u32 {
        (self.sums.at(words, place) & 0xffff_ffff) as u32
    }

    /// Writes a row.
    pub fn put_row(&self, words: &mut Words, number: u32, row: Row) {
        let cell = self.row_cell(number);
        let head = ((row.start as u64) << 32) | row.below as u64;
        words.put_pair(cell, head, row.inverse);
        words.put_pair(cell.wrapping_add(1), row.sum, row.ground);
    }

    /// Writes where the entries of the last row end.
    pub fn close(&self, words: &mut Words, end: usize) {
        let cell = self.row_cell(self.len);
        words.put_pair(cell, (end as u64) << 32, 0);
    }
}

impl Level {
    /// A level of so many nodes, whose lists are cut at the low end. `None` where there is no room.
    pub fn cut(words: &mut Words, nodes: u32) -> Option<Level> {
        let order = Pairs::cut(words, nodes as usize)?;
        let currents = Wides::cut(words, nodes as usize + 1)?;
        let volts = Wides::cut(words, nodes as usize + 1)?;
        Some(Level {
            nodes,
            order,
            taken: 0,
            top: words.high(),
            bottom: words.high(),
            currents,
            volts,
            rest: Rest::NONE,
            groups: Column::NONE,
            floor: words.low(),
        })
    }
}
