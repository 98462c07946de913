//! Lists in the words: one word, one cell of two words, or one cell of one number for each entry.

use crate::words::Words;

/// A list with one word for each entry.
#[derive(Clone, Copy)]
pub struct Column {
    start: usize,
}

impl Column {
    /// No list at all: a place holder.
    pub const NONE: Column = Column { start: usize::MAX };

    /// A list of so many words at the low end.
    pub fn cut(words: &mut Words, len: u32) -> Option<Column> {
        let start = words.cut(len as usize)?;
        Some(Column { start })
    }

    /// A list of so many words at the low end, of which those with numbers are read and written.
    pub fn cut_long(words: &mut Words, len: usize) -> Option<Column> {
        let start = words.cut(len)?;
        Some(Column { start })
    }

    /// A list of so many words at the high end.
    pub fn cut_high(words: &mut Words, len: u32) -> Option<Column> {
        let start = words.cut_high(len as usize)?;
        Some(Column { start })
    }

    /// An entry.
    #[inline(always)]
    pub fn at(self, words: &Words, k: u32) -> u64 {
        words.word(self.start.wrapping_add(k as usize))
    }

    /// An entry that is a number of a node, of a row or of a group.
    #[inline(always)]
    pub fn number_at(self, words: &Words, k: u32) -> u32 {
        (self.at(words, k) & 0xffff_ffff) as u32
    }

    /// Writes an entry.
    #[inline(always)]
    pub fn put(self, words: &mut Words, k: u32, value: u64) {
        words.put(self.start.wrapping_add(k as usize), value);
    }

    /// Writes one word into the first entries.
    pub fn fill(self, words: &mut Words, len: u32, value: u64) {
        for k in 0..len {
            self.put(words, k, value);
        }
    }
}

/// A list with one cell of two words for each entry.
#[derive(Clone, Copy)]
pub struct Pairs {
    cell: usize,
}

impl Pairs {
    /// No list at all: a place holder.
    pub const NONE: Pairs = Pairs { cell: usize::MAX };

    /// A list of so many cells at the low end.
    pub fn cut(words: &mut Words, len: usize) -> Option<Pairs> {
        let start = words.cut(len.saturating_mul(2))?;
        Some(Pairs { cell: start >> 1 })
    }

    /// A list of so many cells at the high end.
    pub fn cut_high(words: &mut Words, len: usize) -> Option<Pairs> {
        let start = words.cut_high(len.saturating_mul(2))?;
        Some(Pairs { cell: start >> 1 })
    }

    /// The cell of an entry.
    #[inline(always)]
    pub fn cell(self, k: u32) -> usize {
        self.cell.wrapping_add(k as usize)
    }

    /// The cell of the first entry.
    #[inline(always)]
    pub fn start(self) -> usize {
        self.cell
    }

    /// Both words of an entry.
    #[inline(always)]
    pub fn at(self, words: &Words, k: u32) -> (u64, u64) {
        words.pair(self.cell(k))
    }

    /// Writes both words of an entry.
    #[inline(always)]
    pub fn put(self, words: &mut Words, k: u32, first: u64, second: u64) {
        words.put_pair(self.cell(k), first, second);
    }
}

/// A list with one cell of one number for each entry.
#[derive(Clone, Copy)]
pub struct Wides {
    cell: usize,
}

impl Wides {
    /// No list at all: a place holder.
    pub const NONE: Wides = Wides { cell: usize::MAX };

    /// A list of so many cells at the low end.
    pub fn cut(words: &mut Words, len: usize) -> Option<Wides> {
        let start = words.cut(len.saturating_mul(2))?;
        Some(Wides { cell: start >> 1 })
    }

    /// An entry.
    #[inline(always)]
    pub fn at(self, words: &Words, k: u32) -> i128 {
        words.wide(self.cell.wrapping_add(k as usize))
    }

    /// Writes an entry.
    #[inline(always)]
    pub fn put(self, words: &mut Words, k: u32, value: i128) {
        words.put_wide(self.cell.wrapping_add(k as usize), value);
    }

    /// Adds to an entry.
    #[inline(always)]
    pub fn add(self, words: &mut Words, k: u32, value: i128) {
        let sum = self.at(words, k).wrapping_add(value);
        self.put(words, k, sum);
    }

    /// Writes one number into the first entries.
    pub fn fill(self, words: &mut Words, len: u32, value: i128) {
        for k in 0..len {
            self.put(words, k, value);
        }
    }
}
