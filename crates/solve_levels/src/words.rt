/// The low word of a cell.
#[inline(always)]
pub(crate) fn low_word(cell: i128) -> u64 {
    (cell.cast_unsigned() & 0xffff_ffff_ffff_ffff) as u64
}

/// The high word of a cell.
#[inline(always)]
fn high_word(cell: i128) -> u64 {
    (cell.cast_unsigned() >> 64) as u64
}

/// The cell of two words.
#[inline(always)]
fn cell_of(low: u64, high: u64) -> i128 {
    ((low as u128) | (high as u128) << 64).cast_signed()
}

/// Cells that are worked in, as words of 64 bits: two to a cell, the low one first. Lists of words are cut from both
/// ends, and what lies between is free. A place behind the last cell reads as 0, and a write there does nothing.
#[derive(Drop)]
pub struct Words<'a> {
    cells: &'a mut [i128],
    low: usize,
    high: usize,
}

impl<'a> Words<'a> {
    /// The words of some cells, all of them free.
    pub fn new(cells: &'a mut [i128]) -> Words<'a> {
        let high = cells.len().saturating_mul(2);
        Words {
            cells,
            low: 0,
            high,
        }
    }

    /// How many words are free.
    #[inline(always)]
    pub fn room(&self) -> usize {
        self.high.saturating_sub(self.low)
    }

    /// The first free word.
    #[inline(always)]
    pub fn low(&self) -> usize {
        self.low
    }

    /// The word after the last free one.
    #[inline(always)]
    pub fn high(&self) -> usize {
        self.high
    }

    /// All words from this one on, up to those at the high end, are free again.
    pub fn release(&mut self, low: usize) {
        self.low = low;
    }

    /// Cuts whole cells for so many words at the low end. `None` where there is no room.
    pub fn cut(&mut self, words: usize) -> Option<usize> {
        let from = self.low.saturating_add(self.low & 1);
        let to = from.saturating_add(words).saturating_add(words & 1);
        if to > self.high {
            return None;
        }
        self.low = to;
        Some(from)
    }

    /// Cuts whole cells for so many words at the high end. `None` where there is no room.
    pub fn cut_high(&mut self, words: usize) -> Option<usize> {
        let to = self.high.saturating_sub(self.high & 1);
        let size = words.saturating_add(words & 1);
        if size > to || to.saturating_sub(size) < self.low {
            return None;
        }
        self.high = to.saturating_sub(size);
        Some(self.high)
    }

    /// Writes a word at the low end. False where there is no room.
    #[inline(always)]
    pub fn push(&mut self, value: u64) -> bool {
        if self.low >= self.high {
            return false;
        }
        let at = self.low;
        self.low = at.saturating_add(1);
        self.put(at, value);
        true
    }

    /// Writes a word at the high end. False where there is no room.
    #[inline(always)]
    pub fn push_high(&mut self, value: u64) -> bool {
        if self.low >= self.high {
            return false;
        }
        self.high = self.high.saturating_sub(1);
        self.put(self.high, value);
        true
    }

    /// A cell as one number.
    #[inline(always)]
    pub fn wide(&self, cell: usize) -> i128 {
        match self.cells.get(cell) {
            Some(value) => *value,
            None => 0,
        }
    }

    /// Writes a cell as one number.
    #[inline(always)]
    pub fn put_wide(&mut self, cell: usize, value: i128) {
        if let Some(place) = self.cells.get_mut(cell) {
            *place = value;
        }
    }

    /// The cells from one to before another; none where they end behind the last cell.
    #[inline(always)]
    pub fn span(&self, from: usize, to: usize) -> &[i128] {
        match self.cells.get(from..to) {
            Some(cells) => cells,
            None => &[],
        }
    }

    /// Both words of a cell's number.
    #[inline(always)]
    pub fn parts(cell: i128) -> (u64, u64) {
        (low_word(cell), high_word(cell))
    }

    /// The low word of a cell.
    #[inline(always)]
    pub fn first(&self, cell: usize) -> u64 {
        low_word(self.wide(cell))
    }

    /// Both words of a cell.
    #[inline(always)]
    pub fn pair(&self, cell: usize) -> (u64, u64) {
        let value = self.wide(cell);
        (low_word(value), high_word(value))
    }

    /// Writes both words of a cell.
    #[inline(always)]
    pub fn put_pair(&mut self, cell: usize, low: u64, high: u64) {
        self.put_wide(cell, cell_of(low, high));
    }

    /// A word.
    #[inline(always)]
    pub fn word(&self, at: usize) -> u64 {
        let cell = self.wide(at >> 1);
        if at & 1 == 0 {
            low_word(cell)
        } else {
            high_word(cell)
        }
    }

    /// Writes a word.
    #[inline(always)]
    pub fn put(&mut self, at: usize, value: u64) {
        if let Some(place) = self.cells.get_mut(at >> 1) {
            let cell = *place;
            *place = if at & 1 == 0 {
                cell_of(value, high_word(cell))
            } else {
                cell_of(low_word(cell), value)
            };
        }
    }
}
