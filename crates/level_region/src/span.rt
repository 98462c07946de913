/// Consecutive cells of a region: `len` cells from cell number `start` on, counted from 0.
#[derive(Clone, Copy, Debug, PartialEq, Eq)]
pub struct Span {
    pub start: usize,
    pub len: usize,
}
