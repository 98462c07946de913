//! An index of runs by the runs across them, so that a line finds what lies across it without a look at all.
#![tactic(auto)]

mod entry;
mod index;
mod laws;

pub use entry::Entry;
pub use index::RunIndex;
pub use laws::shared_cells;
