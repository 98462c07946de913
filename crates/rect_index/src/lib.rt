//! An index of rectangles, so that what meets a window is found without a look at all.
#![tactic(auto)]

mod bounds;
mod entry;
mod index;
mod tree;

pub use entry::Entry;
pub use index::RectIndex;
