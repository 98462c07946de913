//! From a grid over blocks, the cells, the design and the bias file to the network of resistors with its pads and loads.
#![tactic(auto)]

mod extraction;
mod laws;

pub use extraction::macro_extract;
pub use laws::no_bad_end_nor_conflict_over_blocks;
