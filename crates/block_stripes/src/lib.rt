//! What grids over macros draw over blocks: the straps and the rings of their commands, over each block that has the grid.
#![tactic(auto)]

mod blocks;
mod rings;
mod straps;

pub use blocks::{BlockBox, block_boxes};
pub use rings::block_rings;
pub use straps::block_straps;
