//! The blocks of a design in their places, in units of the drawing: their outlines, pins and obstructions, the grids that they have,
//! and where and on which layers they cut the shapes of other grids.
#![tactic(auto)]

mod block;
mod cutting;
mod laws;
mod outline;
mod parts;
mod placing;

pub use block::PlacedBlock;
pub use laws::one_list_of_blocks;
pub use placing::placed_blocks;
