//! The shapes of all grids over a design with blocks.
#![tactic(auto)]

mod laws;
mod shaping;

pub use laws::each_block_cuts_plain_shapes;
pub use shaping::macro_shapes;
