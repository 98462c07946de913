//! What the drawing of a grid over blocks keeps, as laws on functions that do nothing.
#![tactic(auto)]

mod laws;

pub use laws::{drawings_over_blocks_are_grids, nets_over_blocks_are_named};
