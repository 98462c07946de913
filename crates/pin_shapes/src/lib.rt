//! The pins of blocks as shapes of a drawing.
#![tactic(auto)]

mod laws;
mod pins;

pub use laws::pins_keep_their_metal;
pub use pins::{block_pins, pin_shapes};
