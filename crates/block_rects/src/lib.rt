//! The pins and the obstructions of a block in their places, in units of the drawing.
#![tactic(auto)]

mod even;
mod names;
mod obstructing;
mod part;
mod pinning;
mod units;

pub use names::{LayerNames, layer_names};
pub use obstructing::obstructions_of;
pub use part::{Obstruction, PinPart};
pub use pinning::parts_of;
