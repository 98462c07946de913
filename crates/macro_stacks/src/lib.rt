//! The stacks of pieces that come in two lists.
#![tactic(auto)]

mod mixed;
mod places;
mod stacking;

pub use stacking::stacks_of_both;
