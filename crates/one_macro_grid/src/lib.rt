//! A script draws one grid over a design with blocks, and it has one network, as laws on functions that do nothing of their own.
#![tactic(auto)]

mod drawing;
mod network;

pub use drawing::{drawn_or_refused_over_blocks, one_drawing_over_blocks, one_refusal_over_blocks};
pub use network::{
    extracted_or_refused_over_blocks, one_network_over_blocks,
    one_refusal_of_extraction_over_blocks,
};
