//! The stacks of vias that another tool placed.
#![tactic(auto)]

mod array;
mod crossing;
mod ends;
mod error;
mod made;
mod number;
mod placed;
mod stacks;

pub use error::OffError;
pub use stacks::wired_stacks;
