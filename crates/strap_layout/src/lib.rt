//! The straps of a rule: the lines that it draws over a core, for each of its nets.
#![tactic(auto)]

mod lines;
mod rule;

pub use lines::{straps, straps_up_to};
pub use rule::StrapRule;
