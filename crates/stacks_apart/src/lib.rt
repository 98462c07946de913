//! The law of stacks in a grid in which nothing touches.
#![tactic(auto)]

mod laws;

pub use laws::nothing_within_a_stack;
