//! The law that stacks that are drawn again, each array of cuts as a via of its own, are the same stacks.
#![tactic(auto)]

mod laws;

pub use laws::rewired_stacks_are_the_same;
