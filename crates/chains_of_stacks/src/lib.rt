//! The law that the maximal chains of the vias of stacks are those stacks.
#![tactic(auto)]

mod laws;

pub use laws::chains_are_the_stacks;
