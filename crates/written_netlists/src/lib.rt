//! The law that a written netlist reads back.
//!
//! `written_netlists_read_back` is a function that does nothing, whose contract is this law: reading the text that is
//! written of a network (the form of the IBM power grid benchmarks, which SPICE reads) gives the same network, the same
//! names of its nodes, and no short.
#![tactic(auto)]

mod laws;

pub use laws::{nothing_to_merge, written_netlists_read_back};
