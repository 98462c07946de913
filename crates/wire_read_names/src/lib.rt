//! The law that the wiring that is read has names of DEF.
#![tactic(auto)]

mod laws;

pub use laws::read_wires_have_names;
