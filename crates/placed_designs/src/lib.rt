//! The law that a design whose special nets have no wires is read as the same design where wires are passed over.
#![tactic(auto)]

mod laws;

pub use laws::read_designs_are_placed;
