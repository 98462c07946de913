//! A netlist with capacitors, bounded over time steps: from the bytes of the netlist and of a wave file to the texts of the
//! certificate and of the report.
//!
//! The netlist is read and its shorts are merged, the waves are read for the groups, capacitors that float, the number of steps
//! and the supply are tested, the steps are certified one after the other out of what a solver proposes, and both texts are made
//! before anything is written. The definitions stand in `specs/`.
#![tactic(auto)]

mod laws;
mod refused;
mod step;
mod stepped;
mod tested;

pub use laws::netlists_are_stepped_alike;
pub use step::{Times, step_through};
pub use stepped::Stepped;
