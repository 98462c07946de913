//! The limits of a drawn grid: the greatest currents of its wires and arrays of cuts, and how far the voltages of its nets
//! may drop.
#![tactic(auto)]

mod branch;
mod found;
mod net;
mod whole;

pub use whole::limits;
