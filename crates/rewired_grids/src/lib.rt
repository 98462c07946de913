//! The law that the wiring that is written of a grid gives an alike grid.
#![tactic(auto)]

mod laws;

pub use laws::rewired_grids_are_alike;
