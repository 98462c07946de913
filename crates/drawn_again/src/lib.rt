//! The law that a drawn grid of two nets over one domain is one that its written wiring gives again.
#![tactic(auto)]

mod laws;

pub use laws::drawn_grids_are_rewirable;
