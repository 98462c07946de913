//! The law that the wiring that is written of a drawn grid over one domain has the network of that grid.
#![tactic(auto)]

mod laws;

pub use laws::rewired_networks_are_the_same;
