//! Tests of the extraction: the network of a drawn grid, its taps, and the limits of its currents.
//!
//! They stand in a crate of their own, since a crate that has tests is proved once more with them.
#![tactic(auto)]

#[cfg(test)]
mod grid_extract_tests;
#[cfg(test)]
mod grid_limits_tests;
#[cfg(test)]
mod grid_network_tests;
#[cfg(test)]
mod grid_taps_tests;
#[cfg(test)]
mod same;
