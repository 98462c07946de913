//! Tests of the readers of netlists, waves and certificates, and of the merging of shorts.
//!
//! They stand in a crate of their own, since a crate that has tests is proved once more with them.
#![tactic(auto)]

#[cfg(test)]
mod certificate_file_tests;
#[cfg(test)]
mod group_net_tests;
#[cfg(test)]
mod netlist_words_tests;
#[cfg(test)]
mod node_groups_tests;
#[cfg(test)]
mod same;
#[cfg(test)]
mod short_merge_tests;
#[cfg(test)]
mod spice_cards_tests;
#[cfg(test)]
mod spice_grid_tests;
#[cfg(test)]
mod wave_file_tests;
