//! Tests of what all others stand on: the outside, whole numbers, memory, names and lists.
//!
//! They stand in a crate of their own, since a crate that has tests is proved once more with them.
#![tactic(auto)]

#[cfg(test)]
mod entry_list_tests;
#[cfg(test)]
mod geom_rect_tests;
#[cfg(test)]
mod level_region_tests;
#[cfg(test)]
mod name_places_tests;
#[cfg(test)]
mod name_table_tests;
#[cfg(test)]
mod named_entries_tests;
#[cfg(test)]
mod node_names_tests;
#[cfg(test)]
mod number_place_tests;
#[cfg(test)]
mod outside_tests;
#[cfg(test)]
mod same;
