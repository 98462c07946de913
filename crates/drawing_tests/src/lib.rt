//! Tests of the drawing: arrays of cuts, pieces, stacks, shapes and the written DEF.
//!
//! They stand in a crate of their own, since a crate that has tests is proved once more with them.
#![tactic(auto)]

#[cfg(test)]
mod drawn_wiring_tests;
#[cfg(test)]
mod fitting;
#[cfg(test)]
mod grid_cores_tests;
#[cfg(test)]
mod grid_pieces_tests;
#[cfg(test)]
mod grid_shapes_tests;
#[cfg(test)]
mod grid_stacks_tests;
#[cfg(test)]
mod kept;
#[cfg(test)]
mod made;
#[cfg(test)]
mod plain_sites_tests;
#[cfg(test)]
mod plain_touch_tests;
#[cfg(test)]
mod rail_layout_tests;
#[cfg(test)]
mod ring_layout_tests;
#[cfg(test)]
mod run_index_tests;
#[cfg(test)]
mod same;
#[cfg(test)]
mod small_design_tests;
#[cfg(test)]
mod strap_layout_tests;
#[cfg(test)]
mod via_arrays_tests;
#[cfg(test)]
mod wiring_file_tests;
