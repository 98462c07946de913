//! Tests of macro grids: the shares of a block's load over its pins, the turns of macros, the pins and obstructions of blocks, blocks in
//! their places, what grids draw over them, their pins as shapes, and cuts at their halos.
//!
//! They stand in a crate of their own, since a crate that has tests is proved once more with them.
#![tactic(auto)]

#[cfg(test)]
mod block_rects_tests;
#[cfg(test)]
mod block_shapes_tests;
#[cfg(test)]
mod halo_cuts_tests;
#[cfg(test)]
mod load_shares_tests;
#[cfg(test)]
mod macro_turns_tests;
#[cfg(test)]
mod placed_blocks_tests;
#[cfg(test)]
mod same;
