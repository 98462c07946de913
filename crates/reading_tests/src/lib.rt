//! Tests of the engine that reads texts.
//!
//! They stand in a crate of their own, since a crate that has tests is proved once more with them.
#![tactic(auto)]

mod lists;
#[cfg(test)]
mod read_lists;
