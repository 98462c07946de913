//! Tests of wiring that is there already: the reader of a DEF's wiring.
//!
//! They stand in a crate of their own, since a crate that has tests is proved once more with them.
#![tactic(auto)]

#[cfg(test)]
mod def_wiring_tests;
#[cfg(test)]
mod same;
