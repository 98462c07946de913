//! Tests of the top call over files and a sink in memory: its commands, and what each refusal leaves.
//!
//! They stand in a crate of their own, since a crate that has tests is proved once more with them.
#![tactic(auto)]

#[cfg(test)]
mod build_tests;
#[cfg(test)]
mod build_texts;
#[cfg(test)]
mod chain_tests;
#[cfg(test)]
mod check_tests;
#[cfg(test)]
mod generate_tests;
#[cfg(test)]
mod runs;
#[cfg(test)]
mod same;
#[cfg(test)]
mod signed_tests;
#[cfg(test)]
mod solve_tests;
#[cfg(test)]
mod step_tests;
