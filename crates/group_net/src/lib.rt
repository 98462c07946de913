//! The network of the groups of nodes that shorts join, and what its solutions mean.
//!
//! A short is a wire without resistance between two nodes of a flat power-grid netlist: a resistor of 0 ohms or a source
//! of 0 volts (S. R. Nassif, "Power Grid Analysis Benchmarks", ASP-DAC 2008). All nodes that chains of shorts join are
//! one node of the merged network. The definitions stand in `specs/Merging`.
#![tactic(auto)]

mod laws;
mod merge;
mod moved;

pub use laws::{bounds_of_groups, conflicts_differ, nothing_shorted, solutions_by_groups};
pub use merge::{GroupError, GroupNet, merge_net};
