//! Netlists with shorts: the network in which all nodes that chains of shorts join are one node.
//!
//! The definitions stand in `specs/`: `Merged`, `Refusal`, and what is merged in `Netlist`. What the solutions of the merged
//! network mean for the nodes as they were written stands in the laws of `group_net`.
#![tactic(auto)]

mod caps;
mod laws;
mod merged;
mod names;

pub use laws::merged_names;
pub use merged::{MergeError, Merged, merge};
