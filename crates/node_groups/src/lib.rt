//! Nodes that shorts join: each group of a netlist's nodes between which chains of shorts lead.
//!
//! The definitions stand in `specs/`: `Joined` (a chain of shorts) and `Groups`. What only the code's own proofs speak of
//! stands in `specs/inside/`.
#![tactic(auto)]

mod forest;
mod groups;

pub use groups::{Groups, group_nodes};
