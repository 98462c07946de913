//! The laws that what is read has names of LEF and DEF: a design its own, a technology those of its layers and rules.
#![tactic(auto)]

mod laws;

pub use laws::{read_designs_have_names, read_techs_have_names};
