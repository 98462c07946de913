//! The greatest direct current that a wire and an array of cuts may carry, and whether a current keeps it.
//!
//! The densities are those of `DCCURRENTDENSITY AVERAGE` (LEF/DEF 5.8 Language Reference, "Layer (Routing)" and "Layer
//! (Cut)"). A limit and a current are in femtoamperes.
#![tactic(auto)]

mod judging;
mod laws;
mod limits;
mod tables;
mod words;

pub use judging::verdict;
pub use laws::{ends_tell, one_limit, one_verdict};
pub use limits::{cut_limit, wire_limit};
pub use words::Verdict;
