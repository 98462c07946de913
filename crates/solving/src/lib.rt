//! A netlist signed off: from its bytes to the texts of a tight certificate and of its report.
//!
//! The netlist is read and its shorts are merged, the supply of the groups is tested, the merged network is certified out
//! of what a solver proposes, and both texts are made before anything is written. The definitions stand in `specs/`.
#![tactic(auto)]

mod laws;
mod sign;
mod signed;

pub use laws::netlists_are_solved_once;
pub use sign::{sign_off, unsupplied};
pub use signed::Signed;
