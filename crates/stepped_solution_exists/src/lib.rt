//! The laws that the equations of a network over time steps have a solution, and only one.
//!
//! What a solution over time steps is stands in the `specs/` of `step_bounds`; here stands what it is that there is one
//! (`Existence`).
#![tactic(auto)]

mod laws;

pub use laws::{a_stepped_solution_exists, a_stepped_solution_is_unique};
