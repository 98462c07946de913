//! Laws of wired grids: wiring gives one grid over a design, or is refused for one reason.
#![tactic(auto)]

mod laws;

pub use laws::{one_refusal_of_wiring, one_wired_grid, wired_grids_have_names, wired_or_refused};
