//! Which rows and components a voltage domain owns, its core, the reach of its straps, and what the regions of other
//! domains leave of a line.
#![tactic(auto)]

mod cores;
mod line;
mod owner;
mod reach;

pub use cores::{core_of, one_core};
pub use line::add_runs;
pub use owner::{domain_at, lies_across, lies_in, rows_of};
pub use reach::{grown_regions, strap_reach};
