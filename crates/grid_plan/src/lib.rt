//! The plan of a power grid: what a script says, resolved against technology, cells and design.
//!
//! Names become places in lists, lengths become units of the drawing, and all that can be refused before a line is drawn is
//! refused here. `plan` makes it.
#![tactic(auto)]

mod blocks;
mod commands;
mod domains;
mod lengths;
mod nets;
mod order;
mod planning;
mod record;
mod regions;
mod resolve;
mod rows;
mod span;
mod tables;
mod turned;
mod units;

pub use planning::plan;
pub use record::{GridAt, Plan, Rails, Reach, RingAt, Straps};
