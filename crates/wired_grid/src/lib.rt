//! The grid of wiring that another tool drew.
#![tactic(auto)]

mod error;
mod wired;

pub use error::WiredError;
pub use wire_limits::WireCount;
pub use wired::wired_grid;
