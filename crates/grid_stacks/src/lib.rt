//! The stacks of a grid: where pieces of one net cross on the layers of a connect, and their arrays of cuts.
#![tactic(auto)]

mod bar;
mod between;
mod connect;
mod crossed;
mod crossing;
mod inner;
mod laws;
mod lying;
mod over;
mod places;
mod stacking;

pub use connect::{Connect, Site};
pub use crossed::MOST_STACKS;
pub use laws::{one_site_at_a_place, stacks_can_be_asked_for};
pub use places::standing;
pub use stacking::{MOST_PIECES, stacks, stacks_at, without_sheet};
