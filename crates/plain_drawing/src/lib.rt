//! Crossings and touches by plain, slow programs, pair by pair, as their definitions have them. Tests compare the drawing
//! with them.
#![tactic(auto)]

mod adding;
mod crossing;
mod layers;
mod metal;
mod order;
mod same;
mod sites;
mod touches;

pub use sites::sites_by_pairs;
pub use touches::first_touch_by_pairs;
