//! The shares of a block's load over its pins of a net.
#![tactic(auto)]

mod share;
mod sharing;

pub use share::Share;
pub use sharing::shares;
