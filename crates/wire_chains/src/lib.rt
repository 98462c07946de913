//! Stacks of vias that another tool placed: the maximal chains of vias of one net at one place.
#![tactic(auto)]

mod chain;
mod level;
mod run;
mod via;

pub use chain::Chain;
pub use run::{MOST_LINKS, chains};
pub use via::ViaAt;
