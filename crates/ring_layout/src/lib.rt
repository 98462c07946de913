//! The rings around a core.
#![tactic(auto)]

mod drawing;
mod rule;

pub use drawing::rings;
pub use rule::RingRule;
