//! Laws of lists on which several crates stand, whatever the lists hold.
#![tactic(auto)]

mod laws;

pub use laws::{among_is_membership, pairs_outlast_order};
