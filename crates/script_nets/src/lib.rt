//! The law that a script that is read names no net as the power and as the ground of a domain.
#![tactic(auto)]

mod laws;

pub use laws::read_scripts_have_two_nets;
