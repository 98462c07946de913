//! The law that the wiring that is built over one domain is signed off with the netlist of the build.
#![tactic(auto)]

mod laws;

pub use laws::built_wiring_is_signed_off_alike;
