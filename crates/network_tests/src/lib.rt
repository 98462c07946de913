//! Tests of the network, of its certificate and of the report.
//!
//! They stand in a crate of their own, since a crate that has tests is proved once more with them.
#![tactic(auto)]

#[cfg(test)]
mod bound_check_tests;
#[cfg(test)]
mod bound_make_tests;
#[cfg(test)]
mod em_rules_tests;
#[cfg(test)]
mod grid_net_tests;
#[cfg(test)]
mod same;
#[cfg(test)]
mod signoff_report_tests;
#[cfg(test)]
mod step_bounds_tests;
