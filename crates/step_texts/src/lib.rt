//! The texts of bounds over time: the certificate and the report of a high and a low list for each step.
//!
//! Units: voltages in yoctovolts; the report prints volts with nine places, rounded outward.
#![tactic(auto)]

mod certificate;
mod report;
mod step;

pub use certificate::certificate_of_steps;
pub use report::report_of_steps;
