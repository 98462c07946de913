//! Several outputs, written one after the other.
#![tactic(auto)]

mod output;
mod writing;

pub use output::{Output, Unwritten};
pub use writing::write_each;
