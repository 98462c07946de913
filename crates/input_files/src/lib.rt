//! Several inputs, read one after the other.
#![tactic(auto)]

mod reading;
mod unread;

pub use reading::read_each;
pub use unread::Unread;
