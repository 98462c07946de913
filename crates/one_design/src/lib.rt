//! Laws of building and of signing off: five texts have one design, or one answer that tells why nothing is built of them;
//! so those of a sign-off.
#![tactic(auto)]

mod laws;

pub use laws::{texts_have_one_design, texts_have_one_set_of_records, texts_have_one_wired_design};
