//! Five texts have one design that is built of them, whether over blocks or not, or one answer that tells why nothing is.
#![tactic(auto)]

mod laws;

pub use laws::texts_have_one_build;
