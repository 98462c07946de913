//! Laws of written DEF: that the words of its lines are words of a text, and that the numbers in it are read as
//! themselves.
#![tactic(auto)]

mod laws;

pub use laws::{written_lines_are_words, written_numbers_are_read};
