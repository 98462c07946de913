//! The words of a netlist, as a source of the engine that reads texts.
//!
//! A netlist goes by lines: `line` cuts a text into them, `word` a line into words, `title` tells whether the first one
//! is the title, `class` what each other line is, and `netlist` gives the words of the cards, each card with its end.
#![tactic(auto)]

mod class;
mod laws;
mod letter;
mod line;
mod netlist;
mod title;
mod word;

pub use laws::words_of_lines;
pub use letter::{Letter, is_dc, is_mark, letter_of};
pub use netlist::NetlistWords;
