//! The words by which a refusal of a drawing, of wiring or of an extraction is told.
//!
//! The error has places in lists; a designer reads names. `draw_words`, `wired_words` and `extract_words` give the refusal and its
//! things as one line without its end, as `RailLayer metal2` or `Stack NoCutFits metal1 6000 2800`.
#![tactic(auto)]

mod append;
mod drawing;
mod extraction;
mod name;
mod wiring;

pub use drawing::draw_words;
pub use extraction::extract_words;
pub use wiring::wired_words;
