//! The answers of the program, each with its exit status and the one line that is printed.
#![tactic(auto)]

mod answer;
mod built;
mod kind;
mod line;

pub use answer::Answer;
pub use built::Built;
pub use kind::TextKind;
