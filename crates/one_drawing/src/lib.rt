//! Laws of drawing: a script draws one grid over a design, or is refused for one reason.
#![tactic(auto)]

mod laws;

pub use laws::{drawn_or_refused, one_drawing, one_refusal_of_drawing, read_commands_stand_apart};
