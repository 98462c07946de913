//! What a script draws over a design: the shapes of its straps, rails and rings, and the whole grid.
#![tactic(auto)]

mod drawing;
mod reach;
mod shaping;
mod site;

pub use drawing::draw;
pub use shaping::shapes;
