//! Where the points and rectangles of a macro lie once it is placed: turned by its orientation, and moved to its place.
#![tactic(auto)]

mod laws;
mod placing;
mod turned;

pub use laws::places_are_apart;
pub use placing::{box_in_place, point_in_place, rect_in_place};
pub use turned::{MOST_LENGTH, Placed, Point};
