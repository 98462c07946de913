//! Rectangles with edges along the axes, and runs of unit cells along a line.
#![tactic(auto)]

mod direction;
mod drawn;
mod laws;
mod rect;
mod run;
mod sweep;

pub use direction::{Axis, Orient};
pub use drawn::{Drawn, Shape};
pub use laws::maximal_runs_are_unique;
pub use rect::{GREATEST_COORDINATE, Rect, grown, meets, overlaps};
pub use run::Run;
pub use sweep::runs;
