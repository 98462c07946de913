//! One block of cells, from whose front spans are cut without taking more memory.
#![tactic(auto)]

mod laws;
mod pairs;
mod region;
mod span;

pub use laws::{spans_never_overlap, writes_stay_in_their_span};
pub use region::Region;
pub use span::Span;
