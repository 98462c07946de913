//! The laws that the network of a grid does not rest on the rectangles in which its stacks stand, and that of a grid over one
//! domain not on the domain's region.
#![tactic(auto)]

mod laws;

pub use laws::{alike_grids_have_one_network, one_region_changes_no_network};
