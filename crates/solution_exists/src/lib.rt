//! The laws that the equations of a network have a solution, and only one.
//!
//! What a network and a solution are stands in the `specs/` of `grid_net`; here stands what it is that there is one:
//! `Existence`, for a network some of whose nodes are shorted `Shorted`, and for one some of whose nodes are joined by
//! resistances to held voltages `Branches`.
#![tactic(auto)]

mod certified;
mod laws;
mod shorts;

pub use certified::{a_certificate_supplies, bounds_are_in_order, worked_network};
pub use laws::{
    a_branched_solution_exists, a_branched_solution_is_unique, a_solution_exists,
    a_solution_is_unique, each_pad_holds, solutions_scale,
};
pub use shorts::{
    a_shorted_solution_exists, a_shorted_solution_is_unique, short_currents_are_free,
};
