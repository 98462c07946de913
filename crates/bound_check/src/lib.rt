//! The test of a certificate: whether two lists of voltages bound every solution of a network, and what it proves of
//! the solutions. `Certified` keeps a network with a tight certificate, and tells the bounds that are printed.
//!
//! What a network, a solution and a certificate are stands in the `specs/` of `grid_net`. Here stand which failing test
//! a refusal names (`Failing`, `Loose`) and what is printed (`Certified`).
#![tactic(auto)]

mod by_resistor;
mod certificate;
mod certified;
mod fails;
mod flows;
mod laws;
mod sums;
mod tight;
mod values;

pub use by_resistor::flows_from_ends;
pub use certificate::{is_certificate, is_certificate_in};
pub use certified::{Certified, NANOAMPERE, NANOVOLT};
pub use fails::{Fails, Side};
pub use laws::{
    a_refusal_is_true, a_search_goes_up, maximum_principle, no_failing_test, one_sided_principle,
    worked_example, worked_refusals,
};
pub use tight::is_tight;
