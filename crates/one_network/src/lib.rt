//! Laws of extraction: a drawn grid has one network or one refusal, one list of limits, and one first node without
//! supply.
#![tactic(auto)]

mod laws;

pub use laws::{
    extracted_or_refused, one_first_unsupplied, one_list_of_limits, one_network,
    one_refusal_of_extraction,
};
