//! The law that no two layers of one kind and no two via rules of a technology that is read have one name.
#![tactic(auto)]

mod laws;

pub use laws::read_techs_have_their_own_names;
