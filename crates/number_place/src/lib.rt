//! Numbers in the places of a format: one call reads a text as a number of the form, the places, the limit and the sign
//! that the place asks, or says why it is refused there.
#![tactic(auto)]

mod laws;
mod number;
mod place;

pub use laws::{texts_have_one_number, values_fit_their_places};
pub use number::{number_at, small_number_at};
pub use place::{NumberForm, NumberPlace, NumberSign, Refused};
