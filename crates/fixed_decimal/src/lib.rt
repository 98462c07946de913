//! Decimal numbers in texts: a text is read into a whole number of units of 10^-places, and such a whole number is
//! printed.
#![tactic(auto)]

mod decimal;
mod digits;
mod error;
mod integer;
mod laws;
mod printer;
mod reader;
mod round;
mod scale;
mod short;
mod sign;
mod split;

pub use error::DecimalError;
pub use integer::read_integer;
pub use laws::{
    decimals_are_spice_numbers, numbers_are_longest, numbers_are_words, printed_values_read_back,
    roundings_are_unique, texts_have_one_answer, texts_have_one_value, values_keep_signs,
};
pub use printer::{print, print_down, print_up};
pub use reader::{read, read_spice};
pub use short::is_short;
pub use sign::is_negative;
