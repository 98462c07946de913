//! The commands of a script, their options, and the values that these take: the table that a reader has beside the
//! manual of OpenROAD's PDN module.
//!
//! `command` and `option` have the words, `table` says which options a command has and what their values are, `list` takes
//! apart a word that is a list, `number` reads a number, and `value` tells whether a word may be the value of an option.
#![tactic(auto)]

mod command;
mod laws;
mod list;
mod number;
mod option;
mod table;
mod value;

pub use command::{Command, command_named};
pub use laws::{numbers_have_one_value, numbers_keep_limits, values_have_one_refusal};
pub use list::{Part, first_part, parts_of};
pub use number::{COUNT_LIMIT, LENGTH_LIMIT, Quantity, list_numbers, number_in};
pub use option::{ScriptOption, option_named};
pub use table::{Counts, Need, Row, ValueForm, form_of, need_of, options_of};
pub use value::{value_refused, value_told};
