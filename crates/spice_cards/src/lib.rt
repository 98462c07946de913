//! Netlists: the cards of a power grid, as SPICE writes them and as Nassif's power grid benchmarks use them.
//!
//! A netlist is read by the one engine of `reading` over the words of `netlist_words`, to the letter of the definitions in `specs/`: `sort`
//! has the sorts of words, `section` and `rule` say which units may follow, `value` has what a word says, `fault` what it says or why it is
//! refused, `number` which numbers stand in which places, `card` has the words after the nodes, `record` has what the cards say, `held` takes one
//! card more into it, `format` is the whole as the engine takes it, and `read` is the call.
#![tactic(auto)]

mod card;
mod error;
mod fault;
mod format;
mod held;
mod laws;
mod number;
mod read;
mod record;
mod rule;
mod section;
mod sort;
mod value;

pub use error::{CardsError, CardsKind};
pub use laws::{netlists_have_one_reading, node_names_are_words, whole_cards_are_read};
pub use number::{AMPERES_LIMIT, FARADS_LIMIT, OHMS_LIMIT, VOLTS_LIMIT};
pub use read::read_cards;
pub use record::{Capacitor, Cards};
