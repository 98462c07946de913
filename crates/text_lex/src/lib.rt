//! The words of a text, each with its form and its place, in the three ways in which the formats split their texts.
//!
//! `word` has the types, `front` finds what stands in front of a text, `words` goes over a text word by word, `name`
//! tells whether bytes are a name, and `laws` says what holds of all texts. The words of a text are defined in
//! `specs/Split`: the pieces of which it is made, and the words among them.
#![tactic(auto)]

mod front;
mod laws;
mod name;
mod word;
mod words;

pub use laws::{forms_of_modes, one_split, places_of_words};
pub use name::is_name;
pub use word::{Form, LexError, LexKind, Mode, Word};
pub use words::Words;
