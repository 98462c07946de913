//! What it is to read a text, and the one engine that reads the texts of all formats.
#![tactic(auto)]

mod engine;
mod error;
mod grammar;
mod items;
mod keyword;
mod laws;
mod machine;
mod numbered;
mod patterns;
mod reader;
mod refusal;
mod rule;
mod source;
mod stop;
mod word;

pub use engine::read_words;
pub use error::{ErrorKind, ReadError};
pub use grammar::Grammar;
pub use items::{read_into, read_text, read_text_by_hand};
pub use laws::{texts_have_one_result, whole_units_are_read};
pub use numbered::Numbered;
pub use reader::{Reader, read_by_hand};
pub use refusal::{Cause, Found, Refusal, told_at};
pub use rule::Rule;
pub use source::Source;
pub use stop::{Step, Stop};
pub use word::{Form, Heard, Word, last_heard, last_word};
