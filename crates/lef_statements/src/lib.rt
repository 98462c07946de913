//! What the readers of LEF and DEF pass over: statements to their `;`, sections to `END` and their name, groups to
//! `END`, and what other tools have added from `BEGINEXT` to `ENDEXT`.
//!
//! A reader passes over one word after the other, and keeps what it passes over as a `Passing`; so a section of any
//! length takes no memory.
#![tactic(auto)]

mod open_name;
mod passing;
mod word;

pub use open_name::OpenName;
pub use passing::Passing;
pub use word::is_word;
