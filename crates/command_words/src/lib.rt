//! The words of the command line of `pdn`: which commands there are, with which options, and which words are those of
//! none.
#![tactic(auto)]

mod apart;
mod build;
mod command;
mod file_name;
mod generate;
mod help;
mod number;
mod parsed;
mod settings;
mod short;
mod signoff;
mod step;
mod table;

pub use command::{Command, WordsError, read, words_have_one_command};
pub use file_name::FileName;
pub use help::{command_help, program_help};
pub use table::{COMMANDS, CommandText, OptionText};
