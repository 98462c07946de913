//! What the other crates see of the outside: files and sinks with their written meaning, names, words and places in
//! a text.
//!
//! [`Files`] and [`Sink`] say what a file and a stream of written bytes mean, and count what failed.
//! [`read_whole`], [`write_whole`] and [`send`] go over them with whole texts.
//! [`MemFiles`] and [`MemSink`] are the outside in memory, with calls that fail where they are listed;
//! [`SoundFiles`] and [`SoundSink`] never fail; [`StdFiles`] and [`StdSink`] are real files and standard output.
#![tactic(auto)]

mod argv;
mod calls;
mod directory;
mod entries;
mod files;
mod mem_files;
mod mem_sink;
mod name;
mod place;
mod sink;
mod sound;
mod std_files;
mod std_sink;
mod whole;

pub use argv::Argv;
pub use files::{Files, Refusal};
pub use mem_files::MemFiles;
pub use mem_sink::MemSink;
pub use name::Name;
pub use place::Place;
pub use sink::Sink;
pub use sound::{SoundFiles, SoundSink, sound_counts_never_rise};
pub use std_files::StdFiles;
pub use std_sink::StdSink;
pub use whole::{LONGEST_TEXT, ReadError, WriteError, read_whole, send, write_whole};
