//! Help: what clap makes of the table of commands.
use crate::parsed::command_for;
use crate::table::{COMMANDS, CommandText};
use clap::Command;
use std::alloc::{AllocError, Global};

/// What help says of all commands.
const LIMITS: &str =
    "A file that is read has at most 2^28 bytes. Each command prints one line and ends with a status.";

/// The help of `pdn`: its commands.
pub fn program_help(alloc: Global) -> Result<String, AllocError> {
    let mut program = Command::new(alloc, "pdn")
        .about("Power grid builder with certified IR-drop sign-off")
        .after_help(LIMITS)
        .subcommand_required(true)
        .disable_help_flag(true)
        .disable_help_subcommand(true);
    for text in &COMMANDS {
        let command = Command::new(alloc, text.word).about(text.about);
        program = program.subcommand(command)?;
    }
    program.render_help()
}

/// The help of a command: its options.
pub fn command_help(alloc: Global, text: &CommandText) -> Result<String, AllocError> {
    let mut command = command_for(alloc, text)?;
    command.render_help()
}
