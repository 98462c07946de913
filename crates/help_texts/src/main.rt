//! Prints the help of `pdn` and of each of its commands, each after a line `== ` with its name.
//!
//! The program `pdn` prints one line alone; what this prints is kept in the file `stdout`, from which the launcher shows
//! help.
#![tactic(auto)]

use command_words::{COMMANDS, command_help, program_help};
use std::io;

fn main(rt: HostRuntime) -> io::Result<()> {
    let alloc = rt.alloc();
    let help = program_help(alloc)?;
    println!(rt; "== pdn")?;
    print!(rt; "{help}")?;
    for command in &COMMANDS {
        let help = command_help(alloc, command)?;
        println!(rt; "== {}", command.word)?;
        print!(rt; "{help}")?;
    }
    Ok(())
}
