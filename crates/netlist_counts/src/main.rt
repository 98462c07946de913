//! `netlist_counts FILE`: reads a netlist, and prints how many nodes and resistors its network has.
//!
//! It prints nothing of the names and numbers, so that its time is that of the reader: `bench/netlist_speed` measures it.
#![tactic(auto)]

use grid_net::Net;
use outside::{LONGEST_TEXT, StdFiles, read_whole};
use spice_grid::read_netlist;
use std::alloc::Global;
use std::process::ExitCode;
use std::rt::Env;
use std::{env, io};

/// The exit status where the file cannot be read.
const NOT_READ: u8 = 3;

/// The exit status where the text has no network.
const REFUSED: u8 = 4;

/// How much a network holds.
#[derive(Clone, Copy)]
struct Counts {
    nodes: u32,
    resistors: usize,
}

/// The word of the command line with this number, or an empty one.
fn word_at(alloc: Global, rt: &(impl Env + AllocGlobal), number: usize) -> io::Result<String> {
    for word in env::args(rt)?.skip(number) {
        return Ok(String::from_str(alloc, word.as_str())?);
    }
    Ok(String::new(alloc))
}

fn counts_of(net: &Net) -> Counts {
    Counts {
        nodes: net.nodes(),
        resistors: net.resistors().len(),
    }
}

/// What the reader of netlists makes of a text.
fn counts_in(alloc: Global, text: &[u8]) -> Option<Counts> {
    match read_netlist(alloc, text) {
        Ok(named) => Some(counts_of(&named.net)),
        Err(_) => None,
    }
}

fn main(rt: HostRuntime) -> io::Result<ExitCode> {
    let alloc = rt.alloc();
    let name = word_at(alloc, &rt, 1)?;
    let mut files = StdFiles::new(alloc, &rt);
    let Ok(text) = read_whole(alloc, &mut files, name.as_str(), LONGEST_TEXT) else {
        println!(rt; "not read")?;
        return Ok(ExitCode::from(NOT_READ));
    };
    let Some(found) = counts_in(alloc, &text) else {
        println!(rt; "refused")?;
        return Ok(ExitCode::from(REFUSED));
    };
    println!(rt; "{} nodes {} resistors", found.nodes, found.resistors)?;
    Ok(ExitCode::SUCCESS)
}
