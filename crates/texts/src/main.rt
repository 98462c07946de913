//! `texts FORMAT FILE`: reads a file by the reader of its format, for tests. It prints the record in the canonical form
//! that docs/READING.md shows and ends with 0, or prints `<line>:<word>: <Kind>` and ends with 1.
//!
//! Another format is a module with a function like `bias::told`, and an arm in `told`.
#![tactic(auto)]

mod bias;
mod blocks;
mod cells;
mod design;
mod line;
mod netlist;
mod script;
mod tech;
mod waves;
mod wires;

use outside::{LONGEST_TEXT, StdFiles, StdSink, read_whole, send};
use std::alloc::{AllocError, Global};
use std::process::ExitCode;
use std::rt::Env;
use std::{env, io};

/// The exit status at a record.
const RECORD: u8 = 0;

/// The exit status at a refusal.
const REFUSED: u8 = 1;

/// The exit status where the words are no format and a file that can be read.
const USAGE: u8 = 64;

/// The exit status at want of memory.
const WANT: u8 = 10;

/// What is printed of a text, and the exit status.
#[derive(Drop)]
pub(crate) struct Printed {
    pub(crate) text: Vec<u8>,
    pub(crate) status: u8,
}

/// The word of the command line with this number, or an empty one.
fn word_at(alloc: Global, rt: &(impl Env + AllocGlobal), number: usize) -> io::Result<String> {
    for word in env::args(rt)?.skip(number) {
        return Ok(String::from_str(alloc, word.as_str())?);
    }
    Ok(String::new(alloc))
}

/// What a text of the format is, or None where the format is not known.
fn told(alloc: Global, format: &str, text: &[u8]) -> Result<Option<Printed>, AllocError> {
    if format == "bias" {
        return Ok(Some(bias::told(alloc, text)?));
    }
    if format == "blocks" {
        return Ok(Some(blocks::told(alloc, text)?));
    }
    if format == "cells" {
        return Ok(Some(cells::told(alloc, text)?));
    }
    if format == "netlist" {
        return Ok(Some(netlist::told(alloc, text)?));
    }
    if format == "script" {
        return Ok(Some(script::told(alloc, text)?));
    }
    if format == "def" {
        return Ok(Some(design::told(alloc, text)?));
    }
    if format == "placed" {
        return Ok(Some(design::placed(alloc, text)?));
    }
    if format == "lef_tech" {
        return Ok(Some(tech::told(alloc, text)?));
    }
    if format == "waves" {
        return Ok(Some(waves::told(alloc, text)?));
    }
    if format == "wires" {
        return Ok(Some(wires::told(alloc, text)?));
    }
    Ok(None)
}

fn main(rt: HostRuntime) -> io::Result<ExitCode> {
    let alloc = rt.alloc();
    let format = word_at(alloc, &rt, 1)?;
    let name = word_at(alloc, &rt, 2)?;
    let mut files = StdFiles::new(alloc, &rt);
    let Ok(text) = read_whole(alloc, &mut files, name.as_str(), LONGEST_TEXT) else {
        return Ok(ExitCode::from(USAGE));
    };
    let Ok(answer) = told(alloc, format.as_str(), &text) else {
        return Ok(ExitCode::from(WANT));
    };
    let Some(answer) = answer else {
        return Ok(ExitCode::from(USAGE));
    };
    let mut out = StdSink::new(&rt);
    match send(&mut out, &answer.text) {
        Ok(()) => Ok(ExitCode::from(answer.status)),
        Err(_) => Ok(ExitCode::from(USAGE)),
    }
}
