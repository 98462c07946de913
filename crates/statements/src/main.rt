//! `statements [by-hand] FILE`: counts the statements of a text, or says at which word it is refused.
#![tactic(auto)]

mod by_hand;
mod fault;
mod format;
mod read;
mod record;
mod rule;
mod section;
mod sort;

use by_hand::count_by_hand;
use fault::Kind;
use outside::{LONGEST_TEXT, StdFiles, read_whole};
use read::count_statements;
use reading::Refusal;
use std::alloc::{AllocError, Global};
use std::process::ExitCode;
use std::rt::Env;
use std::{env, io};

#[cfg(test)]
mod tests;

/// The word of the command line with this number, or an empty one.
fn word_at(alloc: Global, rt: &(impl Env + AllocGlobal), number: usize) -> io::Result<String> {
    for word in env::args(rt)?.skip(number) {
        return Ok(String::from_str(alloc, word.as_str())?);
    }
    Ok(String::new(alloc))
}

/// The line that tells what a text is.
fn line(alloc: Global, counted: Result<u64, Refusal<Kind>>) -> Result<String, AllocError> {
    match counted {
        Ok(count) => format!(in alloc; "{count}"),
        Err(Refusal::At(place, _)) => format!(in alloc; "refused {}:{}", place.line, place.word),
        Err(Refusal::Want) => Err(AllocError),
    }
}

fn main(rt: HostRuntime) -> io::Result<ExitCode> {
    let alloc = rt.alloc();
    let first = word_at(alloc, &rt, 1)?;
    let by_hand = first.as_str() == "by-hand";
    let name = if by_hand {
        word_at(alloc, &rt, 2)?
    } else {
        first
    };
    let mut files = StdFiles::new(alloc, &rt);
    let Ok(text) = read_whole(alloc, &mut files, name.as_str(), LONGEST_TEXT) else {
        println!(rt; "not read")?;
        return Ok(ExitCode::from(3));
    };
    let counted = if by_hand {
        count_by_hand(&text)
    } else {
        count_statements(alloc, &text)
    };
    let told = line(alloc, counted)?;
    println!(rt; "{told}")?;
    Ok(ExitCode::SUCCESS)
}
