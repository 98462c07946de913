//! `pdn`: a power grid builder with certified IR-drop sign-off.
//!
//! The program hands real files, standard output, a solver and the words after its name to `pdn_signoff::run`, and ends
//! with the status that it answers.
#![tactic(auto)]

use multilevel_solve::Multilevel;
use outside::{Argv, StdFiles, StdSink};
use std::alloc::{AllocError, Global};
use std::process::ExitCode;
use std::rt::Env;
use std::{env, io};

/// The exit status where there is no memory for the words.
const WANT: u8 = 10;

/// The words after the program's name. Where one is not UTF-8 they are none, so that they name no command.
fn words(alloc: Global, rt: &(impl Env + AllocGlobal)) -> Result<Argv, AllocError> {
    let mut words = Argv::new(alloc)?;
    match env::args(rt) {
        Ok(args) => {
            for word in args.skip(1) {
                words.push(word.as_str())?;
            }
            Ok(words)
        }
        Err(error) if error.kind() == io::ErrorKind::OutOfMemory => Err(AllocError),
        Err(_) => Ok(words),
    }
}

fn main(rt: HostRuntime) -> ExitCode {
    let alloc = rt.alloc();
    let Ok(words) = words(alloc, &rt) else {
        return ExitCode::from(WANT);
    };
    let mut files = StdFiles::new(alloc, &rt);
    let mut out = StdSink::new(&rt);
    let mut solver = Multilevel::new();
    ExitCode::from(pdn_signoff::run(alloc, &words, &mut files, &mut out, &mut solver))
}
