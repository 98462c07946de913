//! Runs of the top call, by their words.
use grid_net::Solver;
use outside::{Argv, Files, MemSink};
use pdn_signoff::run;
use std::alloc::{AllocError, Global};

/// What a run with these words, with bars between them, answers and prints, where this call on the sink fails.
pub(crate) fn ran<F: Files, V: Solver>(
    alloc: Global,
    words: &str,
    files: &mut F,
    failing_write: u64,
    solver: &mut V,
) -> Result<(u8, MemSink), AllocError> {
    let mut argv = Argv::new(alloc)?;
    for word in words.split('|') {
        argv.push(word)?;
    }
    let mut out = MemSink::new(alloc, vec![in alloc; failing_write]?)?;
    let status = run(alloc, &argv, files, &mut out, solver);
    Ok((status, out))
}
