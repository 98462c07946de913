// Standard output. What was written is not known, and that it gets there is trusted.
ghost use Rattle.std.specs.Prelude.{◌≡◌, ◌≤◌, ◌<◌, None, length, IfOk};

use crate::calls::one_more;
use crate::std_files::refusal_of;
use crate::{Refusal, Sink};
use std::io;
use std::io::ErrorKind;
use std::marker::Model;

/// The standard output of a runtime.
#[derive(Drop)]
pub struct StdSink<P: Print> {
    out: P,
    faults: u64,
}

impl<P: Print> Model for StdSink<P> {
    ghost use Rattle.std.specs.Prelude.{ℕ};

    ghost Value = { ℕ };

    ghost view = { λ sink. sink.faults };
}

impl<P: Print> StdSink<P> {
    /// Standard output, with no fault so far.
    pub fn new(out: P) -> StdSink<P>
        ensures { result ≡ 0 }
    {
        StdSink { out, faults: 0 }
    }
}

impl<P: Print> Sink for StdSink<P> {
    ghost known = { λ _. None };

    ghost faults = { λ faults. faults };

    fn write(&mut self, piece: &[u8]) -> Result<usize, Refusal> {
        match write_some(&self.out, piece) {
            Ok(count) => Ok(count),
            Err(error) => {
                self.faults = one_more(self.faults);
                Err(refusal_of(&error))
            }
        }
    }
}

// Writes the first bytes of a piece. That none is taken of some is an error.
fn write_some<P: Print>(out: &P, piece: &[u8]) -> io::Result<usize>
    ensures within { IfOk result (λ n. n ≤ length piece.now) }
    ensures some { IfOk result (λ n. 0 < length piece.now → 0 < n) }
{
    let count = out.write_some(piece)?;
    if count == 0 && !piece.is_empty() {
        return Err(ErrorKind::WriteZero.into());
    }
    Ok(count)
}
