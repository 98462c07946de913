//! Several outputs, written one after the other, and the answer where one of them was not.
ghost use Rattle.std.specs.Prelude.{◌≡◌, IfErr, OnOk};
ghost use Rattle.command_words.specs.Words.{AreApart};
ghost use Rattle.output_files.specs.Outputs.{texts, names};
ghost use Rattle.pdn_signoff.specs.Outputs.{AreWritten, Stops};

use crate::faults::unwritten;
use answers::Answer;
use output_files::{Output, write_each};
use outside::Files;
use std::alloc::Global;

/// Writes each of the outputs, whose files have different names, one after the other.
///
/// Error: the answer to the first output that was not written.
pub(crate) fn write_outputs<F: Files>(
    alloc: Global,
    files: &mut F,
    outputs: &[Output<'_>],
) -> Result<(), Answer>
    requires { AreApart (names (texts outputs.now)) }
    ensures written { OnOk result (AreWritten
        (record { known = F.known files.old; counts = F.counts files.old })
        (record { known = F.known files.new; counts = F.counts files.new }) (texts outputs.now)) }
    ensures calm { OnOk result (F.counts files.new ≡ F.counts files.old) }
    ensures stopped { IfErr result (Stops
        (record { known = F.known files.old; counts = F.counts files.old })
        (record { known = F.known files.new; counts = F.counts files.new }) (texts outputs.now)) }
{
    match write_each(files, outputs) {
        Ok(()) => Ok(()),
        Err(stopped) => Err(unwritten(alloc, stopped.error, outputs[stopped.place].file)),
    }
}
