ghost use Rattle.std.specs.Prelude.{◌≡◌, ◌≢◌, ◌<◌, AllPairs, IfErr, OnOk, length};
ghost use Rattle.outside.specs.Known.{WhereKnown};
ghost use Rattle.output_files.specs.Outputs.{texts, HoldEach, StopAt, FailsAt};

use crate::output::{Output, Unwritten};
use outside::{Files, write_whole};

/// Writes each of the outputs, whose files have different names, one after the other.
///
/// Error: the first output that could not be written. Those before it are whole, it was not made or holds the first of its
/// text, and no later one was made.
pub fn write_each<F: Files>(files: &mut F, outputs: &[Output<'_>]) -> Result<(), Unwritten>
    requires { AllPairs (λ a b. a.0 ≢ b.0) (texts outputs.now) }
    ensures written { OnOk result (WhereKnown (HoldEach (texts outputs.now)) (F.known files.old) (F.known files.new)) }
    ensures calm { OnOk result (F.counts files.new ≡ F.counts files.old) }
    ensures place { IfErr result (λ e. e.place < length outputs.now) }
    ensures stopped { IfErr result (λ e.
        WhereKnown (StopAt (texts outputs.now) e.place) (F.known files.old) (F.known files.new)) }
    ensures fault { IfErr result (λ e.
        FailsAt (texts outputs.now) e (F.known files.old) (F.counts files.old) (F.counts files.new)) }
{
    for (place, output) in outputs.iter().enumerate() {
        if let Err(error) = write_whole(files, output.file, output.text) {
            return Err(Unwritten { place, error });
        }
    }
    Ok(())
}
