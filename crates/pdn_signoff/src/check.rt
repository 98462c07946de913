//! The command `check`: two files are read, and their texts judged.
ghost use Rattle.std.specs.Prelude.{◌≡◌};
ghost use Rattle.pdn_signoff.specs.Check.{Answers};

use crate::faults::unread;
use answers::Answer;
use judging::{answers_to_texts, judge};
use outside::{Files, LONGEST_TEXT, read_whole};
use std::alloc::Global;

/// Reads both files, the netlist first, and then judges their texts.
pub fn check<F: Files>(alloc: Global, files: &mut F, netlist: &str, certificate: &str) -> Answer
    ensures answers { Answers
        (record { known = F.known files.old; counts = F.counts files.old })
        (record { known = F.known files.new; counts = F.counts files.new })
        netlist.now certificate.now result }
    ensures kept { F.known files.new ≡ F.known files.old }
{
    answers_to_texts();
    let netlist_text = match read_whole(alloc, files, netlist, LONGEST_TEXT) {
        Ok(text) => text,
        Err(error) => return unread(alloc, error, netlist),
    };
    let certificate_text = match read_whole(alloc, files, certificate, LONGEST_TEXT) {
        Ok(text) => text,
        Err(error) => return unread(alloc, error, certificate),
    };
    judge(
        alloc,
        netlist,
        &netlist_text,
        certificate,
        &certificate_text,
    )
}
