//! The judging of two texts.
ghost use Rattle.judging.specs.Judging.{Judges};

use crate::network::read_network;
use crate::tested::judge_lists;
use answers::Answer;
use std::alloc::Global;

/// Judges the text of a netlist and then that of a certificate; their files have these names.
///
/// The order is: the netlist's text, its shorts are merged, the certificate's text, the test. The first refusal is
/// answered. A netlist of which some node has no supply is judged as any other.
pub fn judge(
    alloc: Global,
    netlist: &str,
    netlist_text: &[u8],
    certificate: &str,
    certificate_text: &[u8],
) -> Answer
    ensures { Judges netlist.now certificate.now netlist_text.now certificate_text.now result }
{
    match read_network(alloc, netlist, netlist_text) {
        Ok(merged) => judge_lists(alloc, &merged, certificate, certificate_text),
        Err(answer) => answer,
    }
}
