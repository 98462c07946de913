//! The text of a certificate judged for a network that stands.
ghost use Rattle.std.specs.Prelude.{◌≡◌, ◌<◌, ◌⊎◌, ℕ, List, Some, length, slice_get};
ghost use Rattle.answers.specs.declared.answer.Answer.TheVariants.{Want, NotCertified};
ghost use Rattle.grid_net.specs.Limits.{IsBuilt};
ghost use Rattle.judging.specs.Texts.{GivesOne};
ghost use Rattle.judging.specs.inside.Lists.{JudgesLists};

use crate::refused::certificate_refused;
use answers::Answer;
use bound_check::{Fails, is_certificate_in};
use certificate_file::{read_certificate, texts_have_one_certificate};
use outside::Name;
use short_merge::Merged;
use std::alloc::Global;

/// Judges the text of a certificate for a network of groups and their names.
pub(crate) fn judge_lists(
    alloc: Global,
    merged: &Merged,
    certificate: &str,
    certificate_text: &[u8],
) -> Answer
    requires { length merged.now.names ≡ merged.now.net.nodes }
    ensures judged { JudgesLists certificate.now merged.now certificate_text.now result }
    ensures one { GivesOne merged.now.names certificate_text.now }
    ensures built { IsBuilt merged.now.net }
{
    let names = merged.names.as_slice();
    texts_have_one_certificate(names);
    let nodes = merged.net.nodes();
    let lists = match read_certificate(alloc, certificate_text, names) {
        Ok(lists) => lists,
        Err(error) => return certificate_refused(alloc, certificate, error),
    };
    match is_certificate_in(
        alloc,
        &merged.net,
        lists.high.as_slice(),
        lists.low.as_slice(),
    ) {
        Ok(()) => Answer::Certified(nodes),
        Err(fails) => not_certified(alloc, names, fails),
    }
}

/// The answer to a certificate whose first failing test is this one.
fn not_certified(alloc: Global, names: &[Name], fails: Fails) -> Answer
    requires { fails.node < length names.now }
    ensures { (result ≡ Want)
        ⊎ ((node : List ℕ) × (slice_get names.now fails.node ≡ Some node)
        × (result ≡ NotCertified node fails.side fails.found)) }
{
    match Name::new(alloc, names[fails.node as usize].bytes()) {
        Ok(node) => Answer::NotCertified(node, fails.side, fails.found),
        Err(_) => Answer::Want,
    }
}
