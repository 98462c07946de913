//! What is asked of a network before its steps are certified.
ghost use Rattle.std.specs.Prelude.{◌≡◌, length};
ghost use Rattle.stepping.specs.inside.Tested.{IsTested};

use crate::refused::floating;
use answers::Answer;
use short_merge::Merged;
use solving::unsupplied;
use std::alloc::Global;
use step_bounds::first_floating;

/// The greatest number of steps times nodes.
pub const MOST_ENTRIES: u64 = 5_000_000;

/// The answer to a network that cannot be stepped: a capacitor floats, there are too many steps for its nodes, or a node is
/// not supplied.
pub(crate) fn refused_network(alloc: Global, merged: &Merged, steps: u32) -> Option<Answer>
    requires { length merged.now.names ≡ merged.now.net.nodes }
    ensures { IsTested merged.now steps result }
{
    let names = merged.names.as_slice();
    if let Some(node) = first_floating(&merged.net, merged.caps.as_slice()) {
        return Some(floating(alloc, names, node));
    }
    let entries = steps as u64 * merged.net.nodes() as u64;
    if entries > MOST_ENTRIES {
        return Some(Answer::TooManySteps(entries));
    }
    match merged.net.supply() {
        Ok(()) => None,
        Err(node) => Some(unsupplied(alloc, names, node)),
    }
}
