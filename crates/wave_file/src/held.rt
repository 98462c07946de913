//! What has been read of a wave file.
//!
//! The words of a whole unit come with what they say, so that no name is looked up and no number is read here.
ghost use Rattle.std.specs.Prelude.{[], ℕ, List, OnOk, map};
ghost use Rattle.wave_file.specs.inside.Held.{Holds, FindsChange, Takes};
ghost use Rattle.wave_file.specs.inside.Value.{says};
ghost use Rattle.reading.specs.Grammar.{AreHeard};
ghost use Rattle.reading.specs.Word.{heard_token};

use crate::groups::Groups;
use crate::record::Change;
use crate::spots::{Spot, Spots};
use crate::value::Value;
use reading::Heard;
use std::alloc::{AllocError, Global};

/// What the lines so far say.
#[derive(Drop)]
pub(crate) struct Held<'a> {
    /// The names of the groups.
    pub(crate) groups: Groups<'a>,
    pub(crate) changes: Vec<Change>,
    /// Where each change stands.
    pub(crate) spots: Spots,
}

impl<'a> Held<'a> {
    /// No lines yet.
    pub(crate) fn new(alloc: Global, groups: Groups<'a>) -> Held<'a>
        ensures { Holds groups.entry.names [] result }
    {
        Held {
            groups,
            changes: Vec::new(alloc),
            spots: Spots::new(alloc),
        }
    }
}

/// What a unit says if it is a line: one number gives both ends of the range.
fn change_of(unit: &[Heard<'_, Value>]) -> Option<Change>
    ensures { (names : List (List ℕ)) → AreHeard (says names) [] unit.now →
        FindsChange names (map heard_token unit.now) result }
{
    match unit {
        [_, step, node, value, _] => {
            let amps = value.value.amps();
            Some(Change {
                step: step.value.step(),
                node: node.value.node(),
                low: amps,
                high: amps,
            })
        }
        [_, step, node, low, high, _] => {
            Some(Change {
                step: step.value.step(),
                node: node.value.node(),
                low: low.value.amps(),
                high: high.value.amps(),
            })
        }
        _ => None,
    }
}

/// A whole unit.
pub(crate) fn take_unit<'a>(
    held: &mut Held<'a>,
    unit: &[Heard<'a, Value>],
) -> Result<(), AllocError>
    ensures { OnOk result (Takes held.old held.new unit.now) }
{
    let Some(change) = change_of(unit) else {
        return Ok(());
    };
    held.spots.add(Spot {
        step: change.step,
        node: change.node as usize,
    })?;
    held.changes.push(change)?;
    Ok(())
}
