//! The tables of the engine: the patterns of a format's sections, and what is left of a pattern after a word, once it
//! is known.
ghost use Rattle.std.specs.Prelude.{◌≡◌, ◌+◌, ◌*◌, ◌<◌, ◌≤◌, ℕ, length, slice_get, Some, OnOk, IfOk, Option, List};
ghost use Rattle.reading.specs.inside.Machine.{IsUnknown, TellsNoMore, KeepsOthers, Notes, HasRows};
ghost use Rattle.reading.specs.inside.Patterns.{IsGraph};

use crate::patterns::{Patterns, Standing};
use std::alloc::{AllocError, Global};

/// How many entries a row of the table of what is left has: one for each number of a sort.
const ROW: usize = 64;

/// What is left of a pattern after a word.
#[derive(Clone, Copy, Debug, PartialEq, Eq)]
pub(crate) struct Rest {
    /// The node of it.
    pub(crate) node: usize,
    /// How a unit stands of whose pattern this is left.
    pub(crate) standing: Standing,
}

/// What is left of the open unit's pattern, and what is known of the format's patterns.
#[derive(Drop)]
pub(crate) struct Machine {
    pub(crate) patterns: Patterns,
    /// For each section's number the node of its pattern, where it has been built.
    pub(crate) starts: Vec<Option<usize>>,
    /// For each node a row, by the number of a sort: what is left after a word of the sort, where it is known.
    pub(crate) lefts: Vec<Option<Rest>>,
    /// The node of what is left of the open unit's pattern.
    pub(crate) at: usize,
}

impl Machine {
    pub(crate) fn new(alloc: Global) -> Result<Machine, AllocError>
        ensures graph { IfOk result (λ m. IsGraph m.patterns.nodes.items) }
        ensures rows { IfOk result HasRows }
        ensures starts { IfOk result (λ m. IsUnknown m.starts.items) }
        ensures lefts { IfOk result (λ m. IsUnknown m.lefts.items) }
        ensures count { IfOk result (λ m. length m.starts.items ≡ 64) }
    {
        Ok(Machine {
            patterns: Patterns::new(alloc),
            starts: unknown(alloc, 64)?,
            lefts: Vec::new(alloc),
            at: 0,
        })
    }

    /// What is known to be left of the open unit's pattern after a word of the sort with the number.
    pub(crate) fn known(&self, number: usize) -> Option<Rest>
        requires { self.now.at * 64 + number < length self.now.lefts.items }
        ensures { slice_get self.now.lefts.items (self.now.at * 64 + number) ≡ Some result }
    {
        self.lefts[self.at * ROW + number]
    }

    /// Makes it known what is left of the open unit's pattern after a word of the sort with the number.
    pub(crate) fn note(&mut self, number: usize, rest: Rest)
        requires { self.old.at * 64 + number < length self.old.lefts.items }
        ensures lefts { Notes self.old.lefts.items self.new.lefts.items (self.old.at * 64 + number) rest }
        ensures count { length self.new.lefts.items ≡ length self.old.lefts.items }
        ensures others { KeepsOthers self.old self.new }
    {
        self.lefts[self.at * ROW + number] = Some(rest);
    }

    /// Makes rows for the nodes that have none, in which nothing is known.
    #[cold]
    pub(crate) fn widen(&mut self) -> Result<(), AllocError>
        ensures rows { OnOk result (HasRows self.new) }
        ensures lefts { OnOk result (TellsNoMore self.old.lefts.items self.new.lefts.items) }
        ensures others { OnOk result (KeepsOthers self.old self.new) }
    {
        match self.patterns.count().checked_mul(ROW) {
            Some(count) => extend(&mut self.lefts, count),
            None => Err(AllocError),
        }
    }
}

/// A table with so many entries, none of which is known.
fn unknown(alloc: Global, count: usize) -> Result<Vec<Option<usize>>, AllocError>
    ensures unknown { IfOk result (λ table. IsUnknown table.items) }
    ensures count { IfOk result (λ table. length table.items ≡ count) }
{
    let mut table = Vec::new(alloc);
    for _ in 0..count {
        table.push(None)?;
    }
    Ok(table)
}

/// Makes the table longer, with entries that are not known, so that it has so many.
fn extend(table: &mut Vec<Option<Rest>>, count: usize) -> Result<(), AllocError>
    ensures count { OnOk result (count ≤ length table.new.items) }
    ensures same { OnOk result (TellsNoMore table.old.items table.new.items) }
{
    while table.len() < count {
        table.push(None)?;
    }
    Ok(())
}
