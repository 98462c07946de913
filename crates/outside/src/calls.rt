// Calls on files in memory: which of them fail, and what is counted of them.
ghost use Rattle.std.specs.Prelude.{◌≡◌, ◌↔◌, ◌<◌, ◌≤◌, ℕ, List, [], length, Contains, IsTrue, IfOk, OnOk, IsErrOf};
ghost use Rattle.outside.specs.Counts.{ChangesWrites, NoneFalls, Rose, raised};
ghost use Rattle.outside.specs.Calls.{FailsNext, IsCounted, IsUncounted, CountsNone, CountsRead, CountsWrite, counts_of};
ghost use Rattle.outside.specs.inside.Entries.{IsFirstPlace};

use crate::entries::place_of;
use crate::{Name, Refusal};
use std::alloc::{AllocError, Global};
use std::marker::Model;

/// How many calls were made on a name, and how many of them failed. Each number stands still at 2^64 - 1.
#[derive(Clone, Copy, Debug)]
pub(crate) struct Tally {
    made: u64,
    failed_reads: u64,
    failed_writes: u64,
}

/// The calls that are to fail, and a tally for each name.
#[derive(Debug, Drop)]
pub(crate) struct Calls {
    alloc: Global,
    failing: Vec<(Name, u64)>,
    tallies: Vec<(Name, Tally)>,
    faults: u64,
}

impl Model for Calls {
    ghost use Rattle.outside.specs.Calls.{CallsInMemory};

    ghost Value = { CallsInMemory };

    ghost view = { λ calls. record {
      failing = calls.failing.items;
      tallies = calls.tallies.items;
      faults = calls.faults;
    } };
}

impl Calls {
    pub(crate) fn new(alloc: Global, failing: Vec<(Name, u64)>) -> Calls
        ensures { result ≡ record { failing = failing.items; tallies = []; faults = 0 } }
    {
        Calls {
            alloc,
            failing,
            tallies: Vec::new(alloc),
            faults: 0,
        }
    }

    /// The place of the tally of a name, which is added with no calls where there is none.
    pub(crate) fn place(&mut self, name: &str) -> Result<usize, AllocError>
        ensures place { IfOk result (IsFirstPlace self.new.tallies name.now) }
        ensures uncounted { IsUncounted self.old self.new }
    {
        if let Some(place) = place_of(&self.tallies, name.as_bytes()) {
            return Ok(place);
        }
        let place = self.tallies.len();
        let none = Tally {
            made: 0,
            failed_reads: 0,
            failed_writes: 0,
        };
        self.tallies
            .push((Name::new(self.alloc, name.as_bytes())?, none))?;
        Ok(place)
    }

    /// Whether the next call on the name is one of those that are to fail.
    pub(crate) fn fails_next(&self, name: &str, place: usize) -> bool
        requires { IsFirstPlace self.now.tallies name.now place }
        ensures { IsTrue result ↔ FailsNext self.now name.now }
    {
        is_listed(&self.failing, name, one_more(self.tallies[place].1.made))
    }

    /// Begins a create or an append on a name: where it is to fail, it is counted and refused, and else this is the
    /// place of the tally of the name.
    pub(crate) fn begin_write(&mut self, name: &str) -> Result<usize, Refusal>
        ensures place { IfOk result (IsFirstPlace self.new.tallies name.now) }
        ensures begun { OnOk result (IsUncounted self.old self.new) }
        ensures no_cause { OnOk result (¬ FailsNext self.old name.now) }
        ensures cause { IsErrOf result Refusal.Failed → FailsNext self.old name.now }
        ensures counted_failed { IsErrOf result Refusal.Failed
            → IsCounted name.now (CountsWrite name.now) self.old self.new }
        ensures failed { IsErrOf result Refusal.Failed → Rose self.old.faults self.new.faults }
        ensures failed_write { IsErrOf result Refusal.Failed
            → Rose ((counts_of self.old).writes name.now) ((counts_of self.new).writes name.now) }
        ensures uncounted { IsErrOf result Refusal.Want → IsUncounted self.old self.new }
        ensures none_falls { NoneFalls (counts_of self.old) (counts_of self.new) }
        ensures only { ChangesWrites name.now (counts_of self.old) (counts_of self.new) }
    {
        let place = self.place(name)?;
        if self.fails_next(name, place) {
            self.count_failed_write(place);
            return Err(Refusal::Failed);
        }
        Ok(place)
    }

    /// Counts a call that did not fail.
    pub(crate) fn count(&mut self, place: usize)
        requires { place < length self.old.tallies }
        ensures { (name : List ℕ) → IsFirstPlace self.old.tallies name place
            → IsCounted name CountsNone self.old self.new }
    {
        let tally = self.tallies[place].1;
        self.tallies[place].1 = Tally {
            made: one_more(tally.made),
            ..tally
        };
    }

    /// Counts a read that failed.
    pub(crate) fn count_failed_read(&mut self, place: usize)
        requires { place < length self.old.tallies }
        ensures counted { (name : List ℕ) → IsFirstPlace self.old.tallies name place
            → IsCounted name (CountsRead name) self.old self.new }
        ensures none_falls { (name : List ℕ) → IsFirstPlace self.old.tallies name place
            → NoneFalls (counts_of self.old) (counts_of self.new) }
    {
        let tally = self.tallies[place].1;
        self.tallies[place].1 = Tally {
            made: one_more(tally.made),
            failed_reads: one_more(tally.failed_reads),
            ..tally
        };
        self.faults = one_more(self.faults);
    }

    /// Counts a create or an append that failed.
    pub(crate) fn count_failed_write(&mut self, place: usize)
        requires { place < length self.old.tallies }
        ensures counted { (name : List ℕ) → IsFirstPlace self.old.tallies name place
            → IsCounted name (CountsWrite name) self.old self.new }
        ensures none_falls { (name : List ℕ) → IsFirstPlace self.old.tallies name place
            → NoneFalls (counts_of self.old) (counts_of self.new) }
    {
        let tally = self.tallies[place].1;
        self.tallies[place].1 = Tally {
            made: one_more(tally.made),
            failed_writes: one_more(tally.failed_writes),
            ..tally
        };
        self.faults = one_more(self.faults);
    }
}

/// A count after one more. It stands still at 2^64 - 1.
pub(crate) fn one_more(count: u64) -> u64
    ensures raised { result ≡ raised count }
    ensures at_least { count ≤ result }
{
    count.saturating_add(1)
}

/// Whether a call on a name, by its number, is listed.
fn is_listed(listed: &[(Name, u64)], name: &str, number: u64) -> bool
    ensures { IsTrue result ↔ Contains listed.now (name.now, number) }
{
    for call in listed {
        if call.1 == number && call.0.bytes() == name.as_bytes() {
            return true;
        }
    }
    false
}
