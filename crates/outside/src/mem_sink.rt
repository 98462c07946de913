// A sink in memory, of which some calls fail.
ghost use Rattle.std.specs.Prelude.{◌≡◌, ◌≤◌, ◌++◌, [], length, Contains, Some, IfOk, OnOk, OnErr, IsErrOf};
ghost use Rattle.outside.specs.Counts.{Rose, raised};

use crate::calls::one_more;
use crate::{Refusal, Sink};
use std::alloc::{AllocError, Global};
use std::marker::Model;

/// A sink in memory, for tests: what was written is known, and the calls that are listed fail.
///
/// The calls are counted from 1, and their number stands still at 2^64 - 1.
/// A call that runs out of memory is not counted and changes nothing, so the next call has the number that it had.
#[derive(Debug, Drop)]
pub struct MemSink {
    bytes: Vec<u8>,
    failing: Vec<u64>,
    calls: u64,
    faults: u64,
}

impl Model for MemSink {
    ghost use Rattle.outside.specs.MemSink.{SinkInMemory};

    ghost Value = { SinkInMemory };

    ghost view = { λ sink. record {
      bytes = sink.bytes.items;
      failing = sink.failing.items;
      calls = sink.calls;
      faults = sink.faults;
    } };
}

impl MemSink {
    /// An empty sink, of which the calls with these numbers fail. It fails only for want of memory.
    pub fn new(alloc: Global, failing: Vec<u64>) -> Result<MemSink, AllocError>
        ensures { IfOk result
            (λ made. made ≡ record { bytes = []; failing = failing.items; calls = 0; faults = 0 }) }
    {
        Ok(MemSink {
            bytes: Vec::new(alloc),
            failing,
            calls: 0,
            faults: 0,
        })
    }

    /// The bytes written.
    pub fn bytes(&self) -> &[u8]
        ensures { result.now ≡ self.now.bytes }
    {
        &self.bytes
    }
}

impl Sink for MemSink {
    ghost known = { λ sink. Some sink.bytes };

    ghost faults = { λ sink. sink.faults };

    fn write(&mut self, piece: &[u8]) -> Result<usize, Refusal>
        // What becomes of the sink, whether the call answers Ok, fails or runs out of memory.
        ensures written { OnOk result
            (self.new ≡ record self.old { bytes = self.old.bytes ++ piece.now; calls = raised self.old.calls }) }
        ensures all { IfOk result (λ n. n ≡ length piece.now) }
        ensures counted_failed { IsErrOf result Refusal.Failed
            → self.new ≡ record self.old { calls = raised self.old.calls; faults = raised self.old.faults } }
        ensures uncounted { IsErrOf result Refusal.Want → self.new ≡ self.old }

        // It fails exactly where its call is listed.
        ensures cause { IsErrOf result Refusal.Failed → Contains self.old.failing (raised self.old.calls) }
        ensures no_cause { OnOk result (¬ Contains self.old.failing (raised self.old.calls)) }

        ensures added { OnOk result (self.new.bytes ≡ self.old.bytes ++ piece.now) }
        ensures kept { OnErr result (self.new.bytes ≡ self.old.bytes) }
        ensures calm { OnOk result (self.new.faults ≡ self.old.faults) }
        ensures none_falls { self.old.faults ≤ self.new.faults }
        ensures failed { IsErrOf result Refusal.Failed → Rose self.old.faults self.new.faults }
    {
        let number = one_more(self.calls);
        if self.failing.contains(&number) {
            self.calls = number;
            self.faults = one_more(self.faults);
            return Err(Refusal::Failed);
        }
        self.bytes.extend_from_slice(piece)?;
        self.calls = number;
        Ok(piece.len())
    }
}
