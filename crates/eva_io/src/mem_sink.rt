ghost use Rattle.std.specs.Prelude.{◌≡◌, ◌+◌, ◌≤◌, ◌<◌, [], ◌++◌, length, take, min, Some, IfOk, OnErr};
ghost use Rattle.eva_io.specs.Memory.{is_listed, next_count, PutFails, PutCounts, PutStarves, state_of};
ghost use Rattle.eva_io.specs.Outside.{KeepsCounts};

use crate::calls::Calls;
use crate::sink::{PutFault, Sink};
use std::alloc::Global;
use std::marker::Model;

/// A sink that keeps its bytes, and tells them.
///
/// It takes `step` bytes at once, or the whole piece where that has fewer, and fails where the
/// call's number, from 1, was listed.
#[derive(Drop)]
pub struct MemSink {
    bytes: Vec<u8>,
    step: usize,
    calls: Calls,
    faults: u64,
    starved: u64,
}

impl Model for MemSink {
    ghost use Rattle.std.specs.Prelude.{ℕ, ◌≤◌};
    ghost use Rattle.eva_io.specs.Memory.{Tape};

    ghost Value = { Tape };

    ghost view = { λ sink. record {
      bytes = sink.bytes.items;
      step = sink.step;
      failing = sink.calls.failing.items;
      calls = sink.calls.made;
      faults = sink.faults;
      starved = sink.starved;
    } };

    ghost invariant = { λ sink. 1 ≤ sink.step };
}

impl MemSink {
    /// An empty sink; `failing` has the numbers of the calls of `put` that fail, in any order.
    pub fn new(alloc: Global, step: usize, failing: Vec<u64>) -> MemSink
        requires { 1 ≤ step }
        ensures { result ≡ record {
          bytes = [];
          step = step;
          failing = failing.items;
          calls = 0;
          faults = 0;
          starved = 0;
        } }
    {
        MemSink {
            bytes: Vec::new(alloc),
            step,
            calls: Calls { failing, made: 0 },
            faults: 0,
            starved: 0,
        }
    }

    /// The bytes that were put so far.
    pub fn written(&self) -> &[u8]
        ensures { result.now ≡ self.now.bytes }
    {
        self.bytes.as_slice()
    }
}

impl Sink for MemSink {
    ghost state = { state_of };

    /// Fails exactly where this call is listed, unless memory is wanting.
    fn put(&mut self, piece: &[u8]) -> Result<usize, PutFault>
        requires { 0 < length piece.now }
        ensures some { IfOk result (λ n. 1 ≤ n) }
        ensures taken { IfOk result (λ n. n ≡ min self.old.step (length piece.now)) }
        ensures appended { IfOk result (λ n. self.new.bytes ≡ self.old.bytes ++ take n piece.now) }
        ensures refused { OnErr result (self.new.bytes ≡ self.old.bytes) }
        ensures fails { PutFails result (is_listed self.old.failing (self.old.calls + 1)) }
        ensures faults { PutCounts result self.old.faults self.new.faults }
        ensures starved { PutStarves result self.old.starved self.new.starved }
        ensures counted { KeepsCounts (state_of self.old) (state_of self.new) }
        ensures calls { self.new.calls ≡ next_count self.old.calls }
        ensures step { self.new.step ≡ self.old.step }
        ensures failing { self.new.failing ≡ self.old.failing }
    {
        if self.calls.next_fails() {
            self.faults = self.faults.saturating_add(1);
            return Err(PutFault::Failed);
        }
        let taken = self.step.min(piece.len());
        match self.bytes.extend_from_slice(&piece[..taken]) {
            Ok(()) => Ok(taken),
            Err(_) => {
                self.starved = self.starved.saturating_add(1);
                Err(PutFault::Memory)
            }
        }
    }

    fn faults(&self) -> u64 {
        self.faults
    }
}
