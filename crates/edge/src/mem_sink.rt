//! A sink in memory, for tests: it tells what it took, takes few bytes at a time, and fails where it is told to.
ghost use Rattle.std.specs.Prelude.{[], ◌≡◌, ◌<◌, ◌≤◌, min, length, take, Some, IfOk, IsErr, OnErr, Contains, is_err, if◌then◌else◌};
ghost use Rattle.edge.specs.Faults.{one_more, HasCause};
ghost use Rattle.edge.specs.Writes.{Adds};
ghost use Rattle.edge.specs.InMemory.{WritesOnce};

use crate::failures::Failed;
use crate::writing::Sink;
use std::alloc::Global;
use std::marker::Model;

/// A sink that keeps the bytes that it takes. Its calls are numbered from 1.
#[derive(Drop)]
pub struct MemSink {
    bytes: Vec<u8>,
    most: u64,
    failing: Vec<u64>,
    calls: u64,
    faults: u64,
}

impl Model for MemSink {
    ghost use Rattle.std.specs.Prelude.{◌≤◌};
    ghost use Rattle.edge.specs.InMemory.{SinkInMemory};

    ghost Value = { SinkInMemory };

    ghost view = { λ s. record {
      bytes = s.bytes.items;
      most = s.most;
      failing = s.failing.items;
      calls = s.calls;
      faults = s.faults;
    } };

    ghost invariant = { λ s. 1 ≤ s.most };
}

impl MemSink {
    /// A sink that took nothing yet. A call takes at most `most` bytes, and the calls whose numbers are in
    /// `failing` fail. Takes no memory until it is written to.
    pub fn new(alloc: Global, most: u64, failing: Vec<u64>) -> MemSink
        requires { 1 ≤ most }
        ensures { result ≡ record {
          bytes = [];
          most = most;
          failing = failing.items;
          calls = 0;
          faults = 0;
        } }
    {
        MemSink {
            bytes: Vec::new(alloc),
            most,
            failing,
            calls: 0,
            faults: 0,
        }
    }

    /// All the bytes that it took.
    pub fn taken(&self) -> &[u8]
        ensures { ⟦<MemSink as Sink>⟧.taken self.now ≡ Some result.now }
    {
        self.bytes.as_slice()
    }
}

impl Sink for MemSink {
    ghost taken = { λ s. Some s.bytes };

    ghost faults = { λ s. s.faults };

    ghost writes = { WritesOnce };

    /// A call for whose bytes memory has no room fails too.
    fn write(&mut self, piece: &[u8]) -> Result<usize, Failed>
        ensures bound { IfOk result (λ n. n ≤ length piece.now) }
        ensures progress { IfOk result (λ n. 0 < length piece.now → 0 < n) }
        ensures taken { IfOk result (λ n. Adds (Some self.old.bytes) (Some self.new.bytes) (take n piece.now)) }
        ensures kept { OnErr result (Some self.new.bytes ≡ Some self.old.bytes) }
        ensures cause { HasCause self.old.faults self.new.faults result }
        ensures step { WritesOnce self.old (is_err result) self.new }

        // It fails at the calls that are to fail, and else for want of memory alone.
        ensures refused { Contains self.old.failing (one_more self.old.calls) → IsErr result }
        ensures amount { IfOk result (λ n. n ≡ min self.old.most (length piece.now)) }
        ensures counted { self.new ≡ record self.old {
          bytes = self.new.bytes;
          calls = one_more self.old.calls;
          faults = if is_err result then one_more self.old.faults else self.old.faults;
        } }
    {
        self.calls = self.calls.saturating_add(1);
        let count = self.most.min(piece.len() as u64) as usize;
        if !self.failing.contains(&self.calls)
            && self.bytes.extend_from_slice(&piece[..count]).is_ok()
        {
            return Ok(count);
        }
        self.faults = self.faults.saturating_add(1);
        Err(Failed)
    }
}
