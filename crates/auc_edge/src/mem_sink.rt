//! Outputs in memory.

ghost use Rattle.std.specs.Prelude.{◌≡◌, ◌≤◌, ◌<◌, ◌⊎◌, ◌++◌, [], ◌∷◌, length, take, Some, IfOk, OnOk, OnErr, IsTrue, IsErr};
ghost use Rattle.auc_memory.specs.Faults.{Rose, raised};
ghost use Rattle.auc_edge.specs.Sink.{Appends};
ghost use Rattle.auc_edge.specs.MemSink.{is_failing, after_write, after_fault};

use crate::sink::Sink;
use auc_memory::{Failed, NoMemory, Octets};
use std::alloc::Global;
use std::marker::Model;

/// An output that is kept in memory. A write takes all its bytes, or fails: if it was told to, or if
/// memory runs out.
#[derive(Drop)]
pub struct MemSink {
    written: Octets,
    faults: u64,
    writes: u64,
    failing: Vec<u64>,
}

impl Model for MemSink {
    ghost use Rattle.auc_edge.specs.MemSink.{SinkState};

    ghost Value = { SinkState };

    ghost view = { λ s. record { written = s.written; faults = s.faults; writes = s.writes; failing = s.failing.items } };
}

impl MemSink {
    /// An empty output, whose writes succeed while there is memory.
    pub fn new(alloc: Global) -> MemSink
        ensures { result ≡ record { written = []; faults = 0; writes = 0; failing = [] } }
    {
        MemSink {
            written: Octets::new(alloc),
            faults: 0,
            writes: 0,
            failing: Vec::new(alloc),
        }
    }

    /// Makes a write fail, by its place among all writes, the first being 1. If memory runs out, nothing
    /// changes.
    pub fn fail(&mut self, ordinal: u64) -> Result<(), NoMemory>
        ensures told { OnOk result (self.new ≡ record self.old { failing = self.old.failing ++ ordinal ∷ [] }) }
        ensures kept { OnErr result (self.new ≡ self.old) }
    {
        self.failing.push(ordinal)?;
        Ok(())
    }

    /// What was written.
    pub fn as_slice(&self) -> &[u8]
        ensures { result.now ≡ self.now.written }
    {
        self.written.as_slice()
    }

    // Whether the next write is to fail.
    fn is_failing(&self) -> bool
        ensures { result ≡ is_failing self.now }
    {
        self.failing.contains(&self.writes.saturating_add(1))
    }
}

impl Sink for MemSink {
    ghost written = { λ s. Some s.written };

    ghost faults = { λ s. s.faults };

    fn write(&mut self, bytes: &[u8]) -> Result<usize, Failed>
        ensures bound { IfOk result (λ count. count ≤ length bytes.now) }
        ensures taken { IfOk result (λ count. Appends (Some self.old.written) (Some self.new.written)
            (take count bytes.now)) }
        ensures untouched { OnErr result (Appends (Some self.old.written) (Some self.new.written) []) }
        ensures later { self.old.faults ≤ self.new.faults }
        ensures failed { OnErr result (Rose self.old.faults self.new.faults) }
        ensures stuck { IfOk result (λ count. count ≡ 0 → 0 < length bytes.now
            → Rose self.old.faults self.new.faults) }
        ensures quiet { IfOk result (λ count. (0 < count) ⊎ (length bytes.now ≡ 0)
            → self.new.faults ≡ self.old.faults) }

        // It takes all or fails, and fails if it was told to.
        ensures whole { IfOk result (λ count. count ≡ length bytes.now) }
        ensures told { IsTrue (is_failing self.old) → IsErr result }
        ensures written { OnOk result (self.new ≡ after_write self.old bytes.now) }
        ensures fault { OnErr result (self.new ≡ after_fault self.old) }
    {
        let fails = self.is_failing();
        self.writes = self.writes.saturating_add(1);
        if fails || self.written.append(bytes).is_err() {
            self.faults = self.faults.saturating_add(1);
            return Err(Failed);
        }
        Ok(bytes.len())
    }
}
