//! Calls that are to fail.

ghost use Rattle.std.specs.Prelude.{◌≡◌, ◌++◌, [], ◌∷◌, OnOk, OnErr};
ghost use Rattle.auc_disk.specs.Failing.{is_entry, is_listed};

use crate::disk_call::DiskCall;
use auc_memory::NoMemory;
use std::alloc::Global;
use std::marker::Model;

// A call that is to fail: its kind, and its place among the calls of that kind, the first being 1.
#[derive(Drop)]
struct Entry {
    call: DiskCall,
    ordinal: u64,
}

impl Model for Entry {
    ghost use Rattle.auc_disk.specs.Failing.{Failing};

    ghost Value = { Failing };

    ghost view = { λ e. record { call = e.call; ordinal = e.ordinal } };
}

/// The calls of a disk in memory that are to fail.
#[derive(Drop)]
pub struct FailList {
    entries: Vec<Entry>,
}

impl Model for FailList {
    ghost use Rattle.std.specs.Prelude.{List};
    ghost use Rattle.auc_disk.specs.Failing.{Failing};

    ghost Value = { List Failing };

    ghost view = { λ l. l.entries.items };
}

impl FailList {
    /// No call fails.
    pub fn new(alloc: Global) -> FailList
        ensures { result ≡ [] }
    {
        FailList {
            entries: Vec::new(alloc),
        }
    }

    /// Makes a call fail, by its kind and its place among the calls of that kind, the first being 1. If
    /// memory runs out, nothing changes.
    pub fn push(&mut self, call: DiskCall, ordinal: u64) -> Result<(), NoMemory>
        ensures told { OnOk result (self.new ≡ self.old ++ record { call = call; ordinal = ordinal } ∷ []) }
        ensures kept { OnErr result (self.new ≡ self.old) }
    {
        self.entries.push(Entry { call, ordinal })?;
        Ok(())
    }

    // Whether a call is to fail.
    pub(crate) fn is_listed(&self, call: DiskCall, ordinal: u64) -> bool
        ensures { result ≡ is_listed self.now call ordinal }
    {
        self.entries
            .iter()
            .any(|entry| is_entry(entry, call, ordinal))
    }
}

fn is_entry(entry: &Entry, call: DiskCall, ordinal: u64) -> bool
    ensures { result ≡ is_entry entry.now call ordinal }
{
    entry.call == call && entry.ordinal == ordinal
}
