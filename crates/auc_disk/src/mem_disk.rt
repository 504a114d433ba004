//! Disks in memory.

ghost use Rattle.std.specs.Prelude.{◌≡◌, ◌≤◌, ◌+◌, ◌^◌, ℕ, List, [], ◌∷◌, Some, length, true, false, IfOk, OnOk, OnErr, IsTrue, IsErr};
ghost use Rattle.std.specs.Result.{is_err};
ghost use Rattle.auc_memory.specs.Faults.{raised};
ghost use Rattle.auc_memory.specs.Buffer.{GivesFrom};
ghost use Rattle.auc_disk.specs.Disk.{Elapses, Follows, HasCause, IsLength, OnlyTold, Puts, ReadsAt, Torn};
ghost use Rattle.auc_disk.specs.InnerReplay.{as_it_reads, counts_now, only_now, some_is};
ghost use Rattle.auc_disk.specs.MemDisk.{AfterFailedWrite, LeavesNow, LeftSince, after_call, after_fault, after_len, after_record, calls_in, is_failing, made_of, one_more, seen_of};
ghost use Rattle.auc_disk.specs.Replay.{image_by};
ghost use Rattle.auc_disk.specs.declared.call.Call.TheVariants.{Wrote, Synced};
ghost use Rattle.auc_disk.specs.declared.disk_call.DiskCall.TheVariants.{Len, ReadAt, WriteAt, Sync};

use crate::call::Call;
use crate::disk::Disk;
use crate::disk_call::DiskCall;
use crate::fail_list::FailList;
use crate::putting::{left_of, put};
use auc_memory::{Failed, NoMemory, Octets};
use std::alloc::Global;
use std::collections::LinkedList;
use std::marker::Model;

// How many calls of each kind there were.
#[derive(Drop)]
struct Counts {
    lens: u64,
    reads: u64,
    writes: u64,
    syncs: u64,
}

impl Model for Counts {
    ghost use Rattle.auc_disk.specs.MemDisk.{Made};

    ghost Value = { Made };

    ghost view = { λ c. record { lens = c.lens; reads = c.reads; writes = c.writes; syncs = c.syncs } };
}

impl Counts {
    // Counts a call, and answers its place among the calls of its kind.
    fn count(&mut self, call: DiskCall) -> u64
        ensures place { result ≡ raised (made_of self.old call) }
        ensures counted { self.new ≡ one_more self.old call }
    {
        match call {
            DiskCall::Len => raise(&mut self.lens),
            DiskCall::ReadAt => raise(&mut self.reads),
            DiskCall::WriteAt => raise(&mut self.writes),
            DiskCall::Sync => raise(&mut self.syncs),
        }
    }
}

// Raises a count by 1 up to its last value, and answers it.
fn raise(count: &mut u64) -> u64
    ensures { (result ≡ raised count.old) × (count.new ≡ raised count.old) }
{
    *count = count.saturating_add(1);
    *count
}

/// A disk in memory. It keeps the image that it began with and a record of its calls, which it replays
/// for what a crash leaves. A call fails if it was told to, or if memory runs out.
#[derive(Drop)]
pub struct MemDisk {
    first: Octets,
    calls: LinkedList<Call>,
    bytes: Vec<u8>,
    last_len: u64,
    counts: Counts,
    failing: FailList,
    faults: u64,
}

impl Model for MemDisk {
    ghost use Rattle.std.specs.Prelude.{◌≡◌, ◌≤◌, length};
    ghost use Rattle.auc_disk.specs.MemDisk.{DiskState};
    ghost use Rattle.auc_disk.specs.InnerReplay.{AreInRange};
    ghost use Rattle.auc_disk.specs.Replay.{seen_after};

    ghost Value = { DiskState };

    ghost view = { λ d. record { first = d.first; calls = d.calls; last_len = d.last_len; made = d.counts; failing = d.failing; faults = d.faults } };

    ghost invariant = { λ d. (d.bytes.items ≡ seen_after d.first d.calls) × (d.last_len ≤ length d.bytes.items) × AreInRange d.calls };
}

impl MemDisk {
    /// A disk whose file is this image, and whose calls fail as the list says.
    pub fn new(alloc: Global, image: Octets, fail: FailList) -> Result<MemDisk, NoMemory>
        ensures { IfOk result (λ disk. disk ≡ record {
          first = image;
          calls = [];
          last_len = 0;
          made = record { lens = 0; reads = 0; writes = 0; syncs = 0 };
          failing = fail;
          faults = 0;
        }) }
    {
        let bytes = image.as_slice().to_vec(alloc)?;
        let counts = Counts {
            lens: 0,
            reads: 0,
            writes: 0,
            syncs: 0,
        };
        Ok(MemDisk {
            first: image,
            calls: LinkedList::new(alloc),
            bytes,
            last_len: 0,
            counts,
            failing: fail,
            faults: 0,
        })
    }

    /// The image of a crash now, by a choice. Of each write since the last sync, choice 0 leaves the old
    /// bytes and the old length, choice 1 the new bytes and the new length, and any other number its low
    /// byte in the whole range and in a gap before it, and the new length.
    pub fn crash(self, alloc: Global, choice: u32) -> Result<Octets, NoMemory>
        ensures chosen { IfOk result (λ image. image ≡ image_by choice self.first self.first self.calls) }
        ensures image { IfOk result (λ image. LeavesNow self image) }
    {
        let MemDisk {
            first,
            mut calls,
            ..
        } = self;
        left_of(alloc, choice, first.as_slice(), &mut calls)
    }

    // Counts a call, and answers whether it is to fail.
    fn count(&mut self, call: DiskCall) -> bool
        ensures outcome { result ≡ is_failing self.old call }
        ensures counted { self.new ≡ after_call self.old call }
    {
        let place = self.counts.count(call);
        self.failing.is_listed(call, place)
    }

    // Counts a fault.
    fn fault(&mut self) -> Failed
        ensures { self.new ≡ record self.old { faults = raised self.old.faults } }
    {
        self.faults = self.faults.saturating_add(1);
        Failed
    }

    // Records a write, and writes the bytes if it succeeds. If memory runs out, nothing changes.
    fn record(&mut self, at: u64, bytes: &[u8], done: bool) -> Result<(), NoMemory>
        requires { at + length bytes.now ≤ 2 ^ 30 }
        ensures recorded { OnOk result (self.new ≡ record self.old { calls = Wrote at bytes.now done ∷ self.old.calls }) }
        ensures kept { OnErr result (self.new ≡ self.old) }
    {
        let alloc = *self.bytes.allocator();
        let copy = Octets::copied_from(alloc, bytes)?;
        self.calls.push_front(Call::Wrote(at, copy, done))?;
        if done && put(0, &mut self.bytes, at as usize, bytes).is_err() {
            self.calls.pop_front();
            return Err(NoMemory);
        }
        Ok(())
    }

    // Records a sync. If memory runs out, nothing changes.
    fn record_sync(&mut self) -> Result<(), NoMemory>
        ensures recorded { OnOk result (self.new ≡ record self.old { calls = Synced ∷ self.old.calls }) }
        ensures kept { OnErr result (self.new ≡ self.old) }
    {
        self.calls.push_front(Call::Synced)?;
        Ok(())
    }
}

impl Disk for MemDisk {
    ghost seen = { λ d. Some (seen_of d) };

    ghost may_leave = { LeavesNow };

    ghost moment = { λ d. length d.calls };

    ghost left_since = { LeftSince };

    ghost last_len = { λ d. d.last_len };

    ghost faults = { λ d. d.faults };

    ghost calls = { λ d. calls_in d.made };

    ghost counts_now = { λ d t image early here. counts_now d.first d.calls t image early here };

    ghost only_now = { λ d image since. only_now d.first d.calls image since };

    ghost as_it_reads = { λ d file is. as_it_reads d.first d.calls file (some_is is) };

    fn len(&mut self) -> Result<u64, Failed>
        ensures told { IfOk result (λ len. IsLength (Some (seen_of self.old)) len) }
        ensures last { IfOk result (λ len. len ≡ self.new.last_len) }
        ensures seen { Some (seen_of self.new) ≡ Some (seen_of self.old) }
        ensures crash { (image : List ℕ) → LeavesNow self.new image → LeavesNow self.old image }
        ensures time { Elapses (length self.old.calls) (length self.new.calls) (LeftSince self.old)
            (LeftSince self.new) (LeavesNow self.new) }
        ensures cause { HasCause self.old.faults self.new.faults result }
        ensures calls { calls_in self.new.made ≤ calls_in self.old.made + 1 }

        // Exactly when it fails, and what it leaves.
        ensures outcome { is_err result ≡ is_failing self.old Len }
        ensures counted { OnOk result (self.new ≡ after_len self.old) }
        ensures fault { OnErr result (self.new ≡ after_fault self.old Len) }
    {
        if self.count(DiskCall::Len) {
            return Err(self.fault());
        }
        self.last_len = self.bytes.len() as u64;
        Ok(self.last_len)
    }

    fn read_at(&mut self, at: u64, buf: &mut [u8]) -> Result<usize, Failed>
        ensures bound { IfOk result (λ count. count ≤ length buf.new) }
        ensures read { IfOk result (λ count. ReadsAt (Some (seen_of self.old)) at count buf.new) }
        ensures goes_on { IfOk result (λ count. count ≡ 0 → 1 ≤ length buf.new → self.old.last_len ≤ at) }
        ensures last { self.new.last_len ≡ self.old.last_len }
        ensures seen { Some (seen_of self.new) ≡ Some (seen_of self.old) }
        ensures crash { (image : List ℕ) → LeavesNow self.new image → LeavesNow self.old image }
        ensures time { Elapses (length self.old.calls) (length self.new.calls) (LeftSince self.old)
            (LeftSince self.new) (LeavesNow self.new) }
        ensures cause { HasCause self.old.faults self.new.faults result }
        ensures calls { calls_in self.new.made ≤ calls_in self.old.made + 1 }

        // Exactly when it fails, and what it leaves.
        ensures outcome { is_err result ≡ is_failing self.old ReadAt }
        ensures counted { OnOk result (self.new ≡ after_call self.old ReadAt) }
        ensures fault { OnErr result (self.new ≡ after_fault self.old ReadAt) }
    {
        if self.count(DiskCall::ReadAt) {
            return Err(self.fault());
        }
        Ok(copy_from(&self.bytes, at, buf))
    }

    fn write_at(&mut self, at: u64, bytes: &[u8]) -> Result<(), Failed>
        requires { at + length bytes.now ≤ 2 ^ 30 }

        ensures written { OnOk result (Puts (Some (seen_of self.old)) at bytes.now (Some (seen_of self.new))) }
        ensures crash { Follows (Torn at (length bytes.now)) (LeavesNow self.old) (LeavesNow self.new) }
        ensures time { Elapses (length self.old.calls) (length self.new.calls) (LeftSince self.old)
            (LeftSince self.new) (LeavesNow self.new) }
        ensures cause { HasCause self.old.faults self.new.faults result }
        ensures calls { calls_in self.new.made ≤ calls_in self.old.made + 1 }

        // It fails if it was told to, and what it leaves.
        ensures told { IsTrue (is_failing self.old WriteAt) → IsErr result }
        ensures recorded { OnOk result (self.new ≡ after_record self.old WriteAt (Wrote at bytes.now true)) }
        ensures fault { OnErr result (AfterFailedWrite self.old at bytes.now self.new) }
    {
        let fails = self.count(DiskCall::WriteAt);
        if self.record(at, bytes, !fails).is_err() || fails {
            return Err(self.fault());
        }
        Ok(())
    }

    fn sync(&mut self) -> Result<(), Failed>
        ensures durable { OnOk result (OnlyTold (Some (seen_of self.old)) (LeavesNow self.new)) }
        ensures seen { Some (seen_of self.new) ≡ Some (seen_of self.old) }
        ensures crash { (image : List ℕ) → LeavesNow self.new image → LeavesNow self.old image }
        ensures time { Elapses (length self.old.calls) (length self.new.calls) (LeftSince self.old)
            (LeftSince self.new) (LeavesNow self.new) }
        ensures cause { HasCause self.old.faults self.new.faults result }
        ensures calls { calls_in self.new.made ≤ calls_in self.old.made + 1 }

        // It fails if it was told to, and what it leaves.
        ensures told { IsTrue (is_failing self.old Sync) → IsErr result }
        ensures recorded { OnOk result (self.new ≡ after_record self.old Sync Synced) }
        ensures fault { OnErr result (self.new ≡ after_fault self.old Sync) }
    {
        if self.count(DiskCall::Sync) {
            return Err(self.fault());
        }
        match self.record_sync() {
            Ok(()) => Ok(()),
            Err(_) => Err(self.fault()),
        }
    }
}

// Copies bytes from a place on into the front of a buffer, and answers how many.
fn copy_from(bytes: &[u8], from: u64, buf: &mut [u8]) -> usize
    ensures { GivesFrom bytes.now from result buf.new }
{
    let len = bytes.len();
    let from = usize::try_from(from).unwrap_or(len).min(len);
    let rest = &bytes[from..];
    let count = rest.len().min(buf.len());
    buf[..count].copy_from_slice(&rest[..count]);
    count
}
