//! What a gate sees of the jobs of a round.

ghost use Rattle.std.specs.Prelude.{None};

use crate::outside::{RUN, TWO_JOBS, shelf_of, words_of};
use auc_disk::Disk;
use auc_edge::{Gate, MemSink, TurnGate};
use auc_memory::Failed;
use auc_run::{Status, run};
use std::alloc::Global;
use std::process::Abort;
use std::sync::Wait;
use std::sync::atomic::AtomicU32;
use std::sync::atomic::Ordering::SeqCst;
use std::thread::Threads;

// A disk that keeps no bytes, and counts its writes where others see them.
#[derive(Drop)]
struct CountingDisk<'a> {
    writes: &'a AtomicU32,
}

impl Disk for CountingDisk<'_> {
    ghost seen = { λ _. None };

    ghost may_leave = { λ _ _. Unit {0} };

    ghost moment = { λ _. 0 };

    ghost left_since = { λ _ _ _. Unit {0} };

    ghost last_len = { λ _. 0 };

    ghost faults = { λ _. 0 };

    ghost calls = { λ _. 0 };

    ghost counts_now = { λ d t image early here. tt };

    ghost only_now = { λ d image since. tt };

    ghost as_it_reads = { λ d file is. tt };

    fn len(&mut self) -> Result<u64, Failed> {
        Ok(0)
    }

    fn read_at(&mut self, _at: u64, _buf: &mut [u8]) -> Result<usize, Failed> {
        Ok(0)
    }

    fn write_at(&mut self, _at: u64, _bytes: &[u8]) -> Result<(), Failed> {
        self.writes.fetch_add(1, SeqCst);
        Ok(())
    }

    fn sync(&mut self) -> Result<(), Failed> {
        Ok(())
    }
}

// A gate at which two jobs meet. It notes how many writes there had been when the first of them came to its end.
#[derive(Drop)]
struct CountingGate<'a> {
    turn: TurnGate,
    writes: &'a AtomicU32,
    fewest: AtomicU32,
}

impl Gate for CountingGate<'_> {
    fn enter<R: Wait>(&self, rt: &R, job: u32) {
        self.turn.enter(rt, job);
    }

    fn leave<R: Wait>(&self, rt: &R, job: u32) {
        self.fewest.fetch_min(self.writes.load(SeqCst), SeqCst);
        self.turn.leave(rt, job);
    }
}

// How a run of two jobs ends at a gate, over a disk that counts its writes there.
fn run_two_jobs<R: Abort + Threads + Wait + Sync>(
    rt: &R,
    alloc: Global,
    gate: &CountingGate<'_>,
) -> Status {
    let words = words_of(rt, alloc, &RUN);
    let mut shelf = shelf_of(rt, alloc, b"scenario", TWO_JOBS);
    let mut out = MemSink::new(alloc);
    let disk = CountingDisk {
        writes: gate.writes,
    };
    run(
        rt,
        alloc,
        words.as_slice(),
        &mut shelf,
        &mut out,
        disk,
        gate,
    )
    .status
}

// By hand: the opening writes once. Each job appends a limit, which is two writes, before its number is released. So three
// writes or five were made when the first job left the gate.
#[test]
fn job_leaves_the_gate_after_its_last_line(rt: HostRuntime) {
    let writes = AtomicU32::new(0);
    let gate = CountingGate {
        turn: TurnGate::new(1000000),
        writes: &writes,
        fewest: AtomicU32::new(u32::MAX),
    };
    assert!(rt; run_two_jobs(&rt, rt.alloc(), &gate) == Status::Done);
    assert!(rt; gate.turn.left() == 2 && !gate.turn.expired());
    assert!(rt; gate.fewest.load(SeqCst) >= 3);
}
