//! Runs in which one call of the outside fails: each in turn, until none fails.

use crate::outside::{RUN, failing_disk, shelf_of, words_of};
use auc_disk::{DiskCall, MemDisk};
use auc_edge::{MemShelf, MemSink, OpenGate};
use auc_run::{Status, run};
use std::alloc::Global;
use std::process::Abort;
use std::str;
use std::sync::Wait;
use std::thread::Threads;

// Two rounds with a restart between them, and draws and a session in the first one.
const TWO_ROUNDS: &[u8] =
    b"subscriber 001010000000001 465b5ce8b199b49faa5f0a2ee238a6bc opc cd63cb71954a9f4e48a5994e37a02baf 8000 0 0\nround\njob\ndraw 001010000000001 5\nsession 1 001010000000001 aka - - - held\nplain 1\nrestart\nround\njob\ndraw 001010000000001 1\n";

// By hand, from the tables of docs/sessions.md: what the first round writes if the journal was empty. The SQN of number 6
// is 32 * 6 + 6, in hexadecimal c6.
const FIRST_ROUND: &[u8] =
    b"round 1\njob 1\nvector 001010000000001 1\nvector 001010000000001 2\nvector 001010000000001 3\nvector 001010000000001 4\nvector 001010000000001 5\nsession 1 open\nstart 1 sent 1\ndeliver 1 peer 1 sent 2\ndeliver 1 server 2 drew 6 sent 3\ndeliver 1 peer 3 accepted 0000000000c6 sent 4\ndeliver 1 server 4 sent 5 ended success\ndeliver 1 peer 5 ended success\nclosed 001010000000001 0 6 6 0 6 0\nsession 1 agree\npremise held\n";

// A run that draws once.
const ONE_DRAW: &[u8] =
    b"subscriber 001010000000001 465b5ce8b199b49faa5f0a2ee238a6bc opc cd63cb71954a9f4e48a5994e37a02baf 8000 0 0\nround\njob\ndraw 001010000000001 1\n";

// A journal of limit 64 for the subscriber. It ends where its closed gate belongs.
const JOURNAL: &[u8] = b"AUC-SQN-JOURNAL1\x01\x01\x0f\0\0\0\xeb\x28\xb0\xf4\x01\0\0\0\0\0\0\0\x40";

// A kind of calls of the outside: reads of the shelf, writes of the output, or calls of the disk.
#[derive(Clone, Copy)]
enum Kind {
    Read,
    Write,
    Disk(DiskCall),
}

// A shelf with this scenario, of which a read fails.
fn failing_shelf(rt: &impl Abort, alloc: Global, scenario: &[u8], read: u64) -> MemShelf {
    let mut shelf = shelf_of(rt, alloc, b"scenario", scenario);
    shelf.fail(read).expect(rt, "memory");
    shelf
}

// An output of which a write fails.
fn sink_of(rt: &impl Abort, alloc: Global, write: u64) -> MemSink {
    let mut sink = MemSink::new(alloc);
    sink.fail(write).expect(rt, "memory");
    sink
}

// What a run leaves.
#[derive(Drop)]
struct Left {
    status: Status,
    out: MemSink,
    disk: MemDisk,
}

// Runs a scenario over a disk with these bytes. The call of a kind at a place fails; no call has place 0.
fn run_failing<R: Abort + Threads + Wait + Sync>(
    rt: &R,
    alloc: Global,
    bytes: &[u8],
    scenario: &[u8],
    kind: Kind,
    place: u64,
) -> Left {
    let (read, write, call, called) = match kind {
        Kind::Read => (place, 0, DiskCall::Len, 0),
        Kind::Write => (0, place, DiskCall::Len, 0),
        Kind::Disk(call) => (0, 0, call, place),
    };
    let words = words_of(rt, alloc, &RUN);
    let mut shelf = failing_shelf(rt, alloc, scenario, read);
    let mut out = sink_of(rt, alloc, write);
    let disk = failing_disk(rt, alloc, bytes, call, called);
    let gate = OpenGate::new();
    let ended = run(
        rt,
        alloc,
        words.as_slice(),
        &mut shelf,
        &mut out,
        disk,
        &gate,
    );
    Left {
        status: ended.status,
        out,
        disk: ended.disk,
    }
}

// The number whose vector a line says was released, if it says so.
fn released_by(line: &str) -> Option<u64> {
    let (_, rest) = line
        .split_once("vector 001010000000001 ")
        .or(line.split_once(" drew "))?;
    rest.split_whitespace().next()?.parse().ok()
}

// The greatest number whose vector a text says was released, or 0.
fn greatest_in(text: &[u8]) -> u64 {
    match str::from_utf8(text) {
        Ok(text) => text.lines().filter_map(released_by).max().unwrap_or(0),
        Err(_) => 0,
    }
}

// Whether the output is one that the status allows.
fn is_written(status: Status, text: &[u8]) -> bool {
    match status {
        Status::ReadFault => text.is_empty(),
        Status::WriteFault => FIRST_ROUND.starts_with(text),
        _ => true,
    }
}

// Whether the next run on what a crash leaves draws a number above each that was released. If a crash leaves no journal,
// none may have been released.
fn draws_above<R: Abort + Threads + Wait + Sync>(
    rt: &R,
    alloc: Global,
    disk: MemDisk,
    choice: u32,
    released: u64,
) -> bool {
    let image = disk.crash(alloc, choice).expect(rt, "memory");
    let next = run_failing(rt, alloc, image.as_slice(), ONE_DRAW, Kind::Read, 0);
    let text = next.out.as_slice();
    match next.status {
        Status::Done => greatest_in(text) > released,
        Status::NotJournal => released == 0 && text == b"refused journal 0\n".as_slice(),
        _ => false,
    }
}

// Whether a run in which a call fails ends as it has to, and the next run on what a crash leaves draws a greater number.
fn holds<R: Abort + Threads + Wait + Sync>(
    rt: &R,
    alloc: Global,
    bytes: &[u8],
    (kind, place): (Kind, u64),
    choice: u32,
    status: Status,
) -> bool {
    let left = run_failing(rt, alloc, bytes, TWO_ROUNDS, kind, place);
    let is_right = left.status == status && is_written(status, left.out.as_slice());
    let released = greatest_in(left.out.as_slice());
    draws_above(rt, alloc, left.disk, choice, released) && is_right
}

// By hand: how many calls of a kind a run makes. It reads the scenario until a read gives nothing, and writes each round.
// The opening makes one call of each kind, but it reads only a file with bytes, and writes only to one that doesn't end
// with a closed gate. There are two appends, of the limit for the first draw and of that after the restart, and each
// writes and syncs twice.
#[test]
fn no_number_comes_again_after_a_call_that_failed(rt: HostRuntime) {
    let alloc = rt.alloc();
    let cases = [
        (Kind::Read, b"".as_slice(), 2, Status::ReadFault),
        (Kind::Write, b"", 2, Status::WriteFault),
        (Kind::Disk(DiskCall::Len), b"", 1, Status::StoreFault),
        (Kind::Disk(DiskCall::ReadAt), b"", 0, Status::StoreFault),
        (Kind::Disk(DiskCall::WriteAt), b"", 5, Status::StoreFault),
        (Kind::Disk(DiskCall::Sync), b"", 5, Status::StoreFault),
        (Kind::Disk(DiskCall::ReadAt), JOURNAL, 1, Status::StoreFault),
        (
            Kind::Disk(DiskCall::WriteAt),
            JOURNAL,
            5,
            Status::StoreFault,
        ),
        (Kind::Disk(DiskCall::Sync), JOURNAL, 5, Status::StoreFault),
    ];
    for (row, (kind, bytes, calls, fault)) in cases.into_iter().enumerate() {
        for place in 1..=6u64 {
            let status = if place <= calls { fault } else { Status::Done };
            for choice in [0, 1, 171] {
                assert!(rt;
                    holds(&rt, alloc, bytes, (kind, place), choice, status),
                    "at {row}, call {place}, crash {choice}"
                );
            }
        }
    }
}
