//! Services over a wire in memory: blocks that are cut in pieces, wrong ones, and calls of the outside that fail.

use crate::outside::{disk_of, failing_disk, words_of};
use auc_block::{LIMIT, MemWire, Turn};
use auc_disk::{DiskCall, MemDisk};
use auc_edge::{MemShelf, OpenGate};
use auc_memory::Octets;
use auc_run::{Status, serve};
use std::alloc::Global;
use std::process::Abort;
use std::sync::Wait;
use std::thread::Threads;

// A service: the pieces that are heard, which call of the wire fails and which write of the disk (no call has place 0), how
// it ends, and what was heard (after <) and said (after >), in order.
type Case = (
    &'static [&'static [u8]],
    u64,
    u64,
    Status,
    &'static [&'static [u8]],
);

const HEADER: &[u8] =
    b"subscriber 001010000000001 465b5ce8b199b49faa5f0a2ee238a6bc opc cd63cb71954a9f4e48a5994e37a02baf 8000 0 0\nend\n";

const DRAW: &[u8] = b"round\njob\ndraw 001010000000001 1\nend\n";

const READY: &[u8] = b">ready\nend\n";

// A wire with these pieces, of which a call fails.
fn wire_of(rt: &impl Abort, alloc: Global, pieces: &[&[u8]], call: u64) -> MemWire {
    let mut wire = MemWire::new(alloc, usize::MAX);
    for piece in pieces {
        wire.add(piece).expect(rt, "memory");
    }
    wire.fail(call).expect(rt, "memory");
    wire
}

// What was heard and said, each turn after its mark.
fn spoken(rt: &impl Abort, alloc: Global, wire: &MemWire) -> Octets {
    let mut text = Octets::new(alloc);
    for turn in wire.turns() {
        let (mark, bytes) = match turn {
            Turn::Heard(bytes) => (b"<", bytes),
            Turn::Said(bytes) => (b">", bytes),
        };
        text.append(mark).expect(rt, "memory");
        text.append(bytes.as_slice()).expect(rt, "memory");
    }
    text
}

// Serves what a wire hears, and gives the status.
fn serve_over<R: Abort + Threads + Wait + Sync>(
    rt: &R,
    alloc: Global,
    wire: &mut MemWire,
    disk: MemDisk,
) -> Status {
    let words = words_of(rt, alloc, &[b"serve"]);
    let mut shelf = MemShelf::new(alloc);
    let gate = OpenGate::new();
    serve(rt, alloc, words.as_slice(), &mut shelf, wire, disk, &gate).status
}

// By hand: the opening writes once and the first append twice, so the third write would open the gate of the first limit.
const CASES: [Case; 10] = [
    // a block for each piece
    (
        &[HEADER, DRAW, DRAW],
        0,
        0,
        Status::Done,
        &[
            b"<",
            HEADER,
            READY,
            b"<",
            DRAW,
            b">round 1\njob 1\nvector 001010000000001 1\nclosed 001010000000001 0 1 1 0 1 0\nend\n",
            b"<",
            DRAW,
            b">round 2\njob 1\nvector 001010000000001 2\nclosed 001010000000001 1 2 1 0 1 0\nend\n<",
        ],
    ),
    // three blocks in two pieces: nothing is heard while a whole block waits
    (
        &[
            b"workers 2\nend\nround\nround\ne",
            b"nd\n# nothing\r\nend\r\n",
        ],
        0,
        0,
        Status::Done,
        &[
            b"<workers 2\nend\nround\nround\ne",
            READY,
            b"<nd\n# nothing\r\nend\r\n>refused scenario 2 notlive\nend\n>end\n<",
        ],
    ),
    // a wrong block serves nothing
    (
        &[
            HEADER,
            b"round\njob\ndraw 001010000000001 1\ngive 001010000000001 1\nend\n",
            DRAW,
        ],
        0,
        0,
        Status::Done,
        &[
            b"<",
            HEADER,
            READY,
            b"<round\njob\ndraw 001010000000001 1\ngive 001010000000001 1\nend\n",
            b">refused scenario 4 notlive\nend\n<",
            DRAW,
            b">round 1\njob 1\nvector 001010000000001 1\nclosed 001010000000001 0 1 1 0 1 0\nend\n<",
        ],
    ),
    // an unfinished block at the end of the input
    (
        &[b"end\n", b"round\njob"],
        0,
        0,
        Status::Done,
        &[
            b"<end\n",
            READY,
            b"<round\njob<>refused scenario 2 unfinished\nend\n",
        ],
    ),
    // wrong headers
    (
        &[b"round\nend\n"],
        0,
        0,
        Status::ScenarioRefused,
        &[b"<round\nend\n>refused scenario 1 outoforder\n"],
    ),
    (
        &[b"workers 2\n"],
        0,
        0,
        Status::ScenarioRefused,
        &[b"<workers 2\n<>refused scenario 2 unfinished\n"],
    ),
    // the first call hears, the second says
    (&[HEADER], 1, 0, Status::ReadFault, &[]),
    (&[HEADER], 2, 0, Status::WriteFault, &[b"<", HEADER]),
    (&[HEADER], 3, 0, Status::ReadFault, &[b"<", HEADER, READY]),
    // a round in which the disk fails is said, and is the last
    (
        &[HEADER, DRAW, DRAW],
        0,
        3,
        Status::StoreFault,
        &[
            b"<",
            HEADER,
            READY,
            b"<",
            DRAW,
            b">round 1\njob 1\nwithheld 001010000000001 1 fault\nclosed 001010000000001 0 1 1 0 0 1\nend\n",
        ],
    ),
];

// The bytes of these parts, one after the other.
fn joined(rt: &impl Abort, alloc: Global, parts: &[&[u8]]) -> Octets {
    let mut text = Octets::new(alloc);
    for part in parts {
        text.append(part).expect(rt, "memory");
    }
    text
}

// Whether a service ends as a case has it, after what was heard and said there.
fn is_served<R: Abort + Threads + Wait + Sync>(rt: &R, alloc: Global, case: &Case) -> bool {
    let (pieces, call, write, status, parts) = *case;
    let mut wire = wire_of(rt, alloc, pieces, call);
    let disk = failing_disk(rt, alloc, b"", DiskCall::WriteAt, write);
    let ended = serve_over(rt, alloc, &mut wire, disk);
    let spoken = spoken(rt, alloc, &wire);
    ended == status && spoken.as_slice() == joined(rt, alloc, parts).as_slice()
}

#[test]
fn each_block_is_answered_before_more_is_heard(rt: HostRuntime) {
    for place in 0..CASES.len() {
        assert!(rt; is_served(&rt, rt.alloc(), &CASES[place]), "at {place}");
    }
}

// A block of a byte more than the limit.
fn long_block(rt: &impl Abort, alloc: Global) -> Octets {
    let mut block = Octets::copied_from(alloc, b"#").expect(rt, "memory");
    for _ in 1..LIMIT {
        block.append(b" ").expect(rt, "memory");
    }
    block.append(b"\nend\n").expect(rt, "memory");
    block
}

// What was said.
fn said(rt: &impl Abort, alloc: Global, wire: &MemWire) -> Octets {
    let mut text = Octets::new(alloc);
    for turn in wire.turns() {
        if let Turn::Said(bytes) = turn {
            text.append(bytes.as_slice()).expect(rt, "memory");
        }
    }
    text
}

// How a service ends that hears an empty header, the long block and an empty one, and whether it says this.
fn serve_long_block<R: Abort + Threads + Wait + Sync>(
    rt: &R,
    alloc: Global,
    text: &[u8],
) -> (Status, bool) {
    let block = long_block(rt, alloc);
    let mut wire = wire_of(rt, alloc, &[b"end\n", block.as_slice(), b"end\n"], 0);
    let status = serve_over(rt, alloc, &mut wire, disk_of(rt, alloc, b""));
    (status, said(rt, alloc, &wire).as_slice() == text)
}

// The long block is answered when its line `end` was heard, and the next one is served.
#[test]
fn block_that_is_too_long_is_answered_at_its_end(rt: HostRuntime) {
    let text = b"ready\nend\nrefused scenario 0 limit\nend\nend\n";
    assert!(rt; serve_long_block(&rt, rt.alloc(), text) == (Status::Done, true));
}
