//! The form `compact`: a journal is written anew.

use crate::outside::{disk_of, words_of};
use auc_edge::{MemShelf, MemSink, OpenGate};
use auc_memory::Octets;
use auc_run::{Status, run};
use std::alloc::Global;
use std::process::Abort;
use std::sync::Wait;
use std::thread::Threads;

// By hand, from docs/journal.md: a frame of kind 1 for 001010000000001 with limit 64, one of kind 2 for 001010000000002 with 70 and
// for 001017 with 5, and one of kind 1 for the first again with 128. Behind the closed gate stands what says nothing.
const FOUND: &[u8] =
    b"AUC-SQN-JOURNAL1\x01\x01\x0f\0\0\0\xeb\x28\xb0\xf4\x01\0\0\0\0\0\0\0\x40\x01\x02\0\x02\x0f\0\0\0\xeb\x28\xb0\xf4\x02\0\0\0\0\0\0\0\x46\x06\0\0\0\0\0\0\x03\xf9\0\0\0\0\0\0\0\x05\x01\x01\x0f\0\0\0\xeb\x28\xb0\xf4\x01\0\0\0\0\0\0\0\x80\0stale";

// By hand: each of the three once, in a frame of kind 1, and a closed gate.
const ANEW: &[u8] =
    b"AUC-SQN-JOURNAL1\x01\x01\x0f\0\0\0\xeb\x28\xb0\xf4\x01\0\0\0\0\0\0\0\x80\x01\x01\x0f\0\0\0\xeb\x28\xb0\xf4\x02\0\0\0\0\0\0\0\x46\x01\x01\x06\0\0\0\0\0\0\x03\xf9\0\0\0\0\0\0\0\x05\0";

// What both tell, by rising number.
const TOLD: &[u8] =
    b"reserved 001017 5\nreserved 001010000000001 128\nreserved 001010000000002 70\n";

// Checks a run of these words over a disk with these bytes, and answers the bytes that a crash leaves.
fn check<R: Abort + Threads + Wait + Sync>(
    rt: &R,
    alloc: Global,
    file: &[u8],
    all: &[&[u8]],
    status: Status,
    output: &[u8],
) -> Octets {
    let disk = disk_of(rt, alloc, file);
    let words = words_of(rt, alloc, all);
    let mut shelf = MemShelf::new(alloc);
    let mut out = MemSink::new(alloc);
    let ended = run(
        rt,
        alloc,
        words.as_slice(),
        &mut shelf,
        &mut out,
        disk,
        &OpenGate::new(),
    );
    assert!(rt; ended.status == status && out.as_slice() == output);
    ended.disk.crash(alloc, 0).expect(rt, "memory")
}

// Checks `compact` over a disk with these bytes, and answers whether it leaves this file.
fn leaves<R: Abort + Threads + Wait + Sync>(
    rt: &R,
    alloc: Global,
    file: &[u8],
    status: Status,
    output: &[u8],
    image: &[u8],
) -> bool {
    let left = check(rt, alloc, file, &[b"compact"], status, output);
    left.as_slice() == image
}

#[test]
fn compact_writes_each_identity_once(rt: HostRuntime) {
    let alloc = rt.alloc();
    assert!(rt; leaves(&rt, alloc, FOUND, Status::Done, ANEW, FOUND));
    check(&rt, alloc, FOUND, &[b"reserved"], Status::Done, TOLD);
    check(&rt, alloc, ANEW, &[b"reserved"], Status::Done, TOLD);
    check(&rt, alloc, ANEW, &[b"compact"], Status::Done, ANEW);
}

// An empty file is a journal without limits, and the opening writes it.
#[test]
fn compact_goes_by_the_file_that_it_finds(rt: HostRuntime) {
    let alloc = rt.alloc();
    let cases: [(&[u8], Status, &[u8], &[u8]); 2] = [
        (
            b"".as_slice(),
            Status::Done,
            b"AUC-SQN-JOURNAL1\0".as_slice(),
            b"AUC-SQN-JOURNAL1\0".as_slice(),
        ),
        (
            b"AUC-SQN-JOURNAL1\x01\x03".as_slice(),
            Status::NotJournal,
            b"refused journal 16\n".as_slice(),
            b"AUC-SQN-JOURNAL1\x01\x03".as_slice(),
        ),
    ];
    for (file, status, output, image) in cases {
        assert!(rt; leaves(&rt, alloc, file, status, output, image));
    }
}

#[test]
fn words_beside_compact_are_none_of_it(rt: HostRuntime) {
    let alloc = rt.alloc();
    check(
        &rt,
        alloc,
        FOUND,
        &[b"compact", b"x"],
        Status::Usage,
        b"usage\n",
    );
    check(&rt, alloc, FOUND, &[b"compact "], Status::Usage, b"usage\n");
    check(&rt, alloc, FOUND, &[b"compac"], Status::Usage, b"usage\n");
}
