//! Runs whose files can't be read or whose output can't be written.

use crate::outside::{empty_disk, shelf_of};
use crate::tests::{Case, RUN_BOTH, check, check_text, run_scenario, shelf_of_both};
use auc_edge::{MemShelf, MemSink};
use auc_memory::Octets;
use auc_run::{MAX_FILE, Status};
use std::alloc::Global;
use std::process::Abort;
use std::sync::Wait;
use std::thread::Threads;

// A shelf with both files. The third read fails, which is the first of the scenario.
fn failing_shelf(rt: &impl Abort, alloc: Global) -> MemShelf {
    let mut shelf = shelf_of_both(rt, alloc, b"imsi,k,kind,op,amf,seq,usim\n", b"hello\n");
    shelf.fail(3).expect(rt, "memory");
    shelf
}

#[test]
fn file_that_cannot_be_read_is_a_read_fault(rt: HostRuntime) {
    let alloc = rt.alloc();
    let mut missing = shelf_of(&rt, alloc, b"scenario", b"hello\n");
    let mut failing = failing_shelf(&rt, alloc);
    let fault: Case = (&RUN_BOTH, Status::ReadFault, b"");
    check(&rt, alloc, fault, &mut missing, empty_disk(&rt, alloc));
    check(&rt, alloc, fault, &mut failing, empty_disk(&rt, alloc));
}

// A file of a byte more than 64 MiB.
fn long_file(rt: &impl Abort, alloc: Global) -> Octets {
    let mut text = Octets::new(alloc);
    for _ in 0..16384u32 {
        text.append(&[b'#'; 4096]).expect(rt, "memory");
    }
    text.append(b"#").expect(rt, "memory");
    assert!(rt; text.len() == MAX_FILE + 1);
    text
}

#[test]
fn file_of_more_than_64_mib_is_too_long(rt: HostRuntime) {
    let alloc = rt.alloc();
    let text = long_file(&rt, alloc);
    let disk = empty_disk(&rt, alloc);
    check_text(&rt, alloc, text.as_slice(), disk, Status::TooLong, b"");
}

// How a run of three rounds ends if its second write fails, and whether this was written.
fn three_rounds<R: Abort + Threads + Wait + Sync>(
    rt: &R,
    alloc: Global,
    output: &[u8],
) -> (Status, bool) {
    let mut shelf = shelf_of(rt, alloc, b"scenario", b"round\nround\nround\n");
    let mut out = MemSink::new(alloc);
    out.fail(2).expect(rt, "memory");
    let (status, _) = run_scenario(rt, alloc, &mut shelf, &mut out);
    (status, out.as_slice() == output)
}

#[test]
fn round_whose_write_fails_is_the_last(rt: HostRuntime) {
    let found = three_rounds(&rt, rt.alloc(), b"round 1\n");
    assert!(rt; found == (Status::WriteFault, true));
}
