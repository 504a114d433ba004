//! The outside of a run in memory: its words, its files and its disk.

use auc_disk::{DiskCall, FailList, MemDisk};
use auc_edge::MemShelf;
use auc_memory::{Items, Octets};
use std::alloc::Global;
use std::process::Abort;

// The words of a command line.
pub(crate) fn words_of(rt: &impl Abort, alloc: Global, all: &[&[u8]]) -> Items<Octets> {
    let mut words = Items::new(alloc);
    for bytes in all {
        let word = Octets::copied_from(alloc, bytes).expect(rt, "memory");
        words.push(word).expect(rt, "memory");
    }
    words
}

// The words of a run of a scenario.
pub(crate) const RUN: [&[u8]; 2] = [b"run", b"scenario"];

// Two jobs, each of which draws the first number of its own subscriber.
pub(crate) const TWO_JOBS: &[u8] =
    b"workers 2\nsubscriber 001010000000001 465b5ce8b199b49faa5f0a2ee238a6bc opc cd63cb71954a9f4e48a5994e37a02baf 8000 0 0\nsubscriber 001010000000002 465b5ce8b199b49faa5f0a2ee238a6bc opc cd63cb71954a9f4e48a5994e37a02baf 8000 0 0\nround\njob\ndraw 001010000000001 1\njob\ndraw 001010000000002 1\n";

// A shelf with one file.
pub(crate) fn shelf_of(rt: &impl Abort, alloc: Global, name: &[u8], text: &[u8]) -> MemShelf {
    let mut shelf = MemShelf::new(alloc);
    shelf.add(name, text).expect(rt, "memory");
    shelf
}

// A disk with these bytes, of which no call fails.
pub(crate) fn disk_of(rt: &impl Abort, alloc: Global, bytes: &[u8]) -> MemDisk {
    let image = Octets::copied_from(alloc, bytes).expect(rt, "memory");
    MemDisk::new(alloc, image, FailList::new(alloc)).expect(rt, "memory")
}

pub(crate) fn empty_disk(rt: &impl Abort, alloc: Global) -> MemDisk {
    disk_of(rt, alloc, b"")
}

// A disk with these bytes, of which the call of a kind at a place fails; no call has place 0.
pub(crate) fn failing_disk(
    rt: &impl Abort,
    alloc: Global,
    bytes: &[u8],
    call: DiskCall,
    place: u64,
) -> MemDisk {
    let mut fail = FailList::new(alloc);
    fail.push(call, place).expect(rt, "memory");
    let image = Octets::copied_from(alloc, bytes).expect(rt, "memory");
    MemDisk::new(alloc, image, fail).expect(rt, "memory")
}
