//! What no clause says: that calls succeed while there is memory, and how a real file answers.

use auc_disk::{Disk, DiskCall, FailList, FileDisk, MemDisk};
use auc_memory::{Failed, Octets};
use std::alloc::Global;
use std::fs;
use std::process::Abort;

fn disk_of(rt: &impl Abort, alloc: Global, first: &[u8], fail: FailList) -> MemDisk {
    let image = Octets::copied_from(alloc, first).expect(rt, "memory");
    MemDisk::new(alloc, image, fail).expect(rt, "memory")
}

// What a crash of a disk by a choice leaves is these bytes.
fn leaves(rt: &impl Abort, alloc: Global, disk: MemDisk, choice: u32, bytes: &[u8]) -> bool {
    let image = disk.crash(alloc, choice).expect(rt, "memory");
    image.as_slice() == bytes
}

// The first bytes of a disk, whether there is a sync between the writes, the choice of a crash, and what it leaves.
type Crash = (&'static [u8], bool, u32, &'static [u8]);

const CRASHES: [Crash; 10] = [
    (b"abcdef", false, 0, b"abcdef"),
    (b"abcdef", false, 1, b"aQcdWXYZ"),
    (b"abcdef", false, 42, b"a*cd****"),
    (b"abcdef", true, 0, b"abcdWXYZ"),
    (b"abcdef", true, 1, b"aQcdWXYZ"),
    (b"abcdef", true, 298, b"a*cdWXYZ"),
    (b"ab", false, 0, b"ab"),
    (b"ab", false, 1, b"aQ\0\0WXYZ"),
    (b"ab", false, 42, b"a*******"),
    (b"ab", true, 256, b"a\0\0\0WXYZ"),
];

// Whether the writes succeed, and a crash then leaves its image.
fn is_written_and_left(rt: &impl Abort, alloc: Global, crash: Crash) -> bool {
    let (first, synced, choice, image) = crash;
    let mut disk = disk_of(rt, alloc, first, FailList::new(alloc));
    is_written(&mut disk, synced) && leaves(rt, alloc, disk, choice, image)
}

// Computed by hand: WXYZ is written at 4, then Q at 1, with a sync between them or not. Of each write that
// isn't durable, choice 0 leaves the old bytes, 1 the new ones, and others their low byte; 42 is a star.
#[test]
fn a_crash_leaves_each_write_by_its_choice(rt: HostRuntime) {
    for crash in CRASHES {
        let found = is_written_and_left(&rt, rt.alloc(), crash);
        assert!(rt; found, "at {}", crash.2);
    }
}

// Whether the writes succeed, and the sync between them if there is one.
fn is_written(disk: &mut MemDisk, synced: bool) -> bool {
    disk.write_at(4, b"WXYZ").is_ok()
        && (!synced || disk.sync().is_ok())
        && disk.write_at(1, b"Q").is_ok()
}

// A worker on another thread may have the value.
fn is_sent<T: Send>(_value: &T) {}

// Which of the four calls succeed.
fn successes(disk: &mut MemDisk, bytes: &[u8; 3]) -> [bool; 4] {
    let mut buf = [0; 3];
    [
        disk.len().is_ok(),
        disk.read_at(0, &mut buf).is_ok(),
        disk.write_at(0, bytes).is_ok(),
        disk.sync().is_ok(),
    ]
}

// Which calls of two rounds succeed if the second call of one kind fails, and whether a crash by choice 0 then leaves an
// image.
fn two_rounds(
    rt: &impl Abort,
    alloc: Global,
    call: DiskCall,
    image: &[u8],
) -> ([[bool; 4]; 2], bool) {
    let mut fail = FailList::new(alloc);
    fail.push(call, 2).expect(rt, "memory");
    let mut disk = disk_of(rt, alloc, b"old", fail);
    is_sent(&disk);
    let found = [successes(&mut disk, b"one"), successes(&mut disk, b"two")];
    (found, leaves(rt, alloc, disk, 0, image))
}

// The call that fails, which calls of the second round succeed, and the image that a crash leaves.
const FAILURES: [(DiskCall, [bool; 4], &[u8]); 4] = [
    (DiskCall::Len, [false, true, true, true], b"two"),
    (DiskCall::ReadAt, [true, false, true, true], b"two"),
    (DiskCall::WriteAt, [true, true, false, true], b"one"),
    (DiskCall::Sync, [true, true, true, false], b"one"),
];

// The second call of one kind fails. A crash by choice 0 leaves what was durable before it.
#[test]
fn the_call_that_is_told_to_fails(rt: HostRuntime) {
    for (call, succeed, image) in FAILURES {
        let (found, is_left) = two_rounds(&rt, rt.alloc(), call, image);
        assert!(rt; is_left && found == [[true; 4], succeed], "at {call:?}");
    }
}

// What a disk answers to a first call, a write and a sync, and to a read of 8 bytes.
type Made = (
    Result<u64, Failed>,
    [Result<(), Failed>; 2],
    Result<usize, Failed>,
    [u8; 8],
);

fn made<D: Disk>(disk: &mut D) -> Made {
    let mut buf = [9; 8];
    let len = disk.len();
    let written = [disk.write_at(2, b"cd"), disk.sync()];
    let count = disk.read_at(0, &mut buf);
    (len, written, count, buf)
}

// Whether each call of a disk fails.
fn fails<D: Disk>(disk: &mut D) -> bool {
    let mut buf = [0; 8];
    disk.len().is_err()
        && disk.read_at(0, &mut buf).is_err()
        && disk.write_at(0, b"ab").is_err()
        && disk.sync().is_err()
}

// The length of a disk, and how much is read behind 4 bytes.
fn seen<D: Disk>(disk: &mut D) -> (Result<u64, Failed>, Result<usize, Failed>) {
    (disk.len(), disk.read_at(4, &mut [0; 8]))
}

// Whether the real file is missing.
fn is_missing(rt: &HostRuntime) -> bool {
    fs::read(rt, "auc.journal").is_err()
}

// Whether the real file is cut off at its beginning, as another program may do.
fn is_cut_off(rt: &HostRuntime) -> bool {
    fs::write(rt, "auc.journal", b"").is_ok()
}

fn is_removed(rt: &HostRuntime) -> bool {
    fs::remove_file(rt, "auc.journal").is_ok()
}

// Whether a first disk makes the file and writes it, and a second one fails until the first is dropped.
fn is_made_and_locked(rt: &HostRuntime, second: &mut FileDisk<&HostRuntime>) -> bool {
    let mut disk = FileDisk::new(rt);
    let first = made(&mut disk);
    fails(second) && first == (Ok(0), [Ok(()); 2], Ok(4), *b"\0\0cd\t\t\t\t")
}

// Whether a disk sees what the first one wrote, and its read is a fault after the file is cut off.
fn is_seen_and_cut(rt: &HostRuntime, disk: &mut FileDisk<&HostRuntime>) -> bool {
    let seen = seen(disk);
    let is_cut_off = is_cut_off(rt);
    let cut = disk.read_at(0, &mut [0; 8]);
    is_cut_off && seen == (Ok(4), Ok(0)) && cut == Err(Failed)
}

// The first call makes the file. The second disk gets it once the first is dropped. If another program cuts
// the file off below the last length, a read is a fault.
#[test]
fn a_real_file_is_made_written_and_locked(rt: HostRuntime) {
    assert!(rt; is_missing(&rt));
    let mut second = FileDisk::new(&rt);
    assert!(rt; is_made_and_locked(&rt, &mut second));
    assert!(rt; is_seen_and_cut(&rt, &mut second));
    assert!(rt; is_removed(&rt));
}

#[test]
fn a_real_file_may_be_another_threads(rt: HostRuntime) {
    is_sent(&FileDisk::new(&rt));
}
