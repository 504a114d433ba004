//! Blocks that are heard over a wire.

ghost use Rattle.std.specs.Prelude.{◌<◌, length};

use auc_block::{LIMIT, MemWire, NextBlock, StdWire, Turn, hear_block, say_whole};
use auc_memory::Octets;
use std::alloc::Global;
use std::process::Abort;

// A wire that hears a text in two pieces.
fn wire_of(rt: &impl Abort, alloc: Global, front: &[u8], rest: &[u8]) -> MemWire {
    let mut wire = MemWire::new(alloc, 3);
    wire.add(front).expect(rt, "memory");
    wire.add(rest).expect(rt, "memory");
    wire
}

// A sign for what comes next: a block, one above the limit, the end of the input, the same in a block above the
// limit, or trouble; and the block or what waits.
fn next(
    rt: &impl Abort,
    alloc: Global,
    wire: &mut MemWire,
    waiting: &mut Vec<u8>,
    room: &mut [u8],
) -> (u8, Octets)
    requires { 0 < length room.old }
{
    match hear_block(alloc, wire, waiting, room) {
        Ok(NextBlock::Whole(block)) => (b'<', block),
        Ok(NextBlock::TooLong) => (b'L', copied(rt, alloc, b"")),
        Ok(NextBlock::Ended) => (b'.', copied(rt, alloc, waiting.as_slice())),
        Ok(NextBlock::EndedTooLong) => (b'!', copied(rt, alloc, waiting.as_slice())),
        Err(_) => (b'?', copied(rt, alloc, b"")),
    }
}

fn copied(rt: &impl Abort, alloc: Global, bytes: &[u8]) -> Octets {
    Octets::copied_from(alloc, bytes).expect(rt, "memory")
}

// All that comes up to the end of the input, each with its sign.
fn told(rt: &impl Abort, alloc: Global, wire: &mut MemWire, room: &mut [u8]) -> Octets
    requires { 0 < length room.old }
{
    let mut all = Octets::new(alloc);
    let mut waiting = Vec::new(alloc);
    for _ in 0..9 {
        let (sign, bytes) = next(rt, alloc, wire, &mut waiting, room);
        all.append(&[sign]).expect(rt, "memory");
        all.append(bytes.as_slice()).expect(rt, "memory");
        if sign == b'.' || sign == b'!' {
            return all;
        }
    }
    all
}

// Whether this is told of a text in two pieces, which are heard by pieces of the room's size.
fn is_heard(
    rt: &impl Abort,
    alloc: Global,
    pieces: (&[u8], &[u8]),
    room: &mut [u8],
    all: &[u8],
) -> bool
    requires { 0 < length room.old }
{
    let (front, rest) = pieces;
    let mut wire = wire_of(rt, alloc, front, rest);
    told(rt, alloc, &mut wire, room).as_slice() == all
}

// Whether this is told of a text in two pieces, which are heard at once or byte by byte.
fn is_told(rt: &impl Abort, alloc: Global, pieces: (&[u8], &[u8]), all: &[u8]) -> bool {
    is_heard(rt, alloc, pieces, &mut [0; 64], all) && is_heard(rt, alloc, pieces, &mut [0; 1], all)
}

// By hand: a text, and what is told of it.
const TEXTS: [(&[u8], &[u8]); 7] = [
    (b"", b"."),
    (b"end\n", b"<."),
    (b"end", b".end"),
    (b"end\r", b".end\r"),
    (
        b"draw A 1\nend\ndraw B 1\nend",
        b"<draw A 1\n.draw B 1\nend",
    ),
    (b"round\r\nend\r\nend\r\nend\n", b"<round\r\n<<."),
    (
        b"end\rend\nend \n end\nEND\nend\r\r\nen\nd\n\nend\n",
        b"<end\rend\nend \n end\nEND\nend\r\r\nen\nd\n\n.",
    ),
];

#[test]
fn blocks_are_told_wherever_their_text_is_cut(rt: HostRuntime) {
    for (text, all) in TEXTS {
        for place in 0..=text.len() {
            let is_right = is_told(&rt, rt.alloc(), text.split_at(place), all);
            assert!(rt; is_right, "at {place}");
        }
    }
}

// A line of so many bytes, with its LF.
fn line_of(rt: &impl Abort, alloc: Global, size: usize) -> Vec<u8> {
    let mut line = vec![in alloc; b'x'; size].expect(rt, "memory");
    if let Some(last) = line.last_mut() {
        *last = b'\n';
    }
    line
}

// The signs and sizes of what comes for a line of so many bytes and what is after it.
fn sizes(rt: &impl Abort, alloc: Global, size: usize, behind: &[u8]) -> [(u8, usize); 3] {
    let mut wire = wire_of(rt, alloc, line_of(rt, alloc, size).as_slice(), behind);
    let mut waiting = Vec::new(alloc);
    let mut room = [0; 65536];
    let mut found = [(0, 0); 3];
    for one in &mut found {
        let (sign, bytes) = next(rt, alloc, &mut wire, &mut waiting, &mut room);
        *one = (sign, bytes.len());
    }
    found
}

// The size of a line, what is after it, and the signs and sizes of what comes.
const SIZES: [(usize, &[u8], [(u8, usize); 3]); 3] = [
    (
        LIMIT,
        b"end\nround\nend\n",
        [(b'<', LIMIT), (b'<', 6), (b'.', 0)],
    ),
    (LIMIT, b"end", [(b'!', 0), (b'.', 0), (b'.', 0)]),
    (
        LIMIT + 1,
        b"end\r\nround\nend",
        [(b'L', 0), (b'.', 9), (b'.', 9)],
    ),
];

#[test]
fn a_block_of_the_limit_is_heard_and_no_longer_one(rt: HostRuntime) {
    for (size, behind, found) in SIZES {
        assert!(rt; sizes(&rt, rt.alloc(), size, behind) == found, "at {size}");
    }
}

// A wire that hears a line of 3 MB.
fn wire_of_long_line(rt: &impl Abort, alloc: Global) -> MemWire {
    let line = vec![in alloc; b'x'; 3_000_000].expect(rt, "memory");
    wire_of(rt, alloc, line.as_slice(), b"\nend\n")
}

// The sign for a line of 3 MB without LF, and how much memory what waits has then.
fn long_line(rt: &impl Abort, alloc: Global) -> (u8, usize) {
    let mut waiting = Vec::new(alloc);
    let mut room = [0; 65536];
    let mut wire = wire_of_long_line(rt, alloc);
    let (sign, _) = next(rt, alloc, &mut wire, &mut waiting, &mut room);
    (sign, waiting.capacity())
}

// Memory grows twofold, and 1,114,116 bytes wait at most.
#[test]
fn a_long_line_takes_no_more_memory_than_a_block(rt: HostRuntime) {
    let (sign, capacity) = long_line(&rt, rt.alloc());
    assert!(rt; sign == b'L' && capacity < 2_300_000, "at {capacity}");
}

// Whether this is told of two blocks, if a call fails.
fn is_told_failing(rt: &impl Abort, alloc: Global, failing: u64, all: &[u8]) -> bool {
    let mut wire = wire_of(rt, alloc, b"a\n", b"end\nb\nend\n");
    wire.fail(failing).expect(rt, "memory");
    told(rt, alloc, &mut wire, &mut [0; 64]).as_slice() == all
}

// The call that fails, and what is told.
const FAILING: [(u64, &[u8]); 4] = [
    (1, b"?<a\n<b\n."),
    (2, b"?<a\n<b\n."),
    (3, b"<a\n<b\n?."),
    (4, b"<a\n<b\n."),
];

#[test]
fn a_call_that_fails_loses_no_byte(rt: HostRuntime) {
    for (failing, all) in FAILING {
        let is_right = is_told_failing(&rt, rt.alloc(), failing, all);
        assert!(rt; is_right, "at {failing}");
    }
}

// A wire that heard a block, said a text at most 3 bytes at a time and heard the end, if a call fails.
fn used_wire(rt: &impl Abort, alloc: Global, failing: u64) -> MemWire {
    let mut waiting = Vec::new(alloc);
    let mut room = [0; 64];
    let mut wire = wire_of(rt, alloc, b"a\n", b"end\n");
    wire.fail(failing).expect(rt, "memory");
    let _ = next(rt, alloc, &mut wire, &mut waiting, &mut room);
    let _ = say_whole(&mut wire, b"ready\n");
    let _ = next(rt, alloc, &mut wire, &mut waiting, &mut room);
    wire
}

// Its turns.
fn turns_of(rt: &impl Abort, alloc: Global, failing: u64) -> Octets {
    let wire = used_wire(rt, alloc, failing);
    let mut all = Octets::new(alloc);
    for turn in wire.turns() {
        let (sign, bytes) = match turn {
            Turn::Heard(bytes) => (b'<', bytes),
            Turn::Said(bytes) => (b'>', bytes),
        };
        all.append(&[sign]).expect(rt, "memory");
        all.append(bytes.as_slice()).expect(rt, "memory");
    }
    all
}

// The call that fails, and the turns.
const TURNS: [(u64, &[u8]); 6] = [
    (0, b"<a\n<end\n>rea>dy\n<"),
    (1, b">rea>dy\n<a\n<end\n"),
    (2, b"<a\n>rea>dy\n<end\n"),
    (3, b"<a\n<end\n<"),
    (4, b"<a\n<end\n>rea<"),
    (5, b"<a\n<end\n>rea>dy\n"),
];

#[test]
fn turns_are_kept_in_their_order(rt: HostRuntime) {
    for (failing, all) in TURNS {
        let found = turns_of(&rt, rt.alloc(), failing);
        assert!(rt; found.as_slice() == all, "at {failing}");
    }
}

#[test]
fn standard_output_takes_a_text(rt: HostRuntime) {
    let mut wire = StdWire::new(&rt);
    assert!(rt; say_whole(&mut wire, b"a line of the test\n").is_ok());
}
