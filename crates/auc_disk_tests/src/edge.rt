//! What no clause says: that calls succeed while there is memory, and how the real files answer.

ghost use Rattle.std.specs.Prelude.{◌≤◌, ◌^◌};

use auc_edge::{
    FileShelf, Gate, MemShelf, MemSink, ReadRefusal, Shelf, Sink, StdSink, TurnGate, read_all,
    write_whole,
};
use auc_memory::{Failed, Imsi, Items, Octets};
use std::alloc::Global;
use std::fs;
use std::process::Abort;

const LIMIT: usize = 200_000;

fn numbered(rt: &impl Abort, alloc: Global, size: usize) -> Vec<u8> {
    (0..size)
        .map(|at| (at % 251) as u8)
        .collect(alloc)
        .expect(rt, "memory")
}

// A shelf with one file.
fn shelf_of(rt: &impl Abort, alloc: Global, name: &[u8], bytes: &[u8]) -> MemShelf {
    let mut shelf = MemShelf::new(alloc);
    shelf.add(name, bytes).expect(rt, "memory");
    shelf
}

// Whether a file is read, and reads as these bytes; or why it isn't.
fn reads<H: Shelf>(
    alloc: Global,
    shelf: &mut H,
    name: &[u8],
    limit: usize,
    bytes: &[u8],
) -> Result<bool, ReadRefusal>
    requires { limit ≤ 2 ^ 30 }
{
    match read_all(alloc, shelf, name, limit) {
        Ok(text) => Ok(text.as_slice() == bytes),
        Err(why) => Err(why),
    }
}

// Whether a file of so many bytes is read whole up to a limit.
fn reads_numbered(
    rt: &impl Abort,
    alloc: Global,
    size: usize,
    limit: usize,
) -> Result<bool, ReadRefusal>
    requires { limit ≤ 2 ^ 30 }
{
    let bytes = numbered(rt, alloc, size);
    let mut shelf = shelf_of(rt, alloc, b"scenario", bytes.as_slice());
    reads(alloc, &mut shelf, b"scenario", limit, bytes.as_slice())
}

// The size of a file, a limit, and whether the file is read whole, or why it isn't.
const FILES: [(usize, usize, Result<bool, ReadRefusal>); 5] = [
    (0, 0, Ok(true)),
    (5, 5, Ok(true)),
    (5, 4, Err(ReadRefusal::TooLong)),
    (150_000, LIMIT, Ok(true)),
    (150_000, 149_999, Err(ReadRefusal::TooLong)),
];

// Each limit is the size, above it or below it; the third file takes three reads.
#[test]
fn a_file_is_read_whole_up_to_the_limit(rt: HostRuntime) {
    let alloc = rt.alloc();
    for (size, limit, answer) in FILES {
        let found = reads_numbered(&rt, alloc, size, limit);
        assert!(rt; found == answer, "at {size}");
    }
}

// What comes of two reads of a file and one of another name, if the second call to read bytes fails.
fn three_reads(rt: &impl Abort, alloc: Global) -> [Result<bool, ReadRefusal>; 3] {
    let bytes = numbered(rt, alloc, 150_000);
    let mut shelf = shelf_of(rt, alloc, b"scenario", bytes.as_slice());
    shelf.fail(2).expect(rt, "memory");
    [
        reads(alloc, &mut shelf, b"scenario", LIMIT, bytes.as_slice()),
        reads(alloc, &mut shelf, b"scenario", LIMIT, bytes.as_slice()),
        reads(alloc, &mut shelf, b"subscribers", LIMIT, bytes.as_slice()),
    ]
}

// The second of three reads of a file fails, then none does; another name is missing.
#[test]
fn a_read_that_fails_in_the_middle_is_a_fault(rt: HostRuntime) {
    let found = three_reads(&rt, rt.alloc());
    let fault = Err(ReadRefusal::ReadFault);
    assert!(rt; found == [fault, Ok(true), fault]);
}

// An output that takes at most three bytes at a time.
#[derive(Drop)]
struct ShortSink {
    sink: MemSink,
}

impl Sink for ShortSink {
    ghost use Rattle.std.specs.Prelude.{None};

    ghost written = { λ _. None };

    ghost faults = { λ s. s.sink.faults };

    fn write(&mut self, bytes: &[u8]) -> Result<usize, Failed> {
        self.sink.write(&bytes[..bytes.len().min(3)])
    }
}

// Whether a text is written whole if one write fails, and whether these bytes are then written.
fn writes(rt: &impl Abort, alloc: Global, failing: u64, written: &[u8]) -> (bool, bool) {
    let mut sink = MemSink::new(alloc);
    sink.fail(failing).expect(rt, "memory");
    let mut out = ShortSink { sink };
    let is_ok = write_whole(&mut out, b"vector 1").is_ok();
    (is_ok, out.sink.as_slice() == written)
}

#[test]
fn a_text_is_written_whole_by_short_writes(rt: HostRuntime) {
    let alloc = rt.alloc();
    let cases = [(0, b"vector 1".as_slice(), true), (2, b"vec", false)];
    for (failing, written, succeeds) in cases {
        let found = writes(&rt, alloc, failing, written);
        assert!(rt; found == (succeeds, true), "at {failing}");
    }
}

// The digits and the number of an identity, if a text is one, and whether it is written as that text.
fn identity_of(rt: &impl Abort, alloc: Global, text: &[u8]) -> Option<(u8, u64, bool)> {
    let imsi = Imsi::read(text)?;
    let (digits, number) = (imsi.digits(), imsi.number());
    let mut out = Octets::new(alloc);
    imsi.write_to(&mut out).expect(rt, "memory");
    let is_same = out.as_slice() == text && Imsi::of(digits, number) == Some(imsi);
    Some((digits, number, is_same))
}

// A text, and what it is read as.
const IDENTITIES: [(&[u8], Option<(u8, u64, bool)>); 7] = [
    (b"244070100000001", Some((15, 244_070_100_000_001, true))),
    (b"001010000000001", Some((15, 1_010_000_000_001, true))),
    (b"000000", Some((6, 0, true))),
    (b"00101", None),
    (b"0010100000000012", None),
    (b"00101000000001a", None),
    (b"+01010000000001", None),
];

// TS 23.003 §2.2 and RFC 4186 Appendix A.2 (its permanent identity without the leading 1).
#[test]
fn identities_are_read_and_written(rt: HostRuntime) {
    let alloc = rt.alloc();
    for (text, identity) in IDENTITIES {
        assert!(rt; identity_of(&rt, alloc, text) == identity, "at {text:?}");
    }
}

// Whether a text that grows by a word and the greatest number has their bytes.
fn octets_grow(rt: &impl Abort, alloc: Global) -> bool {
    let mut text = Octets::new(alloc);
    text.append(b"vector ").expect(rt, "memory");
    text.append_number(18_446_744_073_709_551_615)
        .expect(rt, "memory");
    text.as_slice() == b"vector 18446744073709551615".as_slice()
}

// The last item of a list that grows by 5 and 7, and whether 5 is then left.
fn list_grows(rt: &impl Abort, alloc: Global) -> (Option<u64>, bool) {
    let mut list = Items::new(alloc);
    list.push(5).expect(rt, "memory");
    list.push(7).expect(rt, "memory");
    (list.pop(), list.as_slice() == [5].as_slice())
}

#[test]
fn lists_and_octets_grow(rt: HostRuntime) {
    assert!(rt; octets_grow(&rt, rt.alloc()));
    assert!(rt; list_grows(&rt, rt.alloc()) == (Some(7), true));
}

// A missing file, a folder, the empty name and one that isn't UTF-8 are faults.
#[test]
fn real_files_are_read(rt: HostRuntime) {
    let alloc = rt.alloc();
    fs::write(&rt, "words.tmp", b"aircraft\n").expect(&rt, "a file");
    let mut shelf = FileShelf::new(&rt);
    let found = reads(alloc, &mut shelf, b"words.tmp", 100, b"aircraft\n");
    fs::remove_file(&rt, "words.tmp").expect(&rt, "a file");
    assert!(rt; found == Ok(true));
    for name in [b"words.tmp".as_slice(), b".", b"", b"words\xff"] {
        let refused = reads(alloc, &mut shelf, name, 100, b"");
        assert!(rt; refused == Err(ReadRefusal::ReadFault));
    }
}

#[test]
fn standard_output_takes_a_text(rt: HostRuntime) {
    let mut out = StdSink::new(&rt);
    assert!(rt; write_whole(&mut out, b"a line of the test\n").is_ok());
}

// A job alone at the gate is held until the limit; the others aren't held.
#[test]
fn gate_holds_one_of_two_jobs(rt: HostRuntime) {
    let gate = TurnGate::new(3);
    gate.enter(&rt, 2);
    gate.leave(&rt, 3);
    let first = (gate.left(), gate.expired());
    gate.leave(&rt, 1);
    let second = (gate.left(), gate.expired());
    gate.leave(&rt, 2);
    assert!(rt; (first, second, gate.left()) == ((1, false), (2, true), 3));
}
