//! Runs over files, a disk and an output in memory, which fail or run side by side. Further runs stand in `examples/`, and
//! one in the crate `auc_cli`.

use crate::outside::{RUN, TWO_JOBS, disk_of, empty_disk, failing_disk, shelf_of, words_of};
use auc_disk::{DiskCall, MemDisk};
use auc_edge::{Gate, MemShelf, MemSink, OpenGate, TurnGate};
use auc_memory::Octets;
use auc_run::{Status, run};
use std::alloc::Global;
use std::process::Abort;
use std::sync::Wait;
use std::thread::Threads;

// A shelf with both files.
pub(crate) fn shelf_of_both(
    rt: &impl Abort,
    alloc: Global,
    subscribers: &[u8],
    scenario: &[u8],
) -> MemShelf {
    let mut shelf = MemShelf::new(alloc);
    let Ok(()) = shelf.add(b"subscribers", subscribers) else {
        panic!(rt; "no memory")
    };
    shelf.add(b"scenario", scenario).expect(rt, "memory");
    shelf
}

// A run's words, its status and its output.
pub(crate) type Case<'a> = (&'a [&'a [u8]], Status, &'a [u8]);

// Checks a run with a gate. It answers the disk.
fn check_at<R: Abort + Threads + Wait + Sync, G: Gate + Sync>(
    rt: &R,
    alloc: Global,
    case: Case,
    shelf: &mut MemShelf,
    disk: MemDisk,
    gate: &G,
) -> MemDisk {
    let (words, status, output) = case;
    let words = words_of(rt, alloc, words);
    let mut out = MemSink::new(alloc);
    let ended = run(rt, alloc, words.as_slice(), shelf, &mut out, disk, gate);
    assert!(rt; ended.status == status && out.as_slice() == output);
    ended.disk
}

// Checks a run with a gate that holds no job. It answers the disk.
pub(crate) fn check<R: Abort + Threads + Wait + Sync>(
    rt: &R,
    alloc: Global,
    case: Case,
    shelf: &mut MemShelf,
    disk: MemDisk,
) -> MemDisk {
    check_at(rt, alloc, case, shelf, disk, &OpenGate::new())
}

// The words of a run of a scenario with a file of subscribers.
pub(crate) const RUN_BOTH: [&[u8]; 3] = [b"run", b"scenario", b"subscribers"];

// Checks a run of a scenario with this text, over a disk. It answers the disk.
pub(crate) fn check_text<R: Abort + Threads + Wait + Sync>(
    rt: &R,
    alloc: Global,
    text: &[u8],
    disk: MemDisk,
    status: Status,
    output: &[u8],
) -> MemDisk {
    let mut shelf = shelf_of(rt, alloc, b"scenario", text);
    check(rt, alloc, (&RUN, status, output), &mut shelf, disk)
}

// A scenario of one job that draws.
fn drawing(rt: &impl Abort, alloc: Global, count: u64) -> Octets {
    let mut text = Octets::copied_from(
        alloc,
        b"subscriber 001010000000001 465b5ce8b199b49faa5f0a2ee238a6bc opc cd63cb71954a9f4e48a5994e37a02baf 8000 0 0\nround\njob\ndraw 001010000000001 ",
    )
    .expect(rt, "memory");
    text.append_number(count).expect(rt, "memory");
    text.append(b"\n").expect(rt, "memory");
    text
}

// A text with the lines of these vectors between two others.
fn with_vectors(
    rt: &impl Abort,
    alloc: Global,
    front: &[u8],
    first: u64,
    end: u64,
    rest: &[u8],
) -> Octets {
    let mut text = Octets::copied_from(alloc, front).expect(rt, "memory");
    for n in first..end {
        text.append(b"vector 001010000000001 ").expect(rt, "memory");
        text.append_number(n).expect(rt, "memory");
        text.append(b"\n").expect(rt, "memory");
    }
    text.append(rest).expect(rt, "memory");
    text
}

// Checks a run of 70 draws of whose disk the fifth write fails, and a run of one draw on what a crash by a choice leaves.
fn check_crash<R: Abort + Threads + Wait + Sync>(rt: &R, alloc: Global, choice: u32, after: &[u8]) {
    let rest = b"withheld 001010000000001 65 fault\nclosed 001010000000001 0 65 65 0 64 1\n";
    let output = with_vectors(rt, alloc, b"round 1\njob 1\n", 1, 65, rest);
    let many = drawing(rt, alloc, 70);
    let disk = failing_disk(rt, alloc, b"", DiskCall::WriteAt, 5);
    let fault = Status::StoreFault;
    let left = check_text(rt, alloc, many.as_slice(), disk, fault, output.as_slice());
    let image = left.crash(alloc, choice).expect(rt, "memory");
    let one = drawing(rt, alloc, 1);
    let next = disk_of(rt, alloc, image.as_slice());
    check_text(rt, alloc, one.as_slice(), next, Status::Done, after);
}

// By hand: the opening writes once and each append twice, so the fifth write would open the gate of limit 128. A crash
// leaves it closed, and 65 is drawn next, or open, and 129 is. The choice, and what the next run writes.
const CRASHES: [(u32, &[u8]); 2] = [
    (
        0,
        b"round 1\njob 1\nvector 001010000000001 65\nclosed 001010000000001 64 65 1 0 1 0\n",
    ),
    (
        1,
        b"round 1\njob 1\nvector 001010000000001 129\nclosed 001010000000001 128 129 1 0 1 0\n",
    ),
];

#[test]
fn round_in_which_the_disk_fails_is_written_and_is_the_last(rt: HostRuntime) {
    for (choice, after) in CRASHES {
        check_crash(&rt, rt.alloc(), choice, after);
    }
}

// By hand: the opening writes once, so the third write would open the gate of the group of both subscribers. It fails before
// any number is reserved.
#[test]
fn round_whose_group_fails_releases_nothing(rt: HostRuntime) {
    let alloc = rt.alloc();
    check_text(
        &rt,
        alloc,
        b"subscriber 001010000000001 465b5ce8b199b49faa5f0a2ee238a6bc opc cd63cb71954a9f4e48a5994e37a02baf 8000 0 0\nsubscriber 001010000000002 465b5ce8b199b49faa5f0a2ee238a6bc opc cd63cb71954a9f4e48a5994e37a02baf 8000 0 0\nround\njob\ndraw 001010000000001 5\njob\ndraw 001010000000002 5\n",
        failing_disk(&rt, alloc, b"", DiskCall::WriteAt, 3),
        Status::StoreFault,
        b"round 1\njob 1\nwithheld 001010000000001 1 fault\njob 2\nwithheld 001010000000002 1 fault\nclosed 001010000000001 0 1 1 0 0 1\nclosed 001010000000002 0 1 1 0 0 1\n",
    );
}

// A scenario of so many subscribers, up to 900, each of whom draws once.
fn drawing_once_each(rt: &impl Abort, alloc: Global, count: u32) -> Octets {
    let mut text = Octets::new(alloc);
    let mut draws = Octets::copied_from(alloc, b"round\njob\n").expect(rt, "memory");
    for sub in 100..100 + u64::from(count) {
        text.append(b"subscriber 001010000000").expect(rt, "memory");
        text.append_number(sub).expect(rt, "memory");
        text.append(
            b" 465b5ce8b199b49faa5f0a2ee238a6bc opc cd63cb71954a9f4e48a5994e37a02baf 8000 0 0\n",
        ).expect(rt, "memory");
        draws.append(b"draw 001010000000").expect(rt, "memory");
        draws.append_number(sub).expect(rt, "memory");
        draws.append(b" 1\n").expect(rt, "memory");
    }
    text.append(draws.as_slice()).expect(rt, "memory");
    text
}

// Runs a scenario over a shelf and an empty disk. It answers the status and the disk.
pub(crate) fn run_scenario<R: Abort + Threads + Wait + Sync>(
    rt: &R,
    alloc: Global,
    shelf: &mut MemShelf,
    out: &mut MemSink,
) -> (Status, MemDisk) {
    let words = words_of(rt, alloc, &RUN);
    let disk = empty_disk(rt, alloc);
    let gate = OpenGate::new();
    let ended = run(rt, alloc, words.as_slice(), shelf, out, disk, &gate);
    (ended.status, ended.disk)
}

// The length of the journal after a round in which so many subscribers draw once.
fn journal_after<R: Abort + Threads + Wait + Sync>(rt: &R, alloc: Global, count: u32) -> usize {
    let text = drawing_once_each(rt, alloc, count);
    let mut shelf = shelf_of(rt, alloc, b"scenario", text.as_slice());
    let mut out = MemSink::new(alloc);
    let (status, left) = run_scenario(rt, alloc, &mut shelf, &mut out);
    let image = left.crash(alloc, 1).expect(rt, "memory");
    assert!(rt; status == Status::Done);
    image.len()
}

// By the format: 16 bytes and a closed gate, and 4 + 17 c for a group of c, or 19 for a single frame. A group has 256
// subscribers at most, and one that is left is reserved singly.
#[test]
fn round_reserves_for_its_subscribers_in_groups(rt: HostRuntime) {
    let alloc = rt.alloc();
    for (count, len) in [(1, 36), (2, 55), (256, 4373), (257, 4392), (258, 4411)] {
        let found = journal_after(&rt, alloc, count);
        assert!(rt; found == len, "at {count}: {found}");
    }
}

// By the user's guide: 5 numbers reserve 64, and the one after the restart reserves 128.
#[test]
fn reserved_tells_what_a_run_reserved(rt: HostRuntime) {
    let alloc = rt.alloc();
    let left = check_text(
        &rt,
        alloc,
        b"subscriber 001010000000001 465b5ce8b199b49faa5f0a2ee238a6bc opc cd63cb71954a9f4e48a5994e37a02baf 8000 0 0\nround\njob\ndraw 001010000000001 1\nrestart\nround\njob\ndraw 001010000000001 1\nrestart\n",
        empty_disk(&rt, alloc),
        Status::Done,
        b"round 1\njob 1\nvector 001010000000001 1\nclosed 001010000000001 0 1 1 0 1 0\nrestart\nround 2\njob 1\nvector 001010000000001 65\nclosed 001010000000001 64 65 1 0 1 0\nrestart\n",
    );
    let mut shelf = MemShelf::new(alloc);
    let told = b"reserved 001010000000001 128\n";
    check(
        &rt,
        alloc,
        (&[b"reserved"], Status::Done, told),
        &mut shelf,
        left,
    );
}

// A scenario, its status and its output, by hand. With an index of no bits the SQN of a number is the number, and 1 is old after 2. With
// an age limit of 3 the vector of 1 is refused after that of 4, whose SQN is 32 * 4 + 4, and that of 2 isn't. With 6 bits numbers end
// at 2 ^ 42 - 1, in a limit of the journal too.
const BY_INDEX_AND_AGE: [(&[u8], Status, &[u8]); 7] = [
    (
        b"subscriber 001010000000001 465b5ce8b199b49faa5f0a2ee238a6bc opc cd63cb71954a9f4e48a5994e37a02baf 8000 0 0 0 -\nround\njob\ndraw 001010000000001 2\ngive 001010000000001 2\ngive 001010000000001 1\n",
        Status::Done,
        b"round 1\njob 1\nvector 001010000000001 1\nvector 001010000000001 2\ngive 001010000000001 2 accepted\ngive 001010000000001 1 sync 000000000002\nclosed 001010000000001 0 2 2 0 2 0\n",
    ),
    (
        b"subscriber 001010000000001 465b5ce8b199b49faa5f0a2ee238a6bc opc cd63cb71954a9f4e48a5994e37a02baf 8000 0 0 5 3\nround\njob\ndraw 001010000000001 4\ngive 001010000000001 4\ngive 001010000000001 1\ngive 001010000000001 2\n",
        Status::Done,
        b"round 1\njob 1\nvector 001010000000001 1\nvector 001010000000001 2\nvector 001010000000001 3\nvector 001010000000001 4\ngive 001010000000001 4 accepted\ngive 001010000000001 1 sync 000000000084\ngive 001010000000001 2 accepted\nclosed 001010000000001 0 4 4 0 4 0\n",
    ),
    (
        b"subscriber 001010000000001 465b5ce8b199b49faa5f0a2ee238a6bc opc cd63cb71954a9f4e48a5994e37a02baf 8000 4398046511102 0 6 -\nround\njob\ndraw 001010000000001 3\nrestart\nround\njob\ndraw 001010000000001 1\n",
        Status::Done,
        b"round 1\njob 1\nvector 001010000000001 4398046511103\nexhausted 001010000000001 4398046511103\nclosed 001010000000001 4398046511102 4398046511104 2 0 1 0\nrestart\nround 2\njob 1\nexhausted 001010000000001 4398046511103\nclosed 001010000000001 4398046511103 4398046511104 1 0 0 0\n",
    ),
    (
        b"subscriber 001010000000001 465b5ce8b199b49faa5f0a2ee238a6bc opc cd63cb71954a9f4e48a5994e37a02baf 8000 4398046511104 0 6 -\nround\njob\ndraw 001010000000001 3\n",
        Status::ScenarioRefused,
        b"refused scenario 1 seq\n",
    ),
    (
        b"subscriber 001010000000001 465b5ce8b199b49faa5f0a2ee238a6bc opc cd63cb71954a9f4e48a5994e37a02baf 8000 4398046511102 0 7 -\nround\njob\ndraw 001010000000001 3\n",
        Status::ScenarioRefused,
        b"refused scenario 1 bits\n",
    ),
    (
        b"subscriber 001010000000001 465b5ce8b199b49faa5f0a2ee238a6bc opc cd63cb71954a9f4e48a5994e37a02baf 8000 4398046511102 0 6 0\nround\njob\ndraw 001010000000001 3\n",
        Status::ScenarioRefused,
        b"refused scenario 1 age\n",
    ),
    (
        b"subscriber 001010000000001 465b5ce8b199b49faa5f0a2ee238a6bc opc cd63cb71954a9f4e48a5994e37a02baf 8000 0 0 6 -\nround\njob\nsync 001010000000001 4398046511104 - 0\n",
        Status::ScenarioRefused,
        b"refused scenario 4 limit\n",
    ),
];

#[test]
fn index_length_and_age_limit_go_by_the_subscriber(rt: HostRuntime) {
    let alloc = rt.alloc();
    for (scenario, status, output) in BY_INDEX_AND_AGE {
        let disk = empty_disk(&rt, alloc);
        check_text(&rt, alloc, scenario, disk, status, output);
    }
}

// By hand, from the tables of docs/sessions.md. The SQN of a number N is 32 N + N % 32: 16020, in hexadecimal 3e94, for
// 500. A session draws from the numbers of its subscriber, and so does the line after it.
#[test]
fn sessions_go_by_the_tables_of_their_ends(rt: HostRuntime) {
    let alloc = rt.alloc();
    let stale = with_vectors(
        &rt,
        alloc,
        b"round 1\njob 1\nsession 1 open\nstart 1 sent 1\ndeliver 1 peer 1 sent 2\ndeliver 1 server 2 drew 1 sent 3\ndeliver 1 peer 3 sync 000000003e94 sent 4\ndeliver 1 server 4 moved 1 500 drew 501 sent 5\ndeliver 1 peer 5 accepted 000000003eb5 sent 6\ndeliver 1 server 6 sent 7 ended success\ndeliver 1 peer 7 ended success\n",
        502,
        542,
        b"sync 001010000000001 inrange 541 500\nvector 001010000000001 542\nclosed 001010000000001 0 542 43 499 43 0\nsession 1 agree\npremise held\n",
    );
    let cases: [(&[u8], &[u8]); 3] = [
        // The USIM stands at 500, and the centre at 0.
        (
            b"subscriber 001010000000001 465b5ce8b199b49faa5f0a2ee238a6bc opc cd63cb71954a9f4e48a5994e37a02baf 8000 0 500\nround\njob\nsession 1 001010000000001 aka - - - held\nplain 1\ndraw 001010000000001 40\nsync 001010000000001 500 - 1\n".as_slice(),
            stale.as_slice(),
        ),
        // EAP-Success of another session comes too early, and the challenge comes twice.
        (
            b"subscriber 001010000000001 465b5ce8b199b49faa5f0a2ee238a6bc opc cd63cb71954a9f4e48a5994e37a02baf 8000 0 0\nround\njob\nsession 1 001010000000001 aka - - - held\nplain 1\nsession 2 001010000000001 aka - - - held\nstart 2\ndeliver 2 peer 6\ndeliver 2 server 7\ndeliver 2 peer 5\ndeliver 2 peer 8\ndeliver 2 peer 8\ndeliver 2 server 10\ndeliver 2 peer 11\n".as_slice(),
            b"round 1\njob 1\nsession 1 open\nstart 1 sent 1\ndeliver 1 peer 1 sent 2\ndeliver 1 server 2 drew 1 sent 3\ndeliver 1 peer 3 accepted 000000000021 sent 4\ndeliver 1 server 4 sent 5 ended success\ndeliver 1 peer 5 ended success\nsession 2 open\nstart 2 sent 6\ndeliver 2 peer 6 sent 7\ndeliver 2 server 7 drew 2 sent 8\ndeliver 2 peer 5 ignored unexpected\ndeliver 2 peer 8 accepted 000000000042 sent 9\ndeliver 2 peer 8 sent 10\ndeliver 2 server 10 sent 11 ended success\ndeliver 2 peer 11 ended success\nclosed 001010000000001 0 2 2 0 2 0\nsession 1 agree\nsession 2 agree\npremise held\n".as_slice(),
        ),
        // No number is left.
        (
            b"subscriber 001010000000001 465b5ce8b199b49faa5f0a2ee238a6bc opc cd63cb71954a9f4e48a5994e37a02baf 8000 8796093022207 0\nround\njob\nsession 1 001010000000001 aka - - - held\nplain 1\n".as_slice(),
            b"round 1\njob 1\nsession 1 open\nstart 1 sent 1\ndeliver 1 peer 1 sent 2\ndeliver 1 server 2 exhausted 8796093022207 sent 3\ndeliver 1 peer 3 sent 4\ndeliver 1 server 4 sent 5 ended failure exhausted 8796093022207\ndeliver 1 peer 5 ended failure notified 16384\nclosed 001010000000001 8796093022207 8796093022208 1 0 0 0\npremise held\n".as_slice(),
        ),
    ];
    for (scenario, output) in cases {
        let disk = empty_disk(&rt, alloc);
        check_text(&rt, alloc, scenario, disk, Status::Done, output);
    }
}

// A scenario and its output, by RFC 4186 §7, §9 and §10, calculated with hashlib and hmac from the vectors of these numbers, and the
// tables of docs/sessions.md. The calculation gave the keys of RFC 4186 Appendix A.
const SIM_SESSIONS: [(&[u8], &[u8]); 5] = [
    // Three triplets, in full.
    (
        b"subscriber 001010000000001 465b5ce8b199b49faa5f0a2ee238a6bc opc cd63cb71954a9f4e48a5994e37a02baf 8000 0 0\nprint full\nround\njob\nsim 001010000000001 3 plain\n",
        b"round 1\njob 1\nvector 001010000000001 1\nbytes bdd219b8a08ded1aa836efcc8b770dc7 e61e39e816258000d23d08f8cacee0ac 00d45e96d3191ef1 8b54b61ec7c85f82acc4c997e92c5654 73c8f3eab29b64b576076ab69f5621f0\nvector 001010000000001 2\nbytes da41597c5157488d7724e03fb8d84a37 2b53d035258880002f19aa4103373600 cdf26b50afe61775 04b61ea4ae0bb7a0450ba0ebdd8da4d1 8a1c3a7b8cf2e5f2e02be01c1b4f2de6\nvector 001010000000001 3\nbytes 6a43b8f41518a11cc387b669b2ee6586 551f6c5acf528000af2d666184ca6b95 0494015a8c680185 e4b7538fcc014059abe80a710a80b4b5 fb6f9013edc94b23fc9e0db9d2f88c0c\nsim 001010000000001 start sent 1\npacket 1 01010014120a00000a0100000f02000200010000\nsim 001010000000001 peer 1 sent 2\npacket 2 02010034120a000007050000dbeda0c4eaf6d931a815e69d1841e2e5100100010e05001031303031303130303030303030303031\nsim 001010000000001 server 2 sent 3\npacket 3 01020050120b0000010d0000bdd219b8a08ded1aa836efcc8b770dc7da41597c5157488d7724e03fb8d84a376a43b8f41518a11cc387b669b2ee65860b05000009365fcf16c0afc22cd24afb92be0f9d\nsim 001010000000001 peer 3 sent 4\npacket 4 0202001c120b00000b050000dd56ead93806567596f6986920f42a92\nsim 001010000000001 server 4 sent 5 ended success\npacket 5 03020004\nkeys b2de7434cd232e5f5b6b846b41ac6d8f 33d86a5ae8e13f8c3792f4b358fd47a500000000000000000000000000000000 0000000000000000000000000000000000000000000000000000000000000000 7f3304ad0e64de4b39ae49d3a05ab08a37fb4c08cd8b38b18c28d69c0cb59ede91f9a66a3d5baf63da405cb9c43fe8e4d1dc3235d9476f0bcf0101780a5ec050 0201fcf38a7110df9f2218b8b91abc5dc8e81abfbc35d7938a676e4f3df4fcb1800bb396ef7ba52bc4799280b77304c246641159a38d159d8077fdb0d15eb53e\nsim 001010000000001 peer 5 ended success\nkeys b2de7434cd232e5f5b6b846b41ac6d8f 33d86a5ae8e13f8c3792f4b358fd47a500000000000000000000000000000000 0000000000000000000000000000000000000000000000000000000000000000 7f3304ad0e64de4b39ae49d3a05ab08a37fb4c08cd8b38b18c28d69c0cb59ede91f9a66a3d5baf63da405cb9c43fe8e4d1dc3235d9476f0bcf0101780a5ec050 0201fcf38a7110df9f2218b8b91abc5dc8e81abfbc35d7938a676e4f3df4fcb1800bb396ef7ba52bc4799280b77304c246641159a38d159d8077fdb0d15eb53e\nsim 001010000000001 agree\nclosed 001010000000001 0 3 3 0 3 0\n",
    ),
    // Two, with a realm, after another vector: NONCE_MT is that of number 2.
    (
        b"subscriber 001010000000001 465b5ce8b199b49faa5f0a2ee238a6bc opc cd63cb71954a9f4e48a5994e37a02baf 8000 0 0\nprint full\nrealm example.org\nround\njob\ndraw 001010000000001 1\nsim 001010000000001 2 plain\n",
        b"round 1\njob 1\nvector 001010000000001 1\nbytes bdd219b8a08ded1aa836efcc8b770dc7 e61e39e816258000d23d08f8cacee0ac 00d45e96d3191ef1 8b54b61ec7c85f82acc4c997e92c5654 73c8f3eab29b64b576076ab69f5621f0\nvector 001010000000001 2\nbytes da41597c5157488d7724e03fb8d84a37 2b53d035258880002f19aa4103373600 cdf26b50afe61775 04b61ea4ae0bb7a0450ba0ebdd8da4d1 8a1c3a7b8cf2e5f2e02be01c1b4f2de6\nvector 001010000000001 3\nbytes 6a43b8f41518a11cc387b669b2ee6586 551f6c5acf528000af2d666184ca6b95 0494015a8c680185 e4b7538fcc014059abe80a710a80b4b5 fb6f9013edc94b23fc9e0db9d2f88c0c\nsim 001010000000001 start sent 1\npacket 1 01010014120a00000a0100000f02000200010000\nsim 001010000000001 peer 1 sent 2\npacket 2 02010040120a000007050000f6a592362b2ddd824ef9daecaea293fd100100010e08001c31303031303130303030303030303031406578616d706c652e6f7267\nsim 001010000000001 server 2 sent 3\npacket 3 01020040120b000001090000da41597c5157488d7724e03fb8d84a376a43b8f41518a11cc387b669b2ee65860b0500009869f616f2e83c76ac4b9babea4fdac8\nsim 001010000000001 peer 3 sent 4\npacket 4 0202001c120b00000b050000f5d84dd10bf68af20208c73ad8739453\nsim 001010000000001 server 4 sent 5 ended success\npacket 5 03020004\nkeys edef457147e2e5e5269d6e2f39a4475c 56e2ab711187649af92b72a53dfa524900000000000000000000000000000000 0000000000000000000000000000000000000000000000000000000000000000 2e7bf00ac40956143922072c3fd895cc8efef0431ea2e560c5a1e4d623182c4466aeef0d643dee864a63de3ab019e239e55136b5da404c8729d8848e3531d501 67d6bd26a5ba44e6d7e281ec7930ff4d9d2396084665a96405beb6752bc90966b6491cc9b420fc7a9b48530cdefd9929331bf0533ddc365e07094289d81b93fd\nsim 001010000000001 peer 5 ended success\nkeys edef457147e2e5e5269d6e2f39a4475c 56e2ab711187649af92b72a53dfa524900000000000000000000000000000000 0000000000000000000000000000000000000000000000000000000000000000 2e7bf00ac40956143922072c3fd895cc8efef0431ea2e560c5a1e4d623182c4466aeef0d643dee864a63de3ab019e239e55136b5da404c8729d8848e3531d501 67d6bd26a5ba44e6d7e281ec7930ff4d9d2396084665a96405beb6752bc90966b6491cc9b420fc7a9b48530cdefd9929331bf0533ddc365e07094289d81b93fd\nsim 001010000000001 agree\nclosed 001010000000001 0 3 3 0 3 0\n",
    ),
    // The response of a repeated Start request comes when the server awaits another one.
    (
        b"subscriber 001010000000001 465b5ce8b199b49faa5f0a2ee238a6bc opc cd63cb71954a9f4e48a5994e37a02baf 8000 0 0\nround\njob\nsim 001010000000001 2 p1,s2,p1,s4,p3,p9\n",
        b"round 1\njob 1\nvector 001010000000001 1\nvector 001010000000001 2\nsim 001010000000001 start sent 1\nsim 001010000000001 peer 1 sent 2\nsim 001010000000001 server 2 sent 3\nsim 001010000000001 peer 1 sent 4\nsim 001010000000001 server 4 ignored notforme\nsim 001010000000001 peer 3 sent 5\nsim 001010000000001 peer 9 nosuchpacket\nclosed 001010000000001 0 2 2 0 2 0\n",
    ),
    // Each packet of the peer comes twice, and the Start request once more after the challenge.
    (
        b"subscriber 001010000000001 465b5ce8b199b49faa5f0a2ee238a6bc opc cd63cb71954a9f4e48a5994e37a02baf 8000 0 0\nround\njob\nsim 001010000000001 2 p1,p1,s2,s3,p4,p4,s6,s5,p1,p7,p7\n",
        b"round 1\njob 1\nvector 001010000000001 1\nvector 001010000000001 2\nsim 001010000000001 start sent 1\nsim 001010000000001 peer 1 sent 2\nsim 001010000000001 peer 1 sent 3\nsim 001010000000001 server 2 sent 4\nsim 001010000000001 server 3 ignored notforme\nsim 001010000000001 peer 4 sent 5\nsim 001010000000001 peer 4 sent 6\nsim 001010000000001 server 6 sent 7 ended success\nsim 001010000000001 server 5 ignored closed\nsim 001010000000001 peer 1 ignored unexpected\nsim 001010000000001 peer 7 ended success\nsim 001010000000001 peer 7 ignored closed\nsim 001010000000001 agree\nclosed 001010000000001 0 2 2 0 2 0\n",
    ),
    // One of three vectors is refused, so no session is run.
    (
        b"subscriber 001010000000001 465b5ce8b199b49faa5f0a2ee238a6bc opc cd63cb71954a9f4e48a5994e37a02baf 8000 8796093022205 0\nround\njob\nsim 001010000000001 3 plain\n",
        b"round 1\njob 1\nvector 001010000000001 8796093022206\nvector 001010000000001 8796093022207\nexhausted 001010000000001 8796093022207\nclosed 001010000000001 8796093022205 8796093022208 3 0 2 0\n",
    ),
];

#[test]
fn sessions_of_eap_sim_go_by_their_schedules(rt: HostRuntime) {
    let alloc = rt.alloc();
    for (scenario, output) in SIM_SESSIONS {
        let disk = empty_disk(&rt, alloc);
        check_text(&rt, alloc, scenario, disk, Status::Done, output);
    }
}

// A journal begins with its header. The opening asks for the length first.
#[test]
fn journal_that_cannot_be_opened_ends_the_run(rt: HostRuntime) {
    let alloc = rt.alloc();
    let disk = disk_of(&rt, alloc, b"AAAAAAAAAAAAAAAA");
    let refusal = b"refused journal 0\n";
    check_text(&rt, alloc, b"", disk, Status::NotJournal, refusal);
    let failing = failing_disk(&rt, alloc, b"", DiskCall::Len, 1);
    check_text(&rt, alloc, b"", failing, Status::StoreFault, b"");
}

// By the user's guide: the subscribers are read first, so what is wrong with them is told first, also if the
// scenario is missing.
#[test]
fn wrong_subscribers_are_told_before_the_scenario(rt: HostRuntime) {
    let alloc = rt.alloc();
    let cases: [(&[u8], &[u8]); 3] = [
        (b"".as_slice(), b"refused subscribers 0 header\n".as_slice()),
        (
            b"imsi,k,kind,op,amf,seq,usim\n001010000000001,465b5ce8b199b49faa5f0a2ee238a6bc,opc,cd63cb71954a9f4e48a5994e37a02baf,8000,0,0\n001010000000003,465b5ce8b199b49faa5f0a2ee238a6b,opc,cd63cb71954a9f4e48a5994e37a02baf,8000,0,0\n".as_slice(),
            b"refused subscribers 2 key\n".as_slice(),
        ),
        (
            b"imsi,k,kind,op,amf,seq,usim,bits,age\n001010000000001,465b5ce8b199b49faa5f0a2ee238a6bc,opc,cd63cb71954a9f4e48a5994e37a02baf,8000,0,0,6,-\n001010000000003,465b5ce8b199b49faa5f0a2ee238a6bc,opc,cd63cb71954a9f4e48a5994e37a02baf,8000,0,0,5,-1\n".as_slice(),
            b"refused subscribers 2 age\n".as_slice(),
        ),
    ];
    for (subscribers, output) in cases {
        let mut one = shelf_of(&rt, alloc, b"subscribers", subscribers);
        let mut both = shelf_of_both(&rt, alloc, subscribers, b"hello\n");
        let refused: Case = (&RUN_BOTH, Status::SubscribersRefused, output);
        check(&rt, alloc, refused, &mut one, empty_disk(&rt, alloc));
        check(&rt, alloc, refused, &mut both, empty_disk(&rt, alloc));
    }
}

// Bytes from Python, as above, and SHA-256 of its `hashlib`: the vectors 1 to 10 of subscriber 0 and 1 to 5 of the
// subscribers 1 and 2.
#[test]
fn load_digests_all_vectors(rt: HostRuntime) {
    let alloc = rt.alloc();
    let words = [b"load".as_slice(), b"7", b"3", b"4", b"02"];
    let lines =
        b"subscribers 3\njobs 4\nworkers 2\nvectors 20\nsha256 3536caba342a6eede95980f70df943f059a8a6667310e7df091d1fd69b34680f\n".as_slice();
    let mut shelf = MemShelf::new(alloc);
    let case: Case = (&words, Status::Done, lines);
    check(&rt, alloc, case, &mut shelf, empty_disk(&rt, alloc));
}

// Python, as above: 3,500 vectors of three subscribers, which are four pieces of the digest.
const LOADS: [(&'static [u8], &'static [u8]); 4] = [
    (
        b"1",
        b"subscribers 3\njobs 700\nworkers 1\nvectors 3500\nsha256 cc8bf5722442b95d6226d21c38b9ab9578d46ac4e026f591e7ac45c7419af949\n",
    ),
    (
        b"2",
        b"subscribers 3\njobs 700\nworkers 2\nvectors 3500\nsha256 cc8bf5722442b95d6226d21c38b9ab9578d46ac4e026f591e7ac45c7419af949\n",
    ),
    (
        b"3",
        b"subscribers 3\njobs 700\nworkers 3\nvectors 3500\nsha256 cc8bf5722442b95d6226d21c38b9ab9578d46ac4e026f591e7ac45c7419af949\n",
    ),
    (
        b"64",
        b"subscribers 3\njobs 700\nworkers 64\nvectors 3500\nsha256 cc8bf5722442b95d6226d21c38b9ab9578d46ac4e026f591e7ac45c7419af949\n",
    ),
];

#[test]
fn each_number_of_workers_digests_the_same_vectors(rt: HostRuntime) {
    let alloc = rt.alloc();
    for place in 0..LOADS.len() {
        let (workers, lines) = LOADS[place];
        let words = [b"load".as_slice(), b"7", b"3", b"700", workers];
        let mut shelf = MemShelf::new(alloc);
        let case: Case = (&words, Status::Done, lines);
        check(&rt, alloc, case, &mut shelf, empty_disk(&rt, alloc));
    }
}

// Checks a run of these words. Answers how many jobs left the gate at which two jobs meet, and whether it stopped holding them.
fn leave_gate<R: Abort + Threads + Wait + Sync>(
    rt: &R,
    alloc: Global,
    words: &[&[u8]],
    output: &[u8],
) -> (u32, bool) {
    let mut shelf = shelf_of(rt, alloc, b"scenario", TWO_JOBS);
    let gate = TurnGate::new(1000000);
    let case = (words, Status::Done, output);
    check_at(rt, alloc, case, &mut shelf, empty_disk(rt, alloc), &gate);
    (gate.left(), gate.expired())
}

// Words, and what their run of two jobs writes. Python, as above: ChaCha20, Milenage and SHA-256 of the vectors 1 to 5 of two
// subscribers.
const SIDE_BY_SIDE: [(&[&[u8]], &[u8]); 2] = [
    (
        &RUN,
        b"round 1\njob 1\nvector 001010000000001 1\njob 2\nvector 001010000000002 1\nclosed 001010000000001 0 1 1 0 1 0\nclosed 001010000000002 0 1 1 0 1 0\n",
    ),
    (
        &[b"load", b"7", b"2", b"2", b"2"],
        b"subscribers 2\njobs 2\nworkers 2\nvectors 10\nsha256 c2a8f10291c1e5ebf840e4d1cdf1df3c16b06254abab51dec2a680189ba4154d\n",
    ),
];

// Each of the two jobs waits at the gate until the other one ends, too.
#[test]
fn jobs_run_beside_each_other(rt: HostRuntime) {
    for (words, output) in SIDE_BY_SIDE {
        let found = leave_gate(&rt, rt.alloc(), words, output);
        assert!(rt; found == (2, false));
    }
}
