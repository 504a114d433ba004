//! The text of a transcript. Further lines are seen in the stored runs of the program and in the tests of `auc_runs`.

use crate::printing::{
    drew, is_further_printed, job_text, names_below, one, print_alone, rands, subscribers,
    subscribers_of,
};
use auc_hmac::KeySet;
use auc_ident::Names;
use auc_memory::{Items, Octets, Stop};
use auc_print::{print_restart, print_round};
use auc_record::{
    BoxedEvent, Closing, End, Event, EventRecord, FivegOutcome, Further, GiveVerdict, JobRecord,
    LineRecord, Note, NoteStep, Premise, RoundRecord, SessionVerdict, Setting,
};
use auc_subs::Subscribers;
use auc_vector::{CounterNote, Notes, NumberNote, Outcome, ResyncNote, Step, UsimNote, Vector};
use std::alloc::Global;
use std::process::Abort;

// A vector whose parts are runs of bytes: RAND from 00 on, AUTN from 10 on, XRES from a0 on, CK from c0 on and
// IK from f0 on.
fn vector() -> Vector {
    Vector {
        n: 1,
        rand: 0x000102030405060708090a0b0c0d0e0f_u128.to_be_bytes(),
        autn: 0x101112131415161718191a1b1c1d1e1f_u128.to_be_bytes(),
        xres: 0xa0a1a2a3a4a5a6a7_u64.to_be_bytes(),
        ck: 0xc0c1c2c3c4c5c6c7c8c9cacbcccdcecf_u128.to_be_bytes(),
        ik: 0xf0f1f2f3f4f5f6f7f8f9fafbfcfdfeff_u128.to_be_bytes(),
    }
}

fn job(rt: &impl Abort, alloc: Global) -> JobRecord {
    let mut job = one(rt, alloc, drew(1, 0));
    let withheld = LineRecord::Number {
        sub: 1,
        note: NumberNote::Withheld(u64::MAX, Stop::Fault),
    };
    job.push(withheld).expect(rt, "memory");
    let sync = LineRecord::Sync {
        sub: 0,
        note: ResyncNote::Beyond(8796093022207, 0),
    };
    job.push(sync).expect(rt, "memory");
    job
}

fn sessions(rt: &impl Abort, alloc: Global) -> Items<SessionVerdict> {
    let mut sessions = Items::new(alloc);
    for (session, agree) in [(1, true), (20, false)] {
        let verdict = SessionVerdict { session, agree };
        sessions.push(verdict).expect(rt, "memory");
    }
    sessions
}

fn round(rt: &impl Abort, alloc: Global) -> RoundRecord {
    let closing = Closing {
        sub: 1,
        first: 10,
        last: 11,
        drawn: 12,
        skipped: 13,
        released: 14,
        withheld: 15,
    };
    RoundRecord {
        number: 7,
        closings: one(rt, alloc, closing),
        sessions: sessions(rt, alloc),
        premise: Premise::Held,
        jobs: one(rt, alloc, job(rt, alloc)),
    }
}

// Written by hand: of each record its word, the IMSI, and its values in their order; of a closing the IMSI and
// the six counts in their order; of a vector its five parts in their order, which are those of `vector.rt` in the crate
// `auc_vector_tests`, from another implementation.
const TEXT: &[u8] = b"round 7
job 1
vector 000007 0
withheld 000007 18446744073709551615 fault
sync 001010000000001 beyond 8796093022207 0
closed 000007 10 11 12 13 14 15
session 1 agree
session 20 differ
premise held
restart
round 8
job 1
vector 001010000000001 1
bytes 8a35d86fbcde6accb2cc7d4cd8ea2492 5c932ea779de80001d96bfd35d896e74 59fce589e7b274e7 \
164ec6b56c3fa5a33c5130b35fbfdc49 1ef5c23ff651ae6846822d2ba9304231
";

// Appends the brief print of a round, that of a restart, and the full print of a vector, and answers whether all can be
// printed.
fn print_parts(
    rt: &impl Abort,
    alloc: Global,
    round: &RoundRecord,
    set: &Setting,
    out: &mut Octets,
) -> bool {
    if !names_below(round, set.subs.len() as usize) {
        return false;
    }
    print_round(round, &[], set, false, out).expect(rt, "memory");
    print_restart(out).expect(rt, "memory");
    print_alone(rt, alloc, drew(0, 1), set, out)
}

// The text of these parts, which have to be printable.
fn text_of_parts(rt: &impl Abort, alloc: Global) -> Octets {
    let rands = rands();
    let names = Names::new([0; 32]);
    let subs = subscribers(rt, alloc);
    let set = Setting {
        subs: &subs,
        rands: &rands,
        names: &names,
        realm: b"",
    };
    let mut text = Octets::new(alloc);
    let is_printed = print_parts(rt, alloc, &round(rt, alloc), &set, &mut text);
    assert!(rt; is_printed);
    text
}

#[test]
fn each_value_is_printed_in_its_place(rt: HostRuntime) {
    assert!(rt; text_of_parts(&rt, rt.alloc()).as_slice() == TEXT);
}

// A subscriber's line of nine fields, and the full print of its first vector.
type IndexCase = (&'static [u8], &'static [u8]);

// AUTN by another implementation, of SQN 000000000001 with an index of 0 bits and of SQN 000000000041 with one of 6 bits. The other
// parts are those of a subscriber of seven fields.
const BY_INDEX_LENGTH: [IndexCase; 2] = [
    (
        b"001010000000001 465b5ce8b199b49faa5f0a2ee238a6bc opc cd63cb71954a9f4e48a5994e37a02baf 8000 0 0 0 -",
        b"round 8
job 1
vector 001010000000001 1
bytes 8a35d86fbcde6accb2cc7d4cd8ea2492 5c932ea779fe8000270d27fc7e9dc8dd 59fce589e7b274e7 \
164ec6b56c3fa5a33c5130b35fbfdc49 1ef5c23ff651ae6846822d2ba9304231
",
    ),
    (
        b"001010000000001 465b5ce8b199b49faa5f0a2ee238a6bc opc cd63cb71954a9f4e48a5994e37a02baf 8000 0 0 6 3",
        b"round 8
job 1
vector 001010000000001 1
bytes 8a35d86fbcde6accb2cc7d4cd8ea2492 5c932ea779be8000a813424684fb5679 59fce589e7b274e7 \
164ec6b56c3fa5a33c5130b35fbfdc49 1ef5c23ff651ae6846822d2ba9304231
",
    ),
];

// The text of a round with the first vector of the subscriber of a line.
fn first_vector(rt: &impl Abort, alloc: Global, line: &[u8]) -> Octets {
    let job = one(rt, alloc, drew(0, 1));
    job_text(rt, alloc, &subscribers_of(rt, alloc, &[line]), job, true)
}

#[test]
fn full_prints_have_autn_by_the_index_length(rt: HostRuntime) {
    for (line, wanted) in BY_INDEX_LENGTH {
        let text = first_vector(&rt, rt.alloc(), line);
        assert!(rt; text.as_slice() == wanted, "at {line:?}");
    }
}

// A line of AUTS of this RAND and SQN_MS by another implementation (TS 35.206). RAND is that of number 1 of the first subscriber, and
// both subscribers have the K and OPc of TS 35.208, test set 1.
const AUTS: &[u8] = b"auts b5c9d934552d073052b7aadb8ded 8a35d86fbcde6accb2cc7d4cd8ea2492\n";

const SQN_MS: [u8; 6] = [0, 0, 0, 0, 0x3e, 0x94];

const CHALLENGE: &[u8] = &[
    // A skippable attribute stands before AT_RAND.
    1, 2, 0, 32, 23, 1, 0, 0, 200, 1, 1, 5, 1, 5, 0, 0, //
    0x8a, 0x35, 0xd8, 0x6f, 0xbc, 0xde, 0x6a, 0xcc, 0xb2, 0xcc, 0x7d, 0x4c, 0xd8, 0xea, 0x24, 0x92,
];

fn octets(rt: &impl Abort, alloc: Global, bytes: &[u8]) -> Octets {
    Octets::copied_from(alloc, bytes).expect(rt, "memory")
}

// The packet that the network made of these bytes, packet 4.
fn cut(rt: &impl Abort, alloc: Global) -> LineRecord {
    let event = Event::Cut {
        packet: 3,
        length: 32,
    };
    let made = NoteStep::Made(octets(rt, alloc, CHALLENGE));
    happened(rt, alloc, event, (None, made, 4))
}

// Its delivery to the peer, which sent packet 5.
fn delivery(rt: &impl Abort, alloc: Global) -> LineRecord {
    let event = Event::Deliver {
        session: 1,
        end: End::Peer,
        packet: 4,
    };
    let sent = NoteStep::Peer(Step::Sent(octets(rt, alloc, &[2, 2, 0, 4])));
    happened(rt, alloc, event, (Some(UsimNote::Sync(SQN_MS)), sent, 5))
}

// The failure of a vector that is presented alone, and of a packet that a session's peer receives from the network.
fn failures(rt: &impl Abort, alloc: Global) -> JobRecord {
    let give = LineRecord::Give {
        sub: 0,
        n: 1,
        verdict: GiveVerdict::Sync(SQN_MS),
    };
    let mut job = one(rt, alloc, give);
    job.push(cut(rt, alloc)).expect(rt, "memory");
    job.push(delivery(rt, alloc)).expect(rt, "memory");
    job
}

// The record of an event at the second subscriber's device: what the USIM answered, and the step with the number of its packet.
fn happened(
    rt: &impl Abort,
    alloc: Global,
    event: Event,
    what: (Option<UsimNote>, NoteStep, u32),
) -> LineRecord {
    let (usim, step, packet) = what;
    let notes = Notes {
        resync: None,
        number: None,
        resumed: None,
        usim,
        counter: None,
    };
    let result = Ok(Note {
        notes,
        packet: Some(packet),
        asked: None,
        device: Some(1),
        vector: None,
        step,
    });
    let record = EventRecord { event, result };
    LineRecord::Event(BoxedEvent::new(alloc, record).expect(rt, "memory"))
}

// The lines of these failures, and whether only a full print has them.
const LINES_OF_FAILURES: [(&[u8], bool); 7] = [
    (
        b"round 8\njob 1\ngive 001010000000001 1 sync 000000003e94\n",
        false,
    ),
    (AUTS, true),
    (b"cut 3 32 made 4\n", false),
    (
        b"packet 4 0102002017010000c8010105010500008a35d86fbcde6accb2cc7d4cd8ea2492\n",
        true,
    ),
    (b"deliver 1 peer 4 sync 000000003e94 sent 5\n", false),
    (AUTS, true),
    (b"packet 5 02020004\n", true),
];

// The text of these lines.
fn failures_text(rt: &impl Abort, alloc: Global, full: bool) -> Octets {
    let mut wanted = Octets::new(alloc);
    for (line, is_added) in LINES_OF_FAILURES {
        if full || !is_added {
            wanted.append(line).expect(rt, "memory");
        }
    }
    wanted
}

// Whether the text of a round of the failures consists of these lines.
fn are_failures_printed(rt: &impl Abort, alloc: Global, full: bool) -> bool {
    let subs = subscribers(rt, alloc);
    let text = job_text(rt, alloc, &subs, failures(rt, alloc), full);
    text.as_slice() == failures_text(rt, alloc, full).as_slice()
}

#[test]
fn full_prints_have_the_auts_of_each_failure(rt: HostRuntime) {
    for full in [false, true] {
        assert!(rt; are_failures_printed(&rt, rt.alloc(), full), "at {full}");
    }
}

// The notes of an event, the packet that its end sent, and its end's keys, which are runs of equal bytes.
fn noted(rt: &impl Abort, alloc: Global) -> Note {
    let keys = KeySet {
        k_encr: [1; 16],
        k_aut: [2; 32],
        k_re: [3; 32],
        msk: [4; 64],
        emsk: [5; 64],
    };
    let notes = Notes {
        resync: Some(ResyncNote::Moved(1, 500)),
        number: Some(NumberNote::Drew(501)),
        resumed: Some(7),
        usim: Some(UsimNote::Sync([0, 0, 0, 0, 0x3e, 0x94])),
        counter: Some(CounterNote::Small(8)),
    };
    let success = octets(rt, alloc, &[3, 2, 0, 0xff]);
    Note {
        notes,
        packet: Some(5),
        asked: None,
        device: None,
        vector: Some(vector()),
        step: NoteStep::Server(Step::Ended(Outcome::Success(keys), success)),
    }
}

// The full print of a round of that event.
fn noted_text(rt: &impl Abort, alloc: Global) -> Octets {
    let front = b"round 8
job 1
deliver 1 server 4 moved 1 500 drew 501 resumed 7 sync 000000003e94 small 8 sent 5 ended success
bytes 000102030405060708090a0b0c0d0e0f 101112131415161718191a1b1c1d1e1f a0a1a2a3a4a5a6a7 \
c0c1c2c3c4c5c6c7c8c9cacbcccdcecf f0f1f2f3f4f5f6f7f8f9fafbfcfdfeff
packet 5 030200ff
keys";
    let mut wanted = octets(rt, alloc, front);
    for (digits, count) in [
        (b"01", 16),
        (b"02", 32),
        (b"03", 32),
        (b"04", 64),
        (b"05", 64),
    ] {
        wanted.append(b" ").expect(rt, "memory");
        for _ in 0..count {
            wanted.append(digits).expect(rt, "memory");
        }
    }
    wanted.append(b"\n").expect(rt, "memory");
    wanted
}

// The record of that event.
fn noted_record(rt: &impl Abort, alloc: Global) -> LineRecord {
    let event = Event::Deliver {
        session: 1,
        end: End::Server,
        packet: 4,
    };
    let result = Ok(noted(rt, alloc));
    let record = EventRecord { event, result };
    LineRecord::Event(BoxedEvent::new(alloc, record).expect(rt, "memory"))
}

// Whether a round of that event has that text.
fn is_noted_printed(rt: &impl Abort, alloc: Global) -> bool {
    let job = one(rt, alloc, noted_record(rt, alloc));
    let text = job_text(rt, alloc, &Subscribers::new(alloc), job, true);
    text.as_slice() == noted_text(rt, alloc).as_slice()
}

// No event has all of these notes.
#[test]
fn notes_packet_and_keys_are_printed_in_their_order(rt: HostRuntime) {
    assert!(rt; is_noted_printed(&rt, rt.alloc()));
}

/// The bytes of two numbers.
fn bytes(high: u128, low: u128) -> [u8; 32] {
    let mut both = [0; 32];
    both[..16].copy_from_slice(&high.to_be_bytes());
    both[16..].copy_from_slice(&low.to_be_bytes());
    both
}

// Python's `hmac` and `hashlib`, by the formulas of TS 33.401 Annex A.2 and of TS 33.501 Annexes A.2 and A.4 to A.6, from TS
// 35.208, test set 1: K_ASME for the SN id 00f110; HXRES* and K_SEAF for 5G:mnc001.mcc001.3gppnetwork.org; for the device
// K_SEAF for the name 5.
fn key_of_eps_or_5g(place: usize) -> (Further, &'static [u8], &'static [u8]) {
    let k_asme = bytes(
        0x48579af8781c742d5120e6ed8ccac131,
        0x93f38c53ab7aa69396f49ca6e1b0562d,
    );
    let home = bytes(
        0x8dff166c02edd5b177950d50cdd3fe93,
        0x756cc53951856a95cb5ee9aabd35e220,
    );
    let device = bytes(
        0x16171648d0f04fce14d68e26699f43b1,
        0xbe9eb2103a82f385e05107726b0bd48f,
    );
    let half = 0x20a71900b01776bfd773e8c15a825446_u128.to_be_bytes();
    let outcome = FivegOutcome::Confirmed { home, device };
    match place {
        0 => (
            Further::Kasme(k_asme),
            b"kasme 48579af8781c742d5120e6ed8ccac13193f38c53ab7aa69396f49ca6e1b0562d\n",
            b"",
        ),
        1 => (
            Further::HxresStar(half),
            b"hxresstar 20a71900b01776bfd773e8c15a825446\n",
            b"",
        ),
        _ => (
            Further::Fiveg { sub: 1, outcome },
            b"fiveg 000007 confirmed\n",
            b"seaf 8dff166c02edd5b177950d50cdd3fe93756cc53951856a95cb5ee9aabd35e220 \
16171648d0f04fce14d68e26699f43b1be9eb2103a82f385e05107726b0bd48f\n",
        ),
    }
}

// A refusal of the first subscriber's 5G authentication, and its line. By hand.
const REFUSALS_OF_5G: [(FivegOutcome, &[u8]); 3] = [
    (
        FivegOutcome::NoSeparation,
        b"fiveg 001010000000001 noseparation\n",
    ),
    (
        FivegOutcome::ServingRefused,
        b"fiveg 001010000000001 servingrefused\n",
    ),
    (
        FivegOutcome::HomeRefused,
        b"fiveg 001010000000001 homerefused\n",
    ),
];

#[test]
fn lines_of_eps_and_5g_are_printed_and_full_prints_add_k_seaf(rt: HostRuntime) {
    for full in [false, true] {
        for place in 0..3 {
            let (said, line, more) = key_of_eps_or_5g(place);
            let is_right = is_further_printed(&rt, rt.alloc(), said, (line, &[more]), full);
            assert!(rt; is_right, "at {line:?}");
        }
        for (outcome, line) in REFUSALS_OF_5G {
            let said = Further::Fiveg { sub: 0, outcome };
            let is_right = is_further_printed(&rt, rt.alloc(), said, (line, &[]), full);
            assert!(rt; is_right, "at {line:?}");
        }
    }
}
