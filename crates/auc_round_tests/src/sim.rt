//! The text of lines for sessions of EAP-SIM.

use crate::printing::is_further_printed;
use auc_hmac::KeySet;
use auc_memory::Octets;
use auc_record::{End, Further};
use auc_vector::{Outcome, Reason, SimBecame, SimNote, SimWhy, Step};
use std::alloc::Global;
use std::process::Abort;

// What an end did with a packet, with the bytes that it sent.
#[derive(Clone, Copy)]
enum Deed {
    Sent(&'static [u8]),
    Succeeded(&'static [u8]),
    Failed(SimWhy, &'static [u8]),
    Ignored(Reason),
}

// What happened in a session: its first packet, a packet at an end with the number of the packet that the end sent, a packet
// that there isn't, or whether the keys of both ends agree.
#[derive(Clone, Copy)]
enum Happening {
    Started(&'static [u8]),
    Did(End, u32, Deed, Option<u32>),
    Nothing(End, u32),
    Ended(bool),
}

// A packet of these bytes.
fn packet(rt: &impl Abort, alloc: Global, bytes: &[u8]) -> Octets {
    Octets::copied_from(alloc, bytes).expect(rt, "memory")
}

fn keys() -> KeySet {
    KeySet {
        k_encr: [1; 16],
        k_aut: [2; 32],
        k_re: [3; 32],
        msk: [4; 64],
        emsk: [5; 64],
    }
}

fn step_of(rt: &impl Abort, alloc: Global, deed: Deed) -> Step<SimWhy> {
    match deed {
        Deed::Sent(bytes) => Step::Sent(packet(rt, alloc, bytes)),
        Deed::Succeeded(bytes) => Step::Ended(Outcome::Success(keys()), packet(rt, alloc, bytes)),
        Deed::Failed(why, bytes) => Step::Ended(Outcome::Failure(why), packet(rt, alloc, bytes)),
        Deed::Ignored(reason) => Step::Ignored(reason),
    }
}

fn note_of(rt: &impl Abort, alloc: Global, happening: Happening) -> SimNote {
    match happening {
        Happening::Started(bytes) => SimNote::Started(packet(rt, alloc, bytes)),
        Happening::Did(end, packet, deed, sent) => SimNote::Delivered {
            end,
            packet,
            became: SimBecame::Did {
                step: step_of(rt, alloc, deed),
                sent,
            },
        },
        Happening::Nothing(end, packet) => SimNote::Delivered {
            end,
            packet,
            became: SimBecame::NoSuchPacket,
        },
        Happening::Ended(agree) => SimNote::Ended { agree },
    }
}

// By hand: K_encr in 32 digits, K_aut and K_re in 64, MSK and EMSK in 128.
const KEYS: &[u8] = b"keys 01010101010101010101010101010101 \
0202020202020202020202020202020202020202020202020202020202020202 \
0303030303030303030303030303030303030303030303030303030303030303 \
0404040404040404040404040404040404040404040404040404040404040404\
0404040404040404040404040404040404040404040404040404040404040404 \
0505050505050505050505050505050505050505050505050505050505050505\
0505050505050505050505050505050505050505050505050505050505050505
";

// What happened in the session of a subscriber, its line, and the lines that a full print adds.
type SimCase = (u32, Happening, &'static [u8], &'static [&'static [u8]]);

// By hand. A Success has keys, a Failure hasn't, and an end that sends nothing has no packet.
const CASES: [SimCase; 18] = [
    (
        0,
        Happening::Started(&[1, 1, 0, 8]),
        b"sim 001010000000001 start sent 1\n",
        &[b"packet 1 01010008\n"],
    ),
    (
        0,
        Happening::Ended(true),
        b"sim 001010000000001 agree\n",
        &[],
    ),
    (
        0,
        Happening::Ended(false),
        b"sim 001010000000001 differ\n",
        &[],
    ),
    (
        1,
        Happening::Did(End::Peer, 1, Deed::Sent(&[2, 1]), Some(2)),
        b"sim 000007 peer 1 sent 2\n",
        &[b"packet 2 0201\n"],
    ),
    (
        1,
        Happening::Nothing(End::Peer, 9),
        b"sim 000007 peer 9 nosuchpacket\n",
        &[],
    ),
    (
        1,
        Happening::Nothing(End::Server, 0),
        b"sim 000007 server 0 nosuchpacket\n",
        &[],
    ),
    (
        1,
        Happening::Did(End::Server, 4, Deed::Succeeded(&[3, 2, 0, 4]), Some(5)),
        b"sim 000007 server 4 sent 5 ended success\n",
        &[b"packet 5 03020004\n", KEYS],
    ),
    (
        1,
        Happening::Did(End::Peer, 5, Deed::Succeeded(&[]), None),
        b"sim 000007 peer 5 ended success\n",
        &[KEYS],
    ),
    (
        1,
        Happening::Did(
            End::Server,
            4,
            Deed::Failed(SimWhy::WrongMac, &[4, 2, 0, 4]),
            Some(5),
        ),
        b"sim 000007 server 4 sent 5 ended failure wrongmac\n",
        &[b"packet 5 04020004\n"],
    ),
    (
        1,
        Happening::Did(
            End::Server,
            2,
            Deed::Failed(SimWhy::ClientError(65535), &[4, 1, 0, 4]),
            Some(3),
        ),
        b"sim 000007 server 2 sent 3 ended failure clienterror 65535\n",
        &[b"packet 3 04010004\n"],
    ),
    (
        1,
        Happening::Did(End::Peer, 6, Deed::Failed(SimWhy::WrongMac, &[]), None),
        b"sim 000007 peer 6 ended failure wrongmac\n",
        &[],
    ),
    (
        1,
        Happening::Did(End::Peer, 6, Deed::Failed(SimWhy::Version, &[]), None),
        b"sim 000007 peer 6 ended failure version\n",
        &[],
    ),
    (
        1,
        Happening::Did(End::Peer, 6, Deed::Failed(SimWhy::NotFresh, &[]), None),
        b"sim 000007 peer 6 ended failure notfresh\n",
        &[],
    ),
    (
        1,
        Happening::Did(
            End::Peer,
            6,
            Deed::Failed(SimWhy::FailureReceived, &[]),
            None,
        ),
        b"sim 000007 peer 6 ended failure failurereceived\n",
        &[],
    ),
    (
        1,
        Happening::Did(End::Peer, 5, Deed::Ignored(Reason::Closed), None),
        b"sim 000007 peer 5 ignored closed\n",
        &[],
    ),
    (
        1,
        Happening::Did(End::Server, 4, Deed::Ignored(Reason::NotForMe), None),
        b"sim 000007 server 4 ignored notforme\n",
        &[],
    ),
    (
        1,
        Happening::Did(End::Peer, 1, Deed::Ignored(Reason::Unexpected), None),
        b"sim 000007 peer 1 ignored unexpected\n",
        &[],
    ),
    (
        1,
        Happening::Did(End::Server, 4294967295, Deed::Ignored(Reason::Closed), None),
        b"sim 000007 server 4294967295 ignored closed\n",
        &[],
    ),
];

// Whether the text of a case is printed.
fn is_right(rt: &impl Abort, alloc: Global, case: &SimCase, full: bool) -> bool {
    let (sub, happening, line, more) = *case;
    let note = note_of(rt, alloc, happening);
    is_further_printed(rt, alloc, Further::Sim { sub, note }, (line, more), full)
}

#[test]
fn full_prints_add_the_packets_and_keys_of_eap_sim(rt: HostRuntime) {
    for full in [false, true] {
        for case in &CASES {
            assert!(rt; is_right(&rt, rt.alloc(), case, full), "at {:?}", case.2);
        }
    }
}
