//! Packets: by hand, and those of RFC 4186 Appendix A.

use auc_attr::AttrRefusal;
use auc_memory::Octets;
use auc_sim_packet::{
    SimPacket, SimRefusal, nonce_in, read_sim, receive_sim, selected_in, versions_in, write_sim,
};
use std::alloc::Global;
use std::process::Abort;

// RFC 3748 §4, RFC 4186 §8.1 and §10, by hand.
const FAULTS: [(&[u8], SimRefusal); 14] = [
    (&[1, 2, 0], SimRefusal::Short),
    (&[5, 2, 0, 4], SimRefusal::BadCode),
    (&[3, 2, 0, 5, 0], SimRefusal::LengthDisagrees),
    (&[1, 2, 0, 5, 1], SimRefusal::OtherType(1)),
    (&[1, 2, 0, 5, 50], SimRefusal::OtherType(50)),
    (&[1, 2, 0, 7, 18, 10, 0], SimRefusal::LengthDisagrees),
    (&[1, 2, 0, 8, 18, 12, 0, 0], SimRefusal::UnknownSubtype(12)),
    (
        &[1, 2, 0, 12, 18, 10, 0, 0, 12, 1, 0, 0],
        SimRefusal::Attr(AttrRefusal::UnknownType(12)),
    ),
    (
        &[1, 2, 0, 12, 18, 10, 0, 0, 10, 0, 0, 0],
        SimRefusal::Attr(AttrRefusal::ZeroLength),
    ),
    (
        &[1, 2, 0, 12, 18, 10, 0, 0, 15, 1, 0, 0],
        SimRefusal::Attr(AttrRefusal::BadLength(15)),
    ),
    (
        &[1, 2, 0, 16, 18, 10, 0, 0, 15, 2, 0, 3, 0, 1, 0, 0],
        SimRefusal::Attr(AttrRefusal::BadLength(15)),
    ),
    (
        &[1, 2, 0, 12, 18, 14, 0, 0, 22, 2, 0, 0],
        SimRefusal::Attr(AttrRefusal::Truncated),
    ),
    (
        &[1, 2, 0, 16, 18, 10, 0, 0, 16, 1, 0, 1, 16, 1, 0, 1],
        SimRefusal::Attr(AttrRefusal::Twice(16)),
    ),
    // One RAND.
    (
        &[
            1, 2, 0, 28, 18, 11, 0, 0, 1, 5, 0, 0, 0, 0, 0, 0, 0, 0, 0, 0, 0, 0, 0, 0, 0, 0, 0, 0,
        ],
        SimRefusal::Attr(AttrRefusal::BadLength(1)),
    ),
];

#[test]
fn first_fault_of_a_packet_is_told(rt: HostRuntime) {
    let alloc = rt.alloc();
    for (bytes, refusal) in FAULTS {
        assert!(rt;
            read_sim(alloc, bytes).err() == Some(refusal),
            "at {bytes:?}"
        );
    }
}

// RFC 4186 Appendix A.3, A.4 and A.7.
const START: [u8; 16] = [1, 1, 0, 16, 18, 10, 0, 0, 15, 2, 0, 2, 0, 1, 0, 0];

const ANSWER: [u8; 32] = [
    2, 1, 0, 32, 18, 10, 0, 0, 7, 5, 0, 0, 1, 35, 69, 103, 137, 171, 205, 239, 254, 220, 186, 152,
    118, 84, 50, 16, 16, 1, 0, 1,
];

const SUCCESS: [u8; 4] = [3, 2, 0, 4];

/// Whether a packet that is read from these bytes is written as they are.
fn is_written_again(rt: &impl Abort, alloc: Global, bytes: &[u8]) -> bool {
    let packet = read_sim(alloc, bytes).expect(rt, "a packet");
    is_written_as(rt, alloc, &packet, bytes)
}

/// Whether a packet is written as these bytes.
fn is_written_as(rt: &impl Abort, alloc: Global, packet: &SimPacket, bytes: &[u8]) -> bool {
    assert!(rt; packet.writable());
    let mut out = Octets::new(alloc);
    write_sim(packet, &mut out).expect(rt, "memory");
    out.as_slice() == bytes
}

#[test]
fn packet_is_read_and_written_again(rt: HostRuntime) {
    let alloc = rt.alloc();
    let cases: [&[u8]; 6] = [
        &START,
        &ANSWER,
        &SUCCESS,
        // AT_ANY_ID_REQ, an AT_VERSION_LIST of two versions, and an unknown type that may be skipped.
        &[
            1, 1, 0, 24, 18, 10, 0, 0, 13, 1, 0, 0, 15, 2, 0, 4, 0, 2, 0, 1, 200, 1, 0, 0,
        ],
        &[2, 1, 0, 16, 18, 10, 0, 0, 14, 2, 0, 1, 49, 0, 0, 0],
        &[2, 2, 0, 12, 18, 14, 0, 0, 22, 1, 0, 3],
    ];
    for bytes in cases {
        assert!(rt; is_written_again(&rt, alloc, bytes), "at {bytes:?}");
    }
}

/// What a Start has: whether its versions are 0 and 1, AT_SELECTED_VERSION and NONCE_MT.
type Start = (bool, Option<u16>, Option<[u8; 16]>);

/// What is found in a Start of these bytes.
fn found_in(rt: &impl Abort, alloc: Global, bytes: &[u8]) -> Start {
    let received = receive_sim(alloc, bytes).expect(rt, "memory");
    assert!(rt; received.place == None);
    match received.packet {
        Some(SimPacket::Sim { attrs, .. }) => (
            versions_in(&attrs) == Some(&[0, 1]),
            selected_in(&attrs),
            nonce_in(&attrs),
        ),
        _ => panic!(rt; "no Start"),
    }
}

#[test]
fn attributes_of_a_start_are_found(rt: HostRuntime) {
    let nonce = 0x0123456789abcdef_fedcba9876543210_u128.to_be_bytes();
    assert!(rt; found_in(&rt, rt.alloc(), &START) == (true, None, None));
    assert!(rt; found_in(&rt, rt.alloc(), &ANSWER) == (false, Some(1), Some(nonce)));
}
