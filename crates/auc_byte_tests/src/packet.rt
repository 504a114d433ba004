//! Packets by hand. Each Subtype, each attribute at its least and its greatest size, and a packet of 4096 bytes stand in
//! the stored run of `auc_packet_cli`.

ghost use Rattle.std.specs.Prelude.{◌≡◌, []};

use crate::digits::octets;
use auc_attr::{Attr, AttrList, AttrRefusal, read_attrs};
use auc_hmac::Method;
use auc_memory::{Octets, Room};
use auc_packet::{
    Draft, Head, Packet, PacketRefusal, Subtype, head, is_malformed, is_missing, is_sealed,
    put_packet, put_sealed, read_packet, receive, write_packet,
};
use std::alloc::Global;
use std::process::Abort;

// RFC 3748 §4, RFC 4187 §8.1 and §10, by hand.
#[test]
fn first_fault_of_a_packet_is_told(rt: HostRuntime) {
    let alloc = rt.alloc();
    let cases: [(&[u8], PacketRefusal); 12] = [
        (&[1, 2, 0], PacketRefusal::Short),
        (&[5, 2, 0, 4], PacketRefusal::BadCode),
        (
            &[1, 2, 0, 13, 23, 5, 0, 0, 10, 1, 0, 0],
            PacketRefusal::LengthDisagrees,
        ),
        (&[3, 2, 0, 5, 0], PacketRefusal::LengthDisagrees),
        (&[1, 2, 0, 7, 23, 5, 0], PacketRefusal::LengthDisagrees),
        (&[1, 2, 0, 5, 3], PacketRefusal::OtherType(3)),
        (&[1, 2, 0, 8, 23, 3, 0, 0], PacketRefusal::UnknownSubtype(3)),
        (
            &[1, 2, 0, 12, 23, 5, 0, 0, 127, 1, 0, 0],
            PacketRefusal::Attr(AttrRefusal::UnknownType(127)),
        ),
        (
            &[1, 2, 0, 12, 23, 5, 0, 0, 10, 0, 0, 0],
            PacketRefusal::Attr(AttrRefusal::ZeroLength),
        ),
        (
            &[1, 2, 0, 12, 23, 5, 0, 0, 10, 2, 0, 0],
            PacketRefusal::Attr(AttrRefusal::Truncated),
        ),
        (
            &[1, 2, 0, 16, 23, 5, 0, 0, 6, 1, 0, 1, 10, 1, 0, 0],
            PacketRefusal::Attr(AttrRefusal::BadPadding),
        ),
        (
            &[1, 2, 0, 16, 23, 5, 0, 0, 10, 1, 0, 0, 10, 1, 0, 0],
            PacketRefusal::Attr(AttrRefusal::Twice(10)),
        ),
    ];
    for (bytes, refusal) in cases {
        assert!(rt;
            read_packet(alloc, bytes).err() == Some(refusal),
            "at {bytes:?}"
        );
    }
}

/// A room of 4096 bytes.
fn room(rt: &impl Abort, alloc: Global) -> Room
    ensures { (result.written ≡ []) × (result.left ≡ 4096) }
{
    match Room::new(alloc, 4096) {
        Ok(room) => room,
        Err(_) => panic!(rt; "no memory"),
    }
}

/// Whether a packet that is read from these bytes is written as they are, in both ways.
fn is_written_again(rt: &impl Abort, alloc: Global, bytes: &[u8]) -> bool {
    let packet = read_packet(alloc, bytes).expect(rt, "a packet");
    is_written_as(rt, alloc, &packet, bytes)
}

/// Whether a packet is written as these bytes, in both ways.
fn is_written_as(rt: &impl Abort, alloc: Global, packet: &Packet, bytes: &[u8]) -> bool {
    assert!(rt; packet.writable());
    let mut out = Octets::new(alloc);
    write_packet(packet, &mut out).expect(rt, "memory");
    let mut room = room(rt, alloc);
    put_packet(packet, &mut room);
    out.as_slice() == bytes && room.into_octets().as_slice() == bytes
}

// RFC 3748 §4.2 and §5.1, RFC 4187 §9 and §10, RFC 9048 §3.2, by hand.
#[test]
fn packet_is_read_and_written_again(rt: HostRuntime) {
    let alloc = rt.alloc();
    let cases: [&[u8]; 8] = [
        &[3, 2, 0, 4],
        &[4, 2, 0, 4],
        &[1, 1, 0, 5, 1],
        &[2, 1, 0, 6, 1, 48],
        &[1, 2, 0, 12, 23, 5, 0, 0, 10, 1, 0, 0],
        &[1, 2, 0, 12, 23, 5, 0, 0, 200, 1, 0, 0],
        &[
            2, 2, 0, 28, 50, 4, 0, 0, 4, 4, 1, 2, 3, 4, 5, 6, 7, 8, 9, 10, 11, 12, 13, 14, 24, 1,
            0, 1,
        ],
        &[2, 3, 0, 12, 50, 14, 0, 0, 22, 1, 0, 0],
    ];
    for bytes in cases {
        assert!(rt; is_written_again(&rt, alloc, bytes), "at {bytes:?}");
    }
}

// RFC 3748 §4, by hand.
#[test]
fn head_tells_code_identifier_and_type(rt: HostRuntime) {
    let head_as = |code, kind| Some(Head { code, id: 9, kind });
    let cases: [(&[u8], Option<Head>); 6] = [
        (&[3, 9, 0, 4], head_as(3, None)),
        (&[4, 9, 0, 4], head_as(4, None)),
        (&[2, 9, 0, 5, 1], head_as(2, Some(1))),
        (&[1, 9, 0, 5, 3], head_as(1, Some(3))),
        (&[1, 9, 0, 8, 23, 3, 0, 0], head_as(1, Some(23))),
        (&[1, 9, 0, 7, 23, 3, 0, 0], None),
    ];
    for (bytes, expected) in cases {
        assert!(rt; head(bytes) == expected, "at {bytes:?}");
    }
}

// 0x20, 0x21, .. 0x3f.
const K_AUT: [u8; 32] = [
    32, 33, 34, 35, 36, 37, 38, 39, 40, 41, 42, 43, 44, 45, 46, 47, 48, 49, 50, 51, 52, 53, 54, 55,
    56, 57, 58, 59, 60, 61, 62, 63,
];

// 0xa0, 0xa1, .. 0xaf.
const NONCE_S: [u8; 16] = [
    160, 161, 162, 163, 164, 165, 166, 167, 168, 169, 170, 171, 172, 173, 174, 175,
];

/// A Reauthentication response with an empty AT_CHECKCODE.
fn sealed(rt: &impl Abort, alloc: Global, method: Method) -> Octets {
    let mut attrs = AttrList::new(alloc);
    attrs
        .push(Attr::Checkcode(Octets::new(alloc)))
        .expect(rt, "memory");
    let draft = Draft {
        method,
        request: false,
        id: 9,
        subtype: Subtype::Reauthentication,
        attrs,
    };
    assert!(rt; draft.writable());
    let mut room = room(rt, alloc);
    put_sealed(&draft, &K_AUT, &NONCE_S, &mut room);
    room.into_octets()
}

/// Whether that response is these bytes; and whether they are received with a right MAC, with NONCE_S and without it.
fn is_sealed_as(rt: &impl Abort, alloc: Global, method: Method, digits: &[u8]) -> [bool; 3] {
    let bytes = sealed(rt, alloc, method);
    let expected: [u8; 32] = octets(rt, digits);
    let received = receive(alloc, bytes.as_slice()).expect(rt, "memory");
    [
        bytes.as_slice() == expected.as_slice(),
        is_sealed(&received, method, &K_AUT, &NONCE_S),
        is_sealed(&received, method, &K_AUT, &[]),
    ]
}

// Python's `hmac`: `hmac.new(key, packet + nonce, 'sha1' or 'sha256').digest()[:16]`, the key 16 or 32 bytes.
#[test]
fn sealed_message_is_received_with_a_right_mac(rt: HostRuntime) {
    let alloc = rt.alloc();
    let cases: [(Method, &[u8]); 2] = [
        (
            Method::Aka,
            b"02090020170d0000860100000b05000035f84d448f726ddbafb08d8422592ed9",
        ),
        (
            Method::Prime,
            b"02090020320d0000860100000b0500004016a476949a9975066787c5557a595d",
        ),
    ];
    for (method, digits) in cases {
        let found = is_sealed_as(&rt, alloc, method, digits);
        assert!(rt; found == [true, true, false], "for {method:?}");
    }
}

/// The length of an attribute of this type, and its value.
fn zeros(kind: u8) -> (u8, &'static [u8]) {
    match kind {
        1 | 2 | 11 | 21 | 129 => (5, &[0; 18]),
        3 => (2, &[0, 32, 0, 0, 0, 0]),
        4 => (4, &[0; 14]),
        _ => (1, &[0; 2]),
    }
}

/// Attributes of these types, with values of zero bytes.
fn list_of(rt: &impl Abort, alloc: Global, kinds: &[u8]) -> AttrList {
    let mut bytes = Octets::new(alloc);
    for &kind in kinds {
        let (words, value) = zeros(kind);
        bytes.append(&[kind, words]).expect(rt, "memory");
        bytes.append(value).expect(rt, "memory");
    }
    read_attrs(alloc, bytes.as_slice()).expect(rt, "attributes")
}

// RFC 4187 §9 and §10.1, RFC 9048 §3: the types below 128 that a message may have.
#[test]
fn each_message_may_have_the_attributes_of_its_row(rt: HostRuntime) {
    let alloc = rt.alloc();
    let rows: [(Subtype, bool, Method, &[u8]); 14] = [
        (Subtype::Identity, true, Method::Aka, &[10, 13, 17]),
        (Subtype::Identity, false, Method::Aka, &[14]),
        (Subtype::Challenge, true, Method::Aka, &[1, 2, 11]),
        (Subtype::Challenge, true, Method::Prime, &[1, 2, 11, 23, 24]),
        (Subtype::Challenge, false, Method::Prime, &[3, 11]),
        (Subtype::AuthenticationReject, false, Method::Aka, &[]),
        (Subtype::SynchronizationFailure, false, Method::Aka, &[4]),
        (
            Subtype::SynchronizationFailure,
            false,
            Method::Prime,
            &[4, 24],
        ),
        (Subtype::Notification, true, Method::Aka, &[11, 12]),
        (Subtype::Notification, false, Method::Aka, &[]),
        (Subtype::Reauthentication, true, Method::Aka, &[11]),
        (Subtype::Reauthentication, false, Method::Aka, &[11]),
        (Subtype::ClientError, false, Method::Aka, &[22]),
        (Subtype::ClientError, true, Method::Aka, &[]),
    ];
    let kinds = [
        1, 2, 3, 4, 6, 10, 11, 12, 13, 14, 17, 19, 20, 21, 22, 23, 24, 129, 130, 132, 133, 134,
        135, 136, 200,
    ];
    for (subtype, request, method, row) in rows {
        for kind in kinds {
            let found = is_malformed(subtype, request, method, &list_of(&rt, alloc, &[kind]));
            let expected = kind < 128 && !row.contains(&kind);
            assert!(rt; found == expected, "type {kind} in {subtype:?}");
        }
    }
}

// RFC 4187 §9, by hand.
#[test]
fn message_without_a_needed_attribute_is_told(rt: HostRuntime) {
    let alloc = rt.alloc();
    let cases: [(Subtype, bool, &[u8], bool); 17] = [
        (Subtype::Identity, true, &[], true),
        (Subtype::Identity, true, &[13], false),
        (Subtype::Identity, true, &[10, 17], true),
        (Subtype::Identity, false, &[], true),
        (Subtype::Challenge, true, &[1, 2, 11], false),
        (Subtype::Challenge, true, &[2, 11], true),
        (Subtype::Challenge, true, &[1, 11], true),
        (Subtype::Challenge, true, &[1, 2], true),
        (Subtype::Challenge, false, &[3, 11], false),
        (Subtype::Challenge, false, &[3], true),
        (Subtype::AuthenticationReject, false, &[], false),
        (Subtype::SynchronizationFailure, false, &[24], true),
        (Subtype::Notification, true, &[11], true),
        (Subtype::Notification, false, &[], false),
        (Subtype::Reauthentication, true, &[11, 129], true),
        (Subtype::Reauthentication, false, &[11, 129, 130], false),
        (Subtype::ClientError, false, &[], true),
    ];
    for (subtype, request, kinds, missing) in cases {
        let found = is_missing(subtype, request, &list_of(&rt, alloc, kinds));
        assert!(rt; found == missing, "{kinds:?} in {subtype:?}");
    }
}
