//! Keys, MACs and both ends, by the examples of the standard.

use auc_hmac::KeySet;
use auc_memory::Octets;
use auc_milenage::Secret;
use auc_sim::{SimPeer, SimServer, SimWhy, card};
use auc_sim_packet::{Triplet, is_sim_sealed, receive_sim, sim_keys};
use auc_vector::{Outcome, Step};
use std::alloc::Global;
use std::process::Abort;

// RFC 4186 Appendix A.2 to A.6.
const IDENTITY: &[u8] = b"1244070100000001@eapsim.foo";

const NONCE: u128 = 0x0123456789abcdeffedcba9876543210;

const SRES: [u8; 12] = [
    0xd1, 0xd2, 0xd3, 0xd4, 0xe1, 0xe2, 0xe3, 0xe4, 0xf1, 0xf2, 0xf3, 0xf4,
];

const REQUEST: [u8; 280] = [
    0x01, 0x02, 0x01, 0x18, 0x12, 0x0b, 0x00, 0x00, 0x01, 0x0d, 0x00, 0x00, 0x10, 0x11, 0x12, 0x13,
    0x14, 0x15, 0x16, 0x17, 0x18, 0x19, 0x1a, 0x1b, 0x1c, 0x1d, 0x1e, 0x1f, 0x20, 0x21, 0x22, 0x23,
    0x24, 0x25, 0x26, 0x27, 0x28, 0x29, 0x2a, 0x2b, 0x2c, 0x2d, 0x2e, 0x2f, 0x30, 0x31, 0x32, 0x33,
    0x34, 0x35, 0x36, 0x37, 0x38, 0x39, 0x3a, 0x3b, 0x3c, 0x3d, 0x3e, 0x3f, 0x81, 0x05, 0x00, 0x00,
    0x9e, 0x18, 0xb0, 0xc2, 0x9a, 0x65, 0x22, 0x63, 0xc0, 0x6e, 0xfb, 0x54, 0xdd, 0x00, 0xa8, 0x95,
    0x82, 0x2d, 0x00, 0x00, 0x55, 0xf2, 0x93, 0x9b, 0xbd, 0xb1, 0xb1, 0x9e, 0xa1, 0xb4, 0x7f, 0xc0,
    0xb3, 0xe0, 0xbe, 0x4c, 0xab, 0x2c, 0xf7, 0x37, 0x2d, 0x98, 0xe3, 0x02, 0x3c, 0x6b, 0xb9, 0x24,
    0x15, 0x72, 0x3d, 0x58, 0xba, 0xd6, 0x6c, 0xe0, 0x84, 0xe1, 0x01, 0xb6, 0x0f, 0x53, 0x58, 0x35,
    0x4b, 0xd4, 0x21, 0x82, 0x78, 0xae, 0xa7, 0xbf, 0x2c, 0xba, 0xce, 0x33, 0x10, 0x6a, 0xed, 0xdc,
    0x62, 0x5b, 0x0c, 0x1d, 0x5a, 0xa6, 0x7a, 0x41, 0x73, 0x9a, 0xe5, 0xb5, 0x79, 0x50, 0x97, 0x3f,
    0xc7, 0xff, 0x83, 0x01, 0x07, 0x3c, 0x6f, 0x95, 0x31, 0x50, 0xfc, 0x30, 0x3e, 0xa1, 0x52, 0xd1,
    0xe1, 0x0a, 0x2d, 0x1f, 0x4f, 0x52, 0x26, 0xda, 0xa1, 0xee, 0x90, 0x05, 0x47, 0x22, 0x52, 0xbd,
    0xb3, 0xb7, 0x1d, 0x6f, 0x0c, 0x3a, 0x34, 0x90, 0x31, 0x6c, 0x46, 0x92, 0x98, 0x71, 0xbd, 0x45,
    0xcd, 0xfd, 0xbc, 0xa6, 0x11, 0x2f, 0x07, 0xf8, 0xbe, 0x71, 0x79, 0x90, 0xd2, 0x5f, 0x6d, 0xd7,
    0xf2, 0xb7, 0xb3, 0x20, 0xbf, 0x4d, 0x5a, 0x99, 0x2e, 0x88, 0x03, 0x31, 0xd7, 0x29, 0x94, 0x5a,
    0xec, 0x75, 0xae, 0x5d, 0x43, 0xc8, 0xed, 0xa5, 0xfe, 0x62, 0x33, 0xfc, 0xac, 0x49, 0x4e, 0xe6,
    0x7a, 0x0d, 0x50, 0x4d, 0x0b, 0x05, 0x00, 0x00, 0xfe, 0xf3, 0x24, 0xac, 0x39, 0x62, 0xb5, 0x9f,
    0x3b, 0xd7, 0x82, 0x53, 0xae, 0x4d, 0xcb, 0x6a,
];

const RESPONSE: [u8; 28] = [
    0x02, 0x02, 0x00, 0x1c, 0x12, 0x0b, 0x00, 0x00, 0x0b, 0x05, 0x00, 0x00, 0xf5, 0x6d, 0x64, 0x33,
    0xe6, 0x8e, 0xd2, 0x97, 0x6a, 0xc1, 0x19, 0x37, 0xfc, 0x3d, 0x11, 0x54,
];

fn standard_triplets() -> [Triplet; 3] {
    [
        Triplet {
            rand: 0x101112131415161718191a1b1c1d1e1f_u128.to_be_bytes(),
            sres: 0xd1d2d3d4_u32.to_be_bytes(),
            kc: 0xa0a1a2a3a4a5a6a7_u64.to_be_bytes(),
        },
        Triplet {
            rand: 0x202122232425262728292a2b2c2d2e2f_u128.to_be_bytes(),
            sres: 0xe1e2e3e4_u32.to_be_bytes(),
            kc: 0xb0b1b2b3b4b5b6b7_u64.to_be_bytes(),
        },
        Triplet {
            rand: 0x303132333435363738393a3b3c3d3e3f_u128.to_be_bytes(),
            sres: 0xf1f2f3f4_u32.to_be_bytes(),
            kc: 0xc0c1c2c3c4c5c6c7_u64.to_be_bytes(),
        },
    ]
}

fn standard_keys() -> KeySet {
    sim_keys(IDENTITY, &standard_triplets(), NONCE.to_be_bytes(), &[0, 1])
}

/// The bytes of four numbers.
fn joined(numbers: [u128; 4]) -> [u8; 64] {
    let [a, b, c, d] = numbers;
    let mut all = [0; 64];
    all[..16].copy_from_slice(&a.to_be_bytes());
    all[16..32].copy_from_slice(&b.to_be_bytes());
    all[32..48].copy_from_slice(&c.to_be_bytes());
    all[48..].copy_from_slice(&d.to_be_bytes());
    all
}

// RFC 4186 Appendix A.5: K_encr, K_aut, MSK and EMSK.
#[test]
fn keys_are_those_of_the_standard(rt: HostRuntime) {
    let keys = standard_keys();
    let mut k_aut = [0; 32];
    k_aut[..16].copy_from_slice(&0x25af1942efcbf4bc72b3943421f2a974_u128.to_be_bytes());
    assert!(rt; keys.k_encr == 0x536e5ebc4465582aa6a8ec9986ebb620_u128.to_be_bytes());
    assert!(rt; keys.k_aut == k_aut);
    let msk = joined([
        0x39d45aeaf4e30601983e972b6cfd46d1,
        0xc363773365690d09cd44976b525f47d3,
        0xa60a985e955c53b090b2e4b73719196a,
        0x402542968fd14a888f46b9a7886e4488,
    ]);
    assert!(rt; keys.msk == msk);
    let emsk = joined([
        0x5949eab0fff69d52315c6c634fd14a7f,
        0x0d52023d56f79698fa6596abeed4f93f,
        0xbb48eb534d985414ceed0d9a8ed33c38,
        0x7c9dfdab92ffbdf240fcecf65a2c93b9,
    ]);
    assert!(rt; keys.emsk == emsk);
}

/// Whether a packet is received with a right AT_MAC under the keys of the standard's example.
fn is_right(rt: &impl Abort, alloc: Global, bytes: &[u8], extra: &[u8]) -> bool {
    let received = receive_sim(alloc, bytes).expect(rt, "memory");
    is_sim_sealed(&received, &standard_keys().k_aut, extra)
}

// RFC 4186 Appendix A.5 and A.6: AT_MAC of the request, with NONCE_MT, and that of the response, with the SRES values.
#[test]
fn macs_are_those_of_the_standard(rt: HostRuntime) {
    let alloc = rt.alloc();
    let nonce = NONCE.to_be_bytes();
    let cases = [
        (REQUEST.as_slice(), nonce.as_slice(), true),
        (REQUEST.as_slice(), SRES.as_slice(), false),
        (RESPONSE.as_slice(), SRES.as_slice(), true),
        (RESPONSE.as_slice(), nonce.as_slice(), false),
    ];
    for (packet, extra, right) in cases {
        assert!(rt; is_right(&rt, alloc, packet, extra) == right);
    }
}

fn secret() -> Secret {
    Secret {
        k: [1; 16],
        opc: [2; 16],
    }
}

/// The bytes that a step sent.
fn sent(alloc: Global, step: Step<SimWhy>) -> Octets {
    match step {
        Step::Sent(bytes) | Step::Ended(_, bytes) => bytes,
        Step::Ignored(_) => Octets::new(alloc),
    }
}

/// The keys of a step that ended in Success.
fn won(step: &Step<SimWhy>) -> Option<KeySet> {
    match step {
        Step::Ended(Outcome::Success(keys), _) => Some(*keys),
        _ => None,
    }
}

/// What a peer sends after these bytes.
fn from_peer(rt: &impl Abort, alloc: Global, peer: &mut SimPeer, bytes: &[u8]) -> Octets {
    sent(alloc, peer.on_bytes(alloc, bytes).expect(rt, "memory"))
}

/// The server's Challenge, after its Start request.
fn challenge_of(
    rt: &impl Abort,
    alloc: Global,
    server: &mut SimServer,
    peer: &mut SimPeer,
    start: &[u8],
) -> Octets {
    let answer = from_peer(rt, alloc, peer, start);
    let step = server.on_bytes(alloc, answer.as_slice());
    sent(alloc, step.expect(rt, "memory"))
}

/// The keys of both ends after the Challenge.
fn keys_after(
    rt: &impl Abort,
    alloc: Global,
    server: &mut SimServer,
    peer: &mut SimPeer,
    challenge: &[u8],
) -> (Option<KeySet>, Option<KeySet>) {
    let answer = from_peer(rt, alloc, peer, challenge);
    let step = server
        .on_bytes(alloc, answer.as_slice())
        .expect(rt, "memory");
    let keys = won(&step);
    let last = sent(alloc, step);
    let step = peer.on_bytes(alloc, last.as_slice()).expect(rt, "memory");
    (keys, won(&step))
}

/// The keys of both ends after a session without loss, with the triplets of these RANDs.
fn keys_of_both(
    rt: &impl Abort,
    alloc: Global,
    rands: [u8; 2],
) -> (Option<KeySet>, Option<KeySet>) {
    let s = secret();
    let triplets = rands.map(|byte| card(&s, [byte; 16]));
    let started = SimServer::start(alloc, b"1001010000000001", &triplets);
    let (mut server, start) = started.expect(rt, "memory");
    let peer = SimPeer::new(alloc, s, b"1001010000000001", [9; 16]);
    let mut peer = peer.expect(rt, "memory");
    let challenge = challenge_of(rt, alloc, &mut server, &mut peer, start.as_slice());
    keys_after(rt, alloc, &mut server, &mut peer, challenge.as_slice())
}

#[test]
fn both_ends_succeed_with_equal_keys(rt: HostRuntime) {
    let (server, peer) = keys_of_both(&rt, rt.alloc(), [3, 4]);
    assert!(rt; server.is_some());
    assert!(rt; peer == server);
}

#[test]
fn equal_rands_end_in_failure(rt: HostRuntime) {
    let (server, peer) = keys_of_both(&rt, rt.alloc(), [3, 3]);
    assert!(rt; server.is_none());
    assert!(rt; peer.is_none());
}
