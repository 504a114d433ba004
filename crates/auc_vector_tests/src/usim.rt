//! The USIM by vectors of the standard.

ghost use Rattle.std.specs.Prelude.{◌≤◌};
ghost use Rattle.auc_sqn.specs.Number.{top_of};

use auc_milenage::Secret;
use auc_sqn::{sqn_of, top};
use auc_usim::{Answer, Usim};

// TS 35.208, test set 1: K, OPc, RAND and SQN; AUTN of SQN masked by f5, AMF and f1.
const RAND: u128 = 0x23553cbe9637a89d218ae64dae47bf35;

const SQN: [u8; 6] = [0xff, 0x9b, 0xb4, 0xd0, 0xb6, 0x07];

const AUTN: u128 = 0x55f328b43577b9b94a9ffac354dfafb3;

/// SEQ of the test set's SQN.
const SEQ: u64 = 8782631830960;

/// K and OPc of the test set.
fn secret() -> Secret {
    Secret {
        k: 0x465b5ce8b199b49faa5f0a2ee238a6bc_u128.to_be_bytes(),
        opc: 0xcd63cb71954a9f4e48a5994e37a02baf_u128.to_be_bytes(),
    }
}

/// The USIM of the test set with an index length of 5 bits and no age limit, for which the numbers up to `opening` count as
/// accepted.
fn usim(opening: u64) -> Usim
    requires { opening ≤ top_of 5 }
{
    Usim::new(secret(), opening, 5, None)
}

// RES, CK, IK and AK as TS 35.208 prints them; the openings by hand: SEQ is at most 2^28 above each, and the last
// number up to it whose remainder by 32 is the SQN's IND, which is 7, is at most SEQ - 9.
#[test]
fn genuine_vector_is_accepted_within_reach(rt: HostRuntime) {
    let accepted = Answer::Accepted {
        res: 0xa54211d5e3ba50bf_u64.to_be_bytes(),
        ck: 0xb40ba9a3c58b2a05bbf0d987b21bf8cb_u128.to_be_bytes(),
        ik: 0xf769bcd751044604127672711c6d3441_u128.to_be_bytes(),
        ak: [0xaa, 0x68, 0x9c, 0x64, 0x83, 0x70],
        amf: [0xb9, 0xb9],
        sqn: SQN,
    };
    for opening in [SEQ - 268435456, SEQ - 1, SEQ, SEQ + 22] {
        let answer = usim(opening).challenge(RAND.to_be_bytes(), AUTN.to_be_bytes());
        assert!(rt; answer == accepted, "at {opening}");
    }
}

// The first and the last bit of each part of AUTN turned over; at the second opening the genuine SQN is stale.
#[test]
fn forged_autn_gets_no_auts_and_changes_nothing(rt: HostRuntime) {
    for bit in [0, 47, 48, 63, 64, 127] {
        for opening in [SEQ - 1, SEQ + 100] {
            let mut usim = usim(opening);
            let before = usim;
            let forged = AUTN ^ (1 << bit);
            let answer = usim.challenge(RAND.to_be_bytes(), forged.to_be_bytes());
            assert!(rt; answer == Answer::WrongMac, "at {bit}");
            assert!(rt; usim == before, "at {bit}");
        }
    }
}

// The openings by hand: SEQ is 2^28 + 1 above the first, and SEQ + 23 is the next number whose remainder by 32 is the SQN's
// IND. The AUTS by the equations of TS 35.206 over the AES of Python's `cryptography` 48; it begins with SQN_MS masked
// by the test set's f5*, 451e8beca43b.
#[test]
fn stale_and_far_numbers_get_the_auts_of_sqn_ms(rt: HostRuntime) {
    let cases: [(u64, [u8; 6], u128); 2] = [
        (
            SEQ - 268435457,
            sqn_of(SEQ - 268435457, 5),
            0xba873f3c11d479dba87465736ce1,
        ),
        (
            SEQ + 23,
            sqn_of(SEQ + 23, 5),
            0xba853f3c1cdc1ab8c59f4595199f,
        ),
    ];
    for (opening, sqn, auts) in cases {
        let mut usim = usim(opening);
        let before = usim;
        let answer = usim.challenge(RAND.to_be_bytes(), AUTN.to_be_bytes());
        assert!(rt; answer == failure(auts, sqn), "at {opening}");
        assert!(rt; usim == before, "at {opening}");
    }
}

// By hand: a new USIM has entry 0 for each IND, so that SEQ 0 is old, 2^28 is within reach and 2^28 + 1 is far. The
// AUTNs and the AUTS by the equations of TS 35.206 over the AES of Python's `cryptography` 48, under K, OPc, RAND and AMF
// of TS 35.208, test set 1; the AUTS is that of SQN_MS 000000000000. SQN, AUTN, whether it is accepted.
#[test]
fn new_usim_refuses_seq_0_and_accepts_up_to_its_reach(rt: HostRuntime) {
    let refused = failure(0x451e8beca43bc1611f30a9efd73c, [0; 6]);
    let cases: [([u8; 6], u128, bool); 6] = [
        ([0; 6], 0xaa689c648370b9b9cf0a0ab33e78137c, false),
        (
            [0, 0, 0, 0, 0, 0x1f],
            0xaa689c64836fb9b9fedc1d5ec75dc854,
            false,
        ),
        (
            [0, 0, 0, 0, 0, 0x20],
            0xaa689c648350b9b9a4a8043ac07aa7e0,
            true,
        ),
        ([0, 2, 0, 0, 0, 0], 0xaa6a9c648370b9b94e3aa9c0d4171d35, true),
        (
            [0, 2, 0, 0, 0, 0x20],
            0xaa6a9c648350b9b98906f36d441f64de,
            false,
        ),
        ([0xff; 6], 0x5597639b7c8fb9b9c18606e57f0a73f3, false),
    ];
    for (sqn, autn, accepts) in cases {
        let answer = usim(0).challenge(RAND.to_be_bytes(), autn.to_be_bytes());
        let accepted = matches!(answer, Answer::Accepted { sqn: found, .. } if found == sqn);
        let found = (accepted, answer == refused);
        assert!(rt; found == (accepts, !accepts), "at {autn:x}");
    }
}

// The AUTS as above.
#[test]
fn accepted_number_is_not_accepted_again(rt: HostRuntime) {
    let mut usim = usim(SEQ - 1);
    let first = usim.challenge(RAND.to_be_bytes(), AUTN.to_be_bytes());
    assert!(rt; matches!(first, Answer::Accepted { .. }));
    let second = usim.challenge(RAND.to_be_bytes(), AUTN.to_be_bytes());
    assert!(rt; second == failure(0xba853f3c123ccf44e93596e355c6, SQN));
}

// By hand: with an age limit of 22 the SQN is fresh while the greatest accepted SEQ is at most 21 above it. The AUTS by the
// equations of TS 35.206 over the AES of Python's `cryptography` 48.
#[test]
fn aged_number_gets_the_auts_of_sqn_ms(rt: HostRuntime) {
    let refused = failure(0xba853f3c1cfde01ac30c254f3722, sqn_of(SEQ + 22, 5));
    for (opening, aged) in [(SEQ + 21, false), (SEQ + 22, true)] {
        let mut usim = Usim::new(secret(), opening, 5, Some(22));
        let answer = usim.challenge(RAND.to_be_bytes(), AUTN.to_be_bytes());
        let accepted = matches!(answer, Answer::Accepted { .. });
        assert!(rt;
            (accepted, answer == refused) == (!aged, aged),
            "at {opening}"
        );
    }
}

// By hand: with an index length of 6 the test set's SQN has SEQ 4391315915480 and IND 7, and 4391315915527 is the next
// number whose remainder by 64 is 7. The AUTS as above.
#[test]
fn sqn_is_taken_apart_by_the_index_length(rt: HostRuntime) {
    let next = 4391315915527;
    let refused = failure(0xba853f3c65fcd9393046115e9009, sqn_of(next, 6));
    for (opening, old) in [(4391315915479, false), (next - 1, false), (next, true)] {
        let mut usim = Usim::new(secret(), opening, 6, None);
        let answer = usim.challenge(RAND.to_be_bytes(), AUTN.to_be_bytes());
        let accepted = matches!(answer, Answer::Accepted { .. });
        assert!(rt;
            (accepted, answer == refused) == (!old, old),
            "at {opening}"
        );
    }
}

// By hand: with an index length of 0 the SQN 080000000005 has SEQ 2^43 + 5, which is above the greatest number of the home
// network. AUTN and AUTS as above.
#[test]
fn seq_above_the_greatest_number_is_accepted(rt: HostRuntime) {
    let autn: u128 = 0xa2689c648375b9b983185638ec97105f;
    let sqn = [8, 0, 0, 0, 0, 5];
    let mut usim = Usim::new(secret(), top(0), 0, None);
    let first = usim.challenge(RAND.to_be_bytes(), autn.to_be_bytes());
    assert!(rt; matches!(first, Answer::Accepted { sqn: found, .. } if found == sqn));
    let second = usim.challenge(RAND.to_be_bytes(), autn.to_be_bytes());
    assert!(rt; second == failure(0x4d1e8beca43e7c639520555e7f27, sqn));
}

/// A synchronisation failure, with AUTS as a number of 112 bits.
fn failure(auts: u128, sqn: [u8; 6]) -> Answer {
    let mut sent = [0; 14];
    sent.copy_from_slice(&auts.to_be_bytes()[2..]);
    Answer::SyncFailure { auts: sent, sqn }
}
