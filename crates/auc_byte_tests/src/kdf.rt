//! The keys of EAP-AKA' by the published cases.

ghost use Rattle.std.specs.Prelude.{◌≤◌, length};

use crate::digits::octets;
use auc_hmac::{KeySet, Pair};
use auc_kdf::{prime_ck_ik, prime_keys, prime_reauth_keys};
use std::process::Abort;

// RFC 5448 Appendix C, which RFC 9048 repeats: the inputs of test cases 1 and 2, which differ only in the
// network name.
const IDENTITY: &[u8] = b"0555444333222111";

const CK: &[u8] = b"5349fbe098649f948f5d2e973a81c00f";

const IK: &[u8] = b"9744871ad32bf9bbd1dd5ce54e3e2e5a";

// The first 6 bytes of AUTN.
const SQN_XOR_AK: &[u8] = b"bb52e91c747a";

/// CK' and IK' for a network's name.
fn primed(rt: &impl Abort, name: &[u8]) -> ([u8; 16], [u8; 16])
    requires { length name.now ≤ 65535 }
{
    prime_ck_ik(octets(rt, CK), octets(rt, IK), name, octets(rt, SQN_XOR_AK))
}

// A network's name, and the digits of CK' and of IK'. RFC 5448 Appendix C, test cases 1 and 2. The last row, whose name is
// 300 times `a`, is from Python's `hmac`.
const PRIMED: [(&[u8], &[u8], &[u8]); 3] = [
    (
        b"WLAN",
        b"0093962d0dd84aa5684b045c9edffa04",
        b"ccfc230ca74fcc96c0a5d61164f5a76c",
    ),
    (
        b"HRPD",
        b"3820f0277fa5f77732b1fb1d90c1a0da",
        b"db94a0ab557ef6c9ab48619ca05b9a9f",
    ),
    (
        &[b'a'; 300],
        b"7ff7df0731888353e5032a52e916d482",
        b"738e215389fc4806ae539c2d79fef011",
    ),
];

#[test]
fn primed_ck_and_ik_are_those_of_the_published_cases(rt: HostRuntime) {
    for (name, ck, ik) in PRIMED {
        assert!(rt; name.len() <= 65535);
        let expected: ([u8; 16], [u8; 16]) = (octets(&rt, ck), octets(&rt, ik));
        assert!(rt; primed(&rt, name) == expected, "at {}", name.len());
    }
}

/// The keys of a full authentication for a network's name.
fn keys_for(rt: &impl Abort, name: &[u8]) -> KeySet
    requires { length name.now ≤ 65535 }
{
    let (ck, ik) = primed(rt, name);
    prime_keys(IDENTITY, ik, ck)
}

// K_re of RFC 5448 Appendix C, test case 1.
const K_RE: &[u8] = b"cf83aa8bc7e0aced892acc98e76a9b2095b558c7795c7094715cb3393aa7d17a";

// RFC 5448 Appendix C, test case 1.
#[test]
fn keys_of_the_first_published_case_are_found(rt: HostRuntime) {
    let keys = KeySet {
        k_encr: octets(&rt, b"766fa0a6c317174b812d52fbcd11a179"),
        k_aut: octets(
            &rt,
            b"0842ea722ff6835bfa2032499fc3ec23c2f0e388b4f07543ffc677f1696d71ea",
        ),
        k_re: octets(&rt, K_RE),
        msk: octets(
            &rt,
            b"67c42d9aa56c1b79e295e3459fc3d187d42be0bf818d3070e362c5e967a4d544\
e8ecfe19358ab3039aff03b7c930588c055babee58a02650b067ec4e9347c75a",
        ),
        emsk: octets(
            &rt,
            b"f861703cd775590e16c7679ea3874ada866311de290764d760cf76df647ea01c\
313f69924bdd7650ca9bac141ea075c4ef9e8029c0e290cdbad5638b63bc23fb",
        ),
    };
    assert!(rt; keys_for(&rt, b"WLAN") == keys);
}

// RFC 5448 Appendix C, test case 2.
#[test]
fn keys_of_the_second_published_case_are_found(rt: HostRuntime) {
    let keys = KeySet {
        k_encr: octets(&rt, b"05ad73ac915fce89ac77e1520d82187b"),
        k_aut: octets(
            &rt,
            b"5b4acaef62c6ebb8882b2f3d534c4b35277337a00184f20ff25d224c04be2afd",
        ),
        k_re: octets(
            &rt,
            b"3f90bf5c6e5ef325ff04eb5ef6539fa8cca8398194fbd00be425b3f40dba10ac",
        ),
        msk: octets(
            &rt,
            b"87b321570117cd6c95ab6c436fb5073ff15cf85505d2bc5bb7355fc21ea8a757\
57e8f86a2b138002e05752913bb43b82f868a96117e91a2d95f526677d572900",
        ),
        emsk: octets(
            &rt,
            b"c891d5f20f148a1007553e2dea555c9cb672e9675f4a66b4bafa027379f93aee\
539a5979d0a0042b9d2ae28bed3b17a31dc8ab75072b80bd0c1da612466e402c",
        ),
    };
    assert!(rt; keys_for(&rt, b"HRPD") == keys);
}

// Python's `hmac`, by the formulas of RFC 9048 §3.3 and §3.4.1, over the K_re of RFC 5448 Appendix C, test
// case 1.
#[test]
fn keys_of_a_reauthentication_agree_with_a_second_implementation(rt: HostRuntime) {
    let k_re = octets(&rt, K_RE);
    let nonce = octets(&rt, b"101112131415161718191a1b1c1d1e1f");
    let pair = Pair {
        msk: octets(
            &rt,
            b"c114c52436a75a6642b9b774250d24f3e3598892d2876cd38f07804344eac92e\
f7b89caae1a64ae9fdbe2e24c6b41b32697567e7ad9d4a60a50b43028cf7a0bc",
        ),
        emsk: octets(
            &rt,
            b"4451e3417a4e0121a33e89b6005352f6dc5191ac73e037bff195ece4d397e62a\
1a109de9cdd29065114efee8b34a34890d7723d149158bfd1d675104c79ca163",
        ),
    };
    let identity = b"4reauth@wlan.mnc001.mcc001.3gppnetwork.org";
    assert!(rt; prime_reauth_keys(identity, 258, nonce, k_re) == pair);
}
