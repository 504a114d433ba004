//! HMAC by the published cases.

use crate::digits::octets;
use auc_hmac::{HmacSha1, HmacSha256};

fn hmac_sha1(key: &[u8], front: &[u8], rest: &[u8]) -> [u8; 20] {
    let mut mac = HmacSha1::new(key);
    mac.update(front);
    mac.update(rest);
    mac.finish()
}

fn hmac_sha256(key: &[u8], front: &[u8], rest: &[u8]) -> [u8; 32] {
    let mut mac = HmacSha256::new(key);
    mac.update(front);
    mac.update(rest);
    mac.finish()
}

// A key, a text, and the digits of the tag.
type Case = (&'static [u8], &'static [u8], &'static [u8]);

// RFC 2202 §3, test cases 1 to 3, 6 and 7. The keys of the last two are longer than a block. Python's
// `hmac` gives the same.
const SHA1_CASES: [Case; 5] = [
    (
        &[0x0b; 20],
        b"Hi There",
        b"b617318655057264e28bc0b6fb378c8ef146be00",
    ),
    (
        b"Jefe",
        b"what do ya want for nothing?",
        b"effcdf6ae5eb2fa2d27416d5f184df9c259a7c79",
    ),
    (
        &[0xaa; 20],
        &[0xdd; 50],
        b"125d7342b9ac11cd91a39af48aa17b4f63f175d3",
    ),
    (
        &[0xaa; 80],
        b"Test Using Larger Than Block-Size Key - Hash Key First",
        b"aa4ae5e15272d00e95705637ce8a3b55ed402112",
    ),
    (
        &[0xaa; 80],
        b"Test Using Larger Than Block-Size Key and Larger Than One Block-Size Data",
        b"e8e99d0f45237d786d6bbaa7965c7808bbff1a91",
    ),
];

#[test]
fn hmac_sha1_agrees_with_the_published_cases_cut_anywhere(rt: HostRuntime) {
    for (key, text, digits) in SHA1_CASES {
        let tag: [u8; 20] = octets(&rt, digits);
        for cut in 0..text.len() {
            let (front, rest) = text.split_at(cut);
            assert!(rt; hmac_sha1(key, front, rest) == tag, "cut at {cut}");
        }
    }
}

// RFC 4231 §4, test cases 1 to 3, 6 and 7. The keys of the last two are longer than a block. Python's
// `hmac` gives the same.
const SHA256_CASES: [Case; 5] = [
    (
        &[0x0b; 20],
        b"Hi There",
        b"b0344c61d8db38535ca8afceaf0bf12b881dc200c9833da726e9376c2e32cff7",
    ),
    (
        b"Jefe",
        b"what do ya want for nothing?",
        b"5bdcc146bf60754e6a042426089575c75a003f089d2739839dec58b964ec3843",
    ),
    (
        &[0xaa; 20],
        &[0xdd; 50],
        b"773ea91e36800e46854db8ebd09181a72959098b3ef8c122d9635514ced565fe",
    ),
    (
        &[0xaa; 131],
        b"Test Using Larger Than Block-Size Key - Hash Key First",
        b"60e431591ee0b67f0d8a26aacbf5b77f8e0bc6213728c5140546040f0ee37f54",
    ),
    (
        &[0xaa; 131],
        b"This is a test using a larger than block-size key and a larger than block-size data. The key needs to be hashed before being used by the HMAC algorithm.",
        b"9b09ffa71b942fcb27635fbcd5b0e944bfdc63644f0713938a7f51535c3a35e2",
    ),
];

#[test]
fn hmac_sha256_agrees_with_the_published_cases_cut_anywhere(rt: HostRuntime) {
    for (key, text, digits) in SHA256_CASES {
        let tag: [u8; 32] = octets(&rt, digits);
        for cut in 0..text.len() {
            let (front, rest) = text.split_at(cut);
            assert!(rt; hmac_sha256(key, front, rest) == tag, "cut at {cut}");
        }
    }
}

// The bytes 0 to 64, of which each key below is a front.
fn key() -> [u8; 65] {
    let mut key = [0; 65];
    for i in 0..65 {
        key[i] = i as u8;
    }
    key
}

// Python's `hmac` on "Hi There", with keys about the sizes of a digest and of a block: the size of the key, and the digits of
// the tag.
const SHA1_SIZES: [(usize, &[u8]); 7] = [
    (20, b"061ed594ba6c87b2ef5bd6aec3d80fef8d6c02ff"),
    (21, b"b3dcd30ba49669583f33de97d652b113c5c31765"),
    (32, b"61902724706ceacfa2eaa4ae1a19ea1a0dc09fa9"),
    (33, b"5850b592938984235a8cbe02a66ba183c5b7540c"),
    (63, b"f07b741c9da734ef6b35e14a59f8fe57feab9519"),
    (64, b"5a2d38ed2a31f8154ae722ea44546462760f2d4a"),
    (65, b"c873d7c2a3c150400e99d3cbf25c3ef3acc50f62"),
];

#[test]
fn hmac_sha1_takes_keys_of_each_size(rt: HostRuntime) {
    let key = key();
    for (size, digits) in SHA1_SIZES {
        let tag: [u8; 20] = octets(&rt, digits);
        let found = hmac_sha1(&key[..size], b"Hi", b" There");
        assert!(rt; found == tag, "at {size}");
    }
}

// The same with SHA-256.
const SHA256_SIZES: [(usize, &[u8]); 7] = [
    (
        20,
        b"d39cd1a1b3a8b58a261060e108c71f30914ea5319dcd56b7475bd2a0e4a93669",
    ),
    (
        21,
        b"9221362fd43626596500e496262a37be852b4e660d73f3c8968878231862adbb",
    ),
    (
        32,
        b"278639ec02309d3afded1b273f1349ba63b9089c12476d716bee3ecc94673e9e",
    ),
    (
        33,
        b"00768eb6f96fcc11134f14e78ce183c8ad458eec413943732f886522a8aee0ed",
    ),
    (
        63,
        b"15114f286583a744e650a1fdd62905278d781940e887564ac877bb7ebfa6e58f",
    ),
    (
        64,
        b"e311769a0a9a3af1ad9da74c1933bab5ac0aa48367b55ab6ec995508bdab1db6",
    ),
    (
        65,
        b"6cae1509765ef078ace5069de97213ef2c56a78d522d68d8addc5007740e964b",
    ),
];

#[test]
fn hmac_sha256_takes_keys_of_each_size(rt: HostRuntime) {
    let key = key();
    for (size, digits) in SHA256_SIZES {
        let tag: [u8; 32] = octets(&rt, digits);
        let found = hmac_sha256(&key[..size], b"Hi", b" There");
        assert!(rt; found == tag, "at {size}");
    }
}
