//! The generator and the keys of EAP-AKA by the published cases.

use crate::digits::octets;
use auc_hmac::{KeySet, Master, Pair};
use auc_prf::{aka_keys, aka_reauth_keys, next_word};

// The first word of FIPS 186-2 with change notice 1 for this XKEY, and the word that follows it.
#[test]
fn two_steps_give_the_published_words(rt: HostRuntime) {
    let (first, next) = next_word(octets(&rt, b"bd029bbe7f51960bcf9edb2b61f06f0feb5a38b6"));
    let (second, _) = next_word(next);
    let words: [[u8; 20]; 2] = [
        octets(&rt, b"2070b3223dba372fde1c0ffc7b2e3b498b260614"),
        octets(&rt, b"3c6c18bacb0f6c55babb13788e20d737a3275116"),
    ];
    assert!(rt; [first, second] == words);
}

// The smallest and the greatest XKEY: the next is w + 1, and w. The words come from SHA-1's compression in
// Python, which also gives both published streams. XKEY, the word, the next XKEY.
#[test]
fn next_xkey_is_one_plus_xkey_plus_the_word(rt: HostRuntime) {
    let cases: [([u8; 20], &[u8], &[u8]); 2] = [
        (
            [0; 20],
            b"92b404e556588ced6c1acd4ebf053f6809f73a93",
            b"92b404e556588ced6c1acd4ebf053f6809f73a94",
        ),
        (
            [255; 20],
            b"ce8dd97eb53de8b8997d71af15eed31ffc822deb",
            b"ce8dd97eb53de8b8997d71af15eed31ffc822deb",
        ),
    ];
    for (xkey, word, next) in cases {
        let expected: ([u8; 20], [u8; 20]) = (octets(&rt, word), octets(&rt, next));
        assert!(rt; next_word(xkey) == expected, "at {}", xkey[0]);
    }
}

/// The eight words of the generator from XKEY on, one after the other.
fn eight_words(mut xkey: [u8; 20]) -> [u8; 160] {
    let mut out = [0; 160];
    for i in 0..8 {
        let (word, next) = next_word(xkey);
        out[20 * i..20 * i + 20].copy_from_slice(&word);
        xkey = next;
    }
    out
}

// RFC 4186 Appendix A: the 160 bytes that its MK gives.
#[test]
fn eight_words_are_those_of_rfc_4186(rt: HostRuntime) {
    let found = eight_words(octets(&rt, b"e576d5ca332e9930018bf1baee2763c795b3c712"));
    let words: [u8; 160] = octets(
        &rt,
        b"536e5ebc4465582aa6a8ec9986ebb62025af1942efcbf4bc72b3943421f2a974\
39d45aeaf4e30601983e972b6cfd46d1c363773365690d09cd44976b525f47d3\
a60a985e955c53b090b2e4b73719196a402542968fd14a888f46b9a7886e4488\
5949eab0fff69d52315c6c634fd14a7f0d52023d56f79698fa6596abeed4f93f\
bb48eb534d985414ceed0d9a8ed33c387c9dfdab92ffbdf240fcecf65a2c93b9",
    );
    assert!(rt; found == words);
}

const IDENTITY: &[u8] = b"0232010000000000@wlan.mnc001.mcc232.3gppnetwork.org";

const REAUTHENTICATION_IDENTITY: &[u8] = b"4reauth@wlan.mnc001.mcc232.3gppnetwork.org";

const MK: &[u8] = b"9dec2c3025011bbd0442f2832063df84d5a305d2";

// Python: MK by `hashlib`, and the generator as a program of its own that gives both published streams.
#[test]
fn keys_of_a_full_authentication_agree_with_a_second_implementation(rt: HostRuntime) {
    let ik = octets(&rt, b"202122232425262728292a2b2c2d2e2f");
    let ck = octets(&rt, b"404142434445464748494a4b4c4d4e4f");
    let keys = KeySet {
        k_encr: octets(&rt, b"df00d0881e6976db4abe0deaeca95a88"),
        k_aut: octets(
            &rt,
            b"0308f4c5b37d55a4429e25f30de1658400000000000000000000000000000000",
        ),
        k_re: [0; 32],
        msk: octets(
            &rt,
            b"c11adafb9bbf1db469a7a57055b87f7f1f1a9e3f63ffec280d0ed827c01bf8e3\
77286ef27f92d627fa0e0834ff8694ade2bbdcc57ceabd0701a65d2273f92ee9",
        ),
        emsk: octets(
            &rt,
            b"90ad7cd9a3683b442c9b0c66d1faf765c012499d6fafa4c1294332c1d3b7af09\
36ae1b7b955181299838780b07d3954c858cf6a0d6ff85d67e46614462ecd62a",
        ),
    };
    assert!(rt; aka_keys(IDENTITY, ik, ck) == (keys, Master::Aka(octets(&rt, MK))));
}

// Python, as above.
#[test]
fn keys_of_a_reauthentication_agree_with_a_second_implementation(rt: HostRuntime) {
    let nonce_s = octets(&rt, b"101112131415161718191a1b1c1d1e1f");
    let pair = Pair {
        msk: octets(
            &rt,
            b"e683ffc2479a79b901ce3cea805bfffd3c7e3a78689e999b354a6edcf6cd36d2\
7d0bc41f93d463dc4054b0c49eaa933c005c46a68d40865eeaa2144ca0b8a5ac",
        ),
        emsk: octets(
            &rt,
            b"80b14994f61d656633cce8ce7b531949e396af9f55dff18fbad8d9502aa04924\
bd133b4bcc3ac15095b2477edaf20b5f34bb7892c4264b4425488d98cf90dc4e",
        ),
    };
    let found = aka_reauth_keys(REAUTHENTICATION_IDENTITY, 258, nonce_s, octets(&rt, MK));
    assert!(rt; found == pair);
}
