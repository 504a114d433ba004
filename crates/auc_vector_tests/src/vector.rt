//! Values from other implementations.

ghost use Rattle.std.specs.Prelude.{◌≤◌, ◌<◌};

use auc_hmac::{KeySet, Method};
use auc_milenage::{Secret, make_auts};
use auc_random::Rands;
use auc_sqn::{MAX_SEQ, top};
use auc_text::read_octets;
use auc_vector::{Auts, Vector, Vectors, keys_by, keys_of, read_auts, vector, vectors};
use std::process::Abort;

/// What stands in the place of a vector that isn't made.
const BLANK: Vector = Vector {
    n: 0,
    rand: [0; 16],
    autn: [0; 16],
    xres: [0; 8],
    ck: [0; 16],
    ik: [0; 16],
};

/// The key of the 32 bytes from 0 to 31.
fn rands() -> Rands {
    Rands::new([
        0, 1, 2, 3, 4, 5, 6, 7, 8, 9, 10, 11, 12, 13, 14, 15, 16, 17, 18, 19, 20, 21, 22, 23, 24,
        25, 26, 27, 28, 29, 30, 31,
    ])
}

/// K and OPc of TS 35.208, test set 1.
pub(crate) fn secret() -> Secret {
    Secret {
        k: 0x465b5ce8b199b49faa5f0a2ee238a6bc_u128.to_be_bytes(),
        opc: 0xcd63cb71954a9f4e48a5994e37a02baf_u128.to_be_bytes(),
    }
}

/// AUTN, XRES, CK and IK, as numbers.
type Parts = (u128, u64, u128, u128);

/// The vector of a number and a RAND with these parts.
fn vector_of(n: u64, rand: [u8; 16], parts: Parts) -> Vector {
    let (autn, xres, ck, ik) = parts;
    Vector {
        n,
        rand,
        autn: autn.to_be_bytes(),
        xres: xres.to_be_bytes(),
        ck: ck.to_be_bytes(),
        ik: ik.to_be_bytes(),
    }
}

// The equations of TS 35.206 over the AES of Python's `cryptography` 48, under K and OPc of TS 35.208, test set 1:
// subscriber, number, AMF, then the vector's parts.
const VECTORS: [(u32, u64, u16, Parts); 3] = [
    (
        0,
        1,
        0x8000,
        (
            0x5c932ea779de80001d96bfd35d896e74,
            0x59fce589e7b274e7,
            0x164ec6b56c3fa5a33c5130b35fbfdc49,
            0x1ef5c23ff651ae6846822d2ba9304231,
        ),
    ),
    (
        7,
        500,
        0xb9b9,
        (
            0xeabcf8516351b9b9a87fc888cc29bf79,
            0x158d2852dd7c0856,
            0xcbe910d7723442b7e871b8e96269a9d2,
            0x766e9b2037c23665f0cc4f00b326b66b,
        ),
    ),
    (
        65535,
        8796093022207,
        0x0000,
        (
            0xa6df1a46bf2e000062d8f162e99a0fdf,
            0x7a385c4d96e51fee,
            0x2fab11a9332884853fd1266e1b3c3c94,
            0x3e73a771f5bbd04059c9e5a8247e1f29,
        ),
    ),
];

#[test]
fn each_part_of_a_vector_is_that_of_another_implementation(rt: HostRuntime) {
    let rands = rands();
    for (sub, n, amf, parts) in VECTORS {
        assert!(rt; 1 <= n && n <= top(5));
        let rand = rands.rand_of(sub, n);
        let amf = amf.to_be_bytes();
        let made = vector(&secret(), Method::Aka, amf, &[], 5, n, rand);
        let mut vectors = Vectors::new(&secret(), amf, 5, rands.stream(sub));
        assert!(rt;
            vectors.vector_of(n) == made,
            "the subscriber's vector at {n}"
        );
        assert!(rt; made == vector_of(n, rand, parts), "at {n}");
    }
}

/// The RAND of each of 33 vectors: that of TS 35.208, test set 1, and those after it.
fn rand_at(place: usize) -> [u8; 16]
    requires { place < 33 }
{
    (0x23553cbe9637a89d218ae64dae47bf35 + place as u128).to_be_bytes()
}

/// 33 vectors, of which the first `count` are made together, of the numbers from 490 on; the others are blank.
fn together(method: Method, count: usize) -> [Vector; 33]
    requires { count ≤ 33 }
{
    let mut rands = [[0; 16]; 33];
    for i in 0..33 {
        rands[i] = rand_at(i);
    }
    let mut made = [BLANK; 33];
    vectors(
        &secret(),
        method,
        [0xb9, 0xb9],
        b"WLAN",
        5,
        490,
        &rands[..count],
        &mut made[..count],
    );
    made
}

// The equations of TS 35.206 over the AES of Python's `cryptography` 48: place, and the vector's parts. The first has the
// XRES, CK and IK of TS 35.208, test set 1.
const TOGETHER: [(usize, Parts); 4] = [
    (
        0,
        (
            0xaa689c64be3ab9b91d244ec89ec23f36,
            0xa54211d5e3ba50bf,
            0xb40ba9a3c58b2a05bbf0d987b21bf8cb,
            0xf769bcd751044604127672711c6d3441,
        ),
    ),
    (
        15,
        (
            0x6878657c2376b9b9c3e3189e5439d79b,
            0x221bb02264e057d1,
            0x9a141b6656e60791c7d03083791ded7d,
            0x95b3c9d1fd593f534147bcc166cee444,
        ),
    ),
    (
        16,
        (
            0xef8f59de60c8b9b977030500029a518a,
            0xbccb118810c0da1b,
            0xbaea32f954fb4e5fa180095c232fb6e8,
            0xe3810ac42c25038b2c04d221511d649c,
        ),
    ),
    (
        32,
        (
            0x84b00495fe05b9b9a363828a29f7deef,
            0x406efecc08aa8e93,
            0xd4d0b92c6739cf3196cfb85d884cf839,
            0x7f2ac05fe20ccaaf269edb669eedcb13,
        ),
    ),
];

#[test]
fn vectors_made_together_are_those_of_another_implementation(rt: HostRuntime) {
    let made = together(Method::Aka, 33);
    for (place, parts) in TOGETHER {
        assert!(rt; place < 33);
        let expected = vector_of(490 + place as u64, rand_at(place), parts);
        assert!(rt; made[place] == expected, "at {place}");
    }
}

// The vectors that are made alone are compared with another implementation above.
#[test]
fn each_vector_made_together_is_that_of_its_number(rt: HostRuntime) {
    for count in [0, 1, 16, 17, 33] {
        for method in [Method::Aka, Method::Prime] {
            let mut expected = [BLANK; 33];
            for i in 0..count {
                let n = 490 + i as u64;
                let rand = rand_at(i);
                expected[i] = vector(&secret(), method, [0xb9, 0xb9], b"WLAN", 5, n, rand);
            }
            assert!(rt;
                together(method, count) == expected,
                "{count} by {method:?}"
            );
        }
    }
}

// The equations of TS 35.206 over the AES of Python's `cryptography` 48, under K, OPc, RAND and AMF of TS 35.208, test set
// 1, for the SQNs 000000000041, 000000000209, 000000001041, 07ffffffffff and ffffffffffff: how many bits an index has, the
// number, and AUTN.
#[test]
fn autn_has_the_sqn_of_its_index_length(rt: HostRuntime) {
    let cases: [(u8, u64, u128); 5] = [
        (0, 65, 0xaa689c648331b9b99ecf0b3768153ba6),
        (3, 65, 0xaa689c648179b9b9f7320b9bcacbd2e2),
        (6, 65, 0xaa689c649331b9b986f19e68316d6e3c),
        (0, MAX_SEQ, 0xad97639b7c8fb9b91ec6729b984c6903),
        (6, 4398046511103, 0x5597639b7c8fb9b9c18606e57f0a73f3),
    ];
    for (bits, n, autn) in cases {
        assert!(rt; bits <= 6 && 1 <= n && n <= top(bits));
        let (s, amf, rand) = (secret(), [0xb9, 0xb9], rand_at(0));
        let alone = vector(&s, Method::Aka, amf, &[], bits, n, rand);
        let mut made = [BLANK];
        vectors(&s, Method::Aka, amf, &[], bits, n, &[rand], &mut made);
        let expected = (autn.to_be_bytes(), [alone]);
        assert!(rt; (alone.autn, made) == expected, "at {n} of {bits} bits");
    }
}

// Of the vectors above CK' and IK' by Python's `hmac`: subscriber, number, AMF, the network's name, CK' and IK'.
#[test]
fn only_the_keys_of_a_vector_depend_on_the_method(rt: HostRuntime) {
    let cases: [(u32, u64, u16, &[u8], u128, u128); 2] = [
        (
            0,
            1,
            0x8000,
            b"WLAN",
            0x4e177d3f9d8fd0381a40eaf377ef87ff,
            0x262c8762e915c4deb3d8cc1c4c7775f1,
        ),
        (
            7,
            500,
            0xb9b9,
            b"5G:mnc001.mcc232.3gppnetwork.org",
            0x61cd4aa4d0d8a4fc32248d6ee9af38f9,
            0x44a003c01c98223490da7d0af8508a87,
        ),
    ];
    for (sub, n, amf, name, ck, ik) in cases {
        let rand = rands().rand_of(sub, n);
        let own = vector(&secret(), Method::Aka, amf.to_be_bytes(), name, 5, n, rand);
        let made = vector(
            &secret(),
            Method::Prime,
            amf.to_be_bytes(),
            name,
            5,
            n,
            rand,
        );
        let expected = Vector {
            ck: ck.to_be_bytes(),
            ik: ik.to_be_bytes(),
            ..own
        };
        assert!(rt; made == expected, "at {n}");
    }
}

/// The bytes that these hexadecimal digits spell.
fn octets<R: Abort, const N: usize>(rt: &R, digits: &[u8]) -> [u8; N] {
    read_octets::<N>(digits).expect(rt, "digits")
}

// The digits of a network's name's CK' and IK', and of K_encr, K_aut, K_re, MSK and EMSK.
type PrimeCase = (&'static [u8], [&'static [u8]; 7]);

// RFC 9048 Appendix C, cases 1 and 2, which differ only in the network's name.
const PRIME_CASES: [PrimeCase; 2] = [
    (
        b"WLAN",
        [
            b"0093962d0dd84aa5684b045c9edffa04",
            b"ccfc230ca74fcc96c0a5d61164f5a76c",
            b"766fa0a6c317174b812d52fbcd11a179",
            b"0842ea722ff6835bfa2032499fc3ec23c2f0e388b4f07543ffc677f1696d71ea",
            b"cf83aa8bc7e0aced892acc98e76a9b2095b558c7795c7094715cb3393aa7d17a",
            b"67c42d9aa56c1b79e295e3459fc3d187d42be0bf818d3070e362c5e967a4d544\
e8ecfe19358ab3039aff03b7c930588c055babee58a02650b067ec4e9347c75a",
            b"f861703cd775590e16c7679ea3874ada866311de290764d760cf76df647ea01c\
313f69924bdd7650ca9bac141ea075c4ef9e8029c0e290cdbad5638b63bc23fb",
        ],
    ),
    (
        b"HRPD",
        [
            b"3820f0277fa5f77732b1fb1d90c1a0da",
            b"db94a0ab557ef6c9ab48619ca05b9a9f",
            b"05ad73ac915fce89ac77e1520d82187b",
            b"5b4acaef62c6ebb8882b2f3d534c4b35277337a00184f20ff25d224c04be2afd",
            b"3f90bf5c6e5ef325ff04eb5ef6539fa8cca8398194fbd00be425b3f40dba10ac",
            b"87b321570117cd6c95ab6c436fb5073ff15cf85505d2bc5bb7355fc21ea8a757\
57e8f86a2b138002e05752913bb43b82f868a96117e91a2d95f526677d572900",
            b"c891d5f20f148a1007553e2dea555c9cb672e9675f4a66b4bafa027379f93aee\
539a5979d0a0042b9d2ae28bed3b17a31dc8ab75072b80bd0c1da612466e402c",
        ],
    ),
];

/// CK', IK' and the keys of a case, as its digits spell them.
fn prime_values(rt: &impl Abort, digits: [&[u8]; 7]) -> ([u8; 16], [u8; 16], KeySet) {
    let [ck, ik, k_encr, k_aut, k_re, msk, emsk] = digits;
    let keys = KeySet {
        k_encr: octets(rt, k_encr),
        k_aut: octets(rt, k_aut),
        k_re: octets(rt, k_re),
        msk: octets(rt, msk),
        emsk: octets(rt, emsk),
    };
    (octets(rt, ck), octets(rt, ik), keys)
}

#[test]
fn keys_of_eap_aka_prime_are_those_of_the_published_cases(rt: HostRuntime) {
    let autn = 0xbb52e91c747ac3ab2a5c23d15ee351d5_u128.to_be_bytes();
    let ck = 0x5349fbe098649f948f5d2e973a81c00f_u128.to_be_bytes();
    let ik = 0x9744871ad32bf9bbd1dd5ce54e3e2e5a_u128.to_be_bytes();
    for (name, digits) in PRIME_CASES {
        let (own_ck, own_ik) = keys_by(Method::Prime, name, autn, ck, ik);
        let keys = keys_of(Method::Prime, b"0555444333222111", own_ik, own_ck);
        let expected = prime_values(&rt, digits);
        assert!(rt; (own_ck, own_ik, keys) == expected, "for {name:?}");
    }
}

/// The 14 bytes of an AUTS, which is printed as a number.
fn auts_of(number: u128) -> [u8; 14] {
    let mut auts = [0; 14];
    auts.copy_from_slice(&number.to_be_bytes()[2..]);
    auts
}

/// K, OPc and RAND, as numbers.
type Inputs = (u128, u128, u128);

// The inputs of TS 35.208, test set 1.
const FIRST_SET: Inputs = (
    0x465b5ce8b199b49faa5f0a2ee238a6bc,
    0xcd63cb71954a9f4e48a5994e37a02baf,
    0x23553cbe9637a89d218ae64dae47bf35,
);

// The first and the third by the equations of TS 35.206 over the AES of Python's `cryptography` 48, the third under the SQN
// of TS 35.208, test set 1; the second from the test of libosmocore, tests/auth/milenage_test.c. SQN_MS is 00000000001f,
// 000000000017 and ff9bb4d0b607, of which the SEQ is at 0 bits above the greatest number: the inputs, AUTS, how many bits an
// index has, and what is read.
const AUTS: [(Inputs, u128, u8, Auts); 5] = [
    (
        (
            0x000102030405060708090a0b0c0d0e0f,
            0x000102030405060708090a0b0c0d0e0f,
            0x00000000000000000000000000000000,
        ),
        0x8711a0ec9e1637df17f80b384ee4,
        5,
        Auts::SeqMs(0),
    ),
    (
        (
            0xeb215756028d60e3275e613320aec880,
            0xfb2a3d1b360f599abab99db8669f8308,
            0x39fa2f4e3d523d8619a73b4f65c3e14d,
        ),
        0x979498b1f72d3e28c59fa2e72f9c,
        5,
        Auts::SeqMs(0),
    ),
    (
        FIRST_SET,
        0xba853f3c123ccf44e93596e355c6,
        5,
        Auts::SeqMs(8782631830960),
    ),
    (
        FIRST_SET,
        0xba853f3c123ccf44e93596e355c6,
        6,
        Auts::SeqMs(4391315915480),
    ),
    (FIRST_SET, 0xba853f3c123ccf44e93596e355c6, 0, Auts::WrongMac),
];

#[test]
fn auts_of_another_implementation_is_read(rt: HostRuntime) {
    for ((k, opc, rand), auts, bits, read) in AUTS {
        assert!(rt; bits <= 6);
        let s = Secret {
            k: k.to_be_bytes(),
            opc: opc.to_be_bytes(),
        };
        let found = read_auts(&s, rand.to_be_bytes(), auts_of(auts), bits);
        assert!(rt; found == read, "at {auts:x} of {bits} bits");
    }
}

// By hand: the greatest number is 2^43 - 1 up to 5 bits, and 2^42 - 1 at 6. How many bits an index has, SQN_MS, and what
// is read.
#[test]
fn auts_above_the_greatest_number_counts_as_wrong(rt: HostRuntime) {
    let cases = [
        (0, [0x07, 255, 255, 255, 255, 255], Auts::SeqMs(MAX_SEQ)),
        (0, [0x08, 0, 0, 0, 0, 0], Auts::WrongMac),
        (4, [0x7f, 255, 255, 255, 255, 255], Auts::SeqMs(MAX_SEQ)),
        (4, [0x80, 0, 0, 0, 0, 0], Auts::WrongMac),
        (5, [255; 6], Auts::SeqMs(MAX_SEQ)),
        (6, [255; 6], Auts::SeqMs(4398046511103)),
    ];
    for (bits, sqn_ms, read) in cases {
        assert!(rt; bits <= 6);
        let auts = make_auts(&secret(), [7; 16], sqn_ms);
        let found = read_auts(&secret(), [7; 16], auts, bits);
        assert!(rt; found == read, "of {bits} bits");
    }
}
