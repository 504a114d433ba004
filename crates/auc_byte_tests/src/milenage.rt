//! Vectors of the standards.

use crate::digits::octets;
use auc_milenage::{Four, Milenage, Secret, f1, f1_star, f5_star, f2345, make_auts, opc_of};

/// A test set of TS 35.208: the inputs, OPc and the outputs of the functions, as it prints them.
#[derive(Drop)]
struct Set {
    k: u128,
    op: u128,
    opc: u128,
    rand: u128,
    sqn: [u8; 6],
    amf: [u8; 2],
    f1: u64,
    f1_star: u64,
    f2: u64,
    f3: u128,
    f4: u128,
    f5: [u8; 6],
    f5_star: [u8; 6],
}

// TS 35.208, test sets 1 to 6.
const SETS: [Set; 6] = [
    Set {
        k: 0x465b5ce8b199b49faa5f0a2ee238a6bc,
        op: 0xcdc202d5123e20f62b6d676ac72cb318,
        opc: 0xcd63cb71954a9f4e48a5994e37a02baf,
        rand: 0x23553cbe9637a89d218ae64dae47bf35,
        sqn: [0xff, 0x9b, 0xb4, 0xd0, 0xb6, 0x07],
        amf: [0xb9, 0xb9],
        f1: 0x4a9ffac354dfafb3,
        f1_star: 0x01cfaf9ec4e871e9,
        f2: 0xa54211d5e3ba50bf,
        f3: 0xb40ba9a3c58b2a05bbf0d987b21bf8cb,
        f4: 0xf769bcd751044604127672711c6d3441,
        f5: [0xaa, 0x68, 0x9c, 0x64, 0x83, 0x70],
        f5_star: [0x45, 0x1e, 0x8b, 0xec, 0xa4, 0x3b],
    },
    Set {
        k: 0x0396eb317b6d1c36f19c1c84cd6ffd16,
        op: 0xff53bade17df5d4e793073ce9d7579fa,
        opc: 0x53c15671c60a4b731c55b4a441c0bde2,
        rand: 0xc00d603103dcee52c4478119494202e8,
        sqn: [0xfd, 0x8e, 0xef, 0x40, 0xdf, 0x7d],
        amf: [0xaf, 0x17],
        f1: 0x5df5b31807e258b0,
        f1_star: 0xa8c016e51ef4a343,
        f2: 0xd3a628ed988620f0,
        f3: 0x58c433ff7a7082acd424220f2b67c556,
        f4: 0x21a8c1f929702adb3e738488b9f5c5da,
        f5: [0xc4, 0x77, 0x83, 0x99, 0x5f, 0x72],
        f5_star: [0x30, 0xf1, 0x19, 0x70, 0x61, 0xc1],
    },
    Set {
        k: 0xfec86ba6eb707ed08905757b1bb44b8f,
        op: 0xdbc59adcb6f9a0ef735477b7fadf8374,
        opc: 0x1006020f0a478bf6b699f15c062e42b3,
        rand: 0x9f7c8d021accf4db213ccff0c7f71a6a,
        sqn: [0x9d, 0x02, 0x77, 0x59, 0x5f, 0xfc],
        amf: [0x72, 0x5c],
        f1: 0x9cabc3e99baf7281,
        f1_star: 0x95814ba2b3044324,
        f2: 0x8011c48c0c214ed2,
        f3: 0x5dbdbb2954e8f3cde665b046179a5098,
        f4: 0x59a92d3b476a0443487055cf88b2307b,
        f5: [0x33, 0x48, 0x4d, 0xc2, 0x13, 0x6b],
        f5_star: [0xde, 0xac, 0xdd, 0x84, 0x8c, 0xc6],
    },
    Set {
        k: 0x9e5944aea94b81165c82fbf9f32db751,
        op: 0x223014c5806694c007ca1eeef57f004f,
        opc: 0xa64a507ae1a2a98bb88eb4210135dc87,
        rand: 0xce83dbc54ac0274a157c17f80d017bd6,
        sqn: [0x0b, 0x60, 0x4a, 0x81, 0xec, 0xa8],
        amf: [0x9e, 0x09],
        f1: 0x74a58220cba84c49,
        f1_star: 0xac2cc74a96871837,
        f2: 0xf365cd683cd92e96,
        f3: 0xe203edb3971574f5a94b0d61b816345d,
        f4: 0x0c4524adeac041c4dd830d20854fc46b,
        f5: [0xf0, 0xb9, 0xc0, 0x8a, 0xd0, 0x2e],
        f5_star: [0x60, 0x85, 0xa8, 0x6c, 0x6f, 0x63],
    },
    Set {
        k: 0x4ab1deb05ca6ceb051fc98e77d026a84,
        op: 0x2d16c5cd1fdf6b22383584e3bef2a8d8,
        opc: 0xdcf07cbd51855290b92a07a9891e523e,
        rand: 0x74b0cd6031a1c8339b2b6ce2b8c4a186,
        sqn: [0xe8, 0x80, 0xa1, 0xb5, 0x80, 0xb6],
        amf: [0x9f, 0x07],
        f1: 0x49e785dd12626ef2,
        f1_star: 0x9e85790336bb3fa2,
        f2: 0x5860fc1bce351e7e,
        f3: 0x7657766b373d1c2138f307e3de9242f9,
        f4: 0x1c42e960d89b8fa99f2744e0708ccb53,
        f5: [0x31, 0xe1, 0x1a, 0x60, 0x91, 0x18],
        f5_star: [0xfe, 0x25, 0x55, 0xe5, 0x4a, 0xa9],
    },
    Set {
        k: 0x6c38a116ac280c454f59332ee35c8c4f,
        op: 0x1ba00a1a7c6700ac8c3ff3e96ad08725,
        opc: 0x3803ef5363b947c6aaa225e58fae3934,
        rand: 0xee6466bc96202c5a557abbeff8babf63,
        sqn: [0x41, 0x4b, 0x98, 0x22, 0x21, 0x81],
        amf: [0x44, 0x64],
        f1: 0x078adfb488241a57,
        f1_star: 0x80246b8d0186bcf1,
        f2: 0x16c8233f05a0ac28,
        f3: 0x3f8c7587fe8e4b233af676aede30ba3b,
        f4: 0xa7466cc1e6b2a1337d49d3b66e95d7b4,
        f5: [0x45, 0xb0, 0xf6, 0x9a, 0xb0, 0x6c],
        f5_star: [0x1f, 0x53, 0xcd, 0x2b, 0x11, 0x13],
    },
];

/// K, and OPc by the function that makes it.
fn secret_of(set: &Set) -> Secret {
    let k = set.k.to_be_bytes();
    Secret {
        k,
        opc: opc_of(k, set.op.to_be_bytes()),
    }
}

/// Whether OPc, f1* and f5* have the values of a test set.
fn has_stars(set: &Set) -> bool {
    let s = secret_of(set);
    let rand = set.rand.to_be_bytes();
    let mac_s = f1_star(&s, rand, set.sqn, set.amf);
    let expected = (set.opc.to_be_bytes(), set.f1_star.to_be_bytes());
    (s.opc, mac_s) == expected && f5_star(&s, rand) == set.f5_star
}

/// Whether f1 to f5 have the values of a test set, each alone and all at once.
fn has_parts(set: &Set) -> bool {
    let s = secret_of(set);
    let rand = set.rand.to_be_bytes();
    let four = Four {
        res: set.f2.to_be_bytes(),
        ck: set.f3.to_be_bytes(),
        ik: set.f4.to_be_bytes(),
        ak: set.f5,
    };
    let expected = (set.f1.to_be_bytes(), four);
    let alone = (f1(&s, rand, set.sqn, set.amf), f2345(&s, rand));
    let at_once = Milenage::new(&s).f12345(rand, set.sqn, set.amf);
    alone == expected && at_once == expected
}

#[test]
fn each_function_gives_the_values_of_the_test_sets(rt: HostRuntime) {
    for place in 0..SETS.len() {
        let set = &SETS[place];
        assert!(rt; has_stars(set), "OPc, f1* and f5* at {place}");
        assert!(rt; has_parts(set), "f1 to f5 at {place}");
    }
}

// K, OPc, RAND, SQN_MS and AUTS. The first by the equations of TS 35.206 over the AES of Python's `cryptography` 48; the
// second from the test of libosmocore, tests/auth/milenage_test.c, and by the same equations.
#[test]
fn auts_masks_sqn_ms_and_authenticates_it(rt: HostRuntime) {
    let cases: [(u128, u128, u128, [u8; 6], &[u8]); 2] = [
        (
            0x000102030405060708090a0b0c0d0e0f,
            0x000102030405060708090a0b0c0d0e0f,
            0x00000000000000000000000000000000,
            [0, 0, 0, 0, 0, 0x1f],
            b"8711a0ec9e1637df17f80b384ee4",
        ),
        (
            0xeb215756028d60e3275e613320aec880,
            0xfb2a3d1b360f599abab99db8669f8308,
            0x39fa2f4e3d523d8619a73b4f65c3e14d,
            [0, 0, 0, 0, 0, 0x17],
            b"979498b1f72d3e28c59fa2e72f9c",
        ),
    ];
    for (k, opc, rand, sqn_ms, digits) in cases {
        let s = Secret {
            k: k.to_be_bytes(),
            opc: opc.to_be_bytes(),
        };
        let auts: [u8; 14] = octets(&rt, digits);
        let found = make_auts(&s, rand.to_be_bytes(), sqn_ms);
        assert!(rt; found == auts, "at {digits:?}");
    }
}
