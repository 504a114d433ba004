//! EPS and 5G keys by other implementations.

ghost use Rattle.std.specs.Prelude.{◌≤◌, length};

use auc_5g::{DeviceKeys, HomeKeys, Judged, device, eps_key, home, judge, standard_hxres_star};
use auc_vector::Vector;

// TS 35.208, test set 1: RAND, AUTN of SQN masked by f5, AMF and f1, and f2 to f5; SQN.
const RAND: u128 = 0x23553cbe9637a89d218ae64dae47bf35;

const AUTN: u128 = 0x55f328b43577b9b94a9ffac354dfafb3;

const RES: u64 = 0xa54211d5e3ba50bf;

const CK: u128 = 0xb40ba9a3c58b2a05bbf0d987b21bf8cb;

const IK: u128 = 0xf769bcd751044604127672711c6d3441;

const AK: [u8; 6] = [0xaa, 0x68, 0x9c, 0x64, 0x83, 0x70];

const SQN: [u8; 6] = [0xff, 0x9b, 0xb4, 0xd0, 0xb6, 0x07];

const NAME: &[u8] = b"5G:mnc001.mcc001.3gppnetwork.org";

fn genuine() -> Vector {
    Vector {
        n: 8782631830960,
        rand: RAND.to_be_bytes(),
        autn: AUTN.to_be_bytes(),
        xres: RES.to_be_bytes(),
        ck: CK.to_be_bytes(),
        ik: IK.to_be_bytes(),
    }
}

fn at_home(name: &[u8]) -> HomeKeys
    requires some { 1 ≤ length name.now }
    requires short { length name.now ≤ 255 }
{
    home(&genuine(), name)
}

/// The device of a USIM that accepted the vector.
fn at_device(name: &[u8]) -> DeviceKeys
    requires some { 1 ≤ length name.now }
    requires short { length name.now ≤ 255 }
{
    let v = genuine();
    device(v.xres, v.ck, v.ik, AK, SQN, v.rand, name)
}

/// The bytes of two numbers.
fn bytes(high: u128, low: u128) -> [u8; 32] {
    let mut both = [0; 32];
    both[..16].copy_from_slice(&high.to_be_bytes());
    both[16..].copy_from_slice(&low.to_be_bytes());
    both
}

// The standards print no values. K_ASME by `osmo_kdf_kasme` of libosmogsm (Debian's 1.7.0-3), from the CK, IK, SQN and AK above
// and the SN id; Python's `hmac` gives the same.
#[test]
fn k_asme_is_that_of_another_implementation(rt: HostRuntime) {
    let cases = [
        (
            [0x00, 0xf1, 0x10],
            bytes(
                0x48579af8781c742d5120e6ed8ccac131,
                0x93f38c53ab7aa69396f49ca6e1b0562d,
            ),
        ),
        (
            [0x62, 0xf2, 0x24],
            bytes(
                0x56c058f052536c842d68955445d6852d,
                0x4e924a312ba4fea6c73f88d1b0503a40,
            ),
        ),
    ];
    for (snid, k_asme) in cases {
        assert!(rt; eps_key(&genuine(), snid) == k_asme, "at {snid:?}");
    }
}

// Python's `hmac` and `hashlib`, by the formulas of TS 33.501 Annexes A.2 and A.4 to A.6: of each key, FC, and each
// parameter with its length in 2 bytes.
#[test]
fn values_of_5g_are_those_of_a_second_implementation(rt: HostRuntime) {
    let found = at_home(NAME);
    let expected = HomeKeys {
        rand: RAND.to_be_bytes(),
        autn: AUTN.to_be_bytes(),
        xres_star: 0xf236a7417272bfb2d66d4d670733b527_u128.to_be_bytes(),
        hxres_star: 0x21272c649069a2b962f879bfeb10d071_u128.to_be_bytes(),
        k_ausf: bytes(
            0x474698caf02cc715db2ec0726510cfee,
            0x6caa5bb1a649cb01224f2e23af94de1b,
        ),
        k_seaf: bytes(
            0x8dff166c02edd5b177950d50cdd3fe93,
            0x756cc53951856a95cb5ee9aabd35e220,
        ),
    };
    assert!(rt; found == expected);
    let standard = standard_hxres_star(found.rand, found.xres_star);
    assert!(rt; standard == 0x20a71900b01776bfd773e8c15a825446_u128.to_be_bytes());
}

// Python, as above: the shortest name, `5`, and the longest, 255 times `a`.
#[test]
fn shortest_and_longest_name_give_the_values_of_a_second_implementation(rt: HostRuntime) {
    let short = DeviceKeys {
        res_star: 0x4911a4bae9f08daed7749a96b7ac868e_u128.to_be_bytes(),
        k_ausf: bytes(
            0x2cff5de8f7f6bc6a4c56ea9800764161,
            0x1ae5119ca19f3aef4c390ac045029c1b,
        ),
        k_seaf: bytes(
            0x16171648d0f04fce14d68e26699f43b1,
            0xbe9eb2103a82f385e05107726b0bd48f,
        ),
    };
    let long = DeviceKeys {
        res_star: 0xbe61302bd788cf58f54ff99b62fab375_u128.to_be_bytes(),
        k_ausf: bytes(
            0xb0429406c7000b1a2d9cd72687875ff2,
            0xdd51b293cc5eb42b3126d45e34427cf4,
        ),
        k_seaf: bytes(
            0xb8372ce096dba9fa7524c995e8143f41,
            0x11dfac75d77b02393c845f5520c3c8a6,
        ),
    };
    assert!(rt; at_device(b"5") == short);
    assert!(rt; at_device(&[b'a'; 255]) == long);
}

// By hand: the response of the vector's own device, that of a device that was told another name, and an XRES* of another
// response beside the HXRES* of this one.
#[test]
fn response_is_confirmed_or_refused_by_each_network(rt: HostRuntime) {
    let h = at_home(NAME);
    let d = at_device(NAME);
    let other = at_device(b"5G:mnc002.mcc001.3gppnetwork.org");
    let xres_star = other.res_star;
    let expects_another = HomeKeys { xres_star, ..h };
    assert!(rt; judge(&h, d.res_star) == Judged::Confirmed);
    assert!(rt; judge(&h, other.res_star) == Judged::ServingRefused);
    assert!(rt; judge(&expects_another, d.res_star) == Judged::HomeRefused);
}
