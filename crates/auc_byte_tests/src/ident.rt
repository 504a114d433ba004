//! Permanent identities, and the names of a server by another implementation.

use auc_hmac::Method;
use auc_ident::{Name, NameKind, Names, Ordinals, Spent, permanent, permanent_in, username};
use auc_memory::Imsi;

// RFC 4187 §4.1.1.6 and RFC 9048 §5.1, by hand: the leading digit and the IMSI.
#[test]
fn permanent_identities_begin_with_the_digit_of_the_method(rt: HostRuntime) {
    let cases: [(Method, &[u8], &[u8]); 4] = [
        (Method::Aka, b"001010000000001", b"0001010000000001"),
        (Method::Prime, b"001010000000001", b"6001010000000001"),
        (Method::Aka, b"000000", b"0000000"),
        (Method::Prime, b"999999999999999", b"6999999999999999"),
    ];
    for (method, digits, text) in cases {
        match Imsi::read(digits) {
            Some(imsi) => assert!(rt; permanent(method, imsi).as_slice() == text),
            None => assert!(rt; false),
        }
    }
}

// By hand: the leading digit, the IMSI and the realm.
#[test]
fn identities_are_read_back_without_their_realm(rt: HostRuntime) {
    let cases: [(Method, &[u8], Option<Imsi>); 6] = [
        (
            Method::Aka,
            b"0001010000000001",
            Imsi::read(b"001010000000001"),
        ),
        (
            Method::Aka,
            b"0001010000000001@a@b",
            Imsi::read(b"001010000000001"),
        ),
        (Method::Prime, b"0001010000000001", None),
        (Method::Prime, b"6000000@wlan", Imsi::read(b"000000")),
        (Method::Aka, b"000101000000000a", None),
        (Method::Aka, b"@0001010000000001", None),
    ];
    for (method, text, imsi) in cases {
        assert!(rt; permanent_in(method, username(text)) == imsi);
    }
}

// By hand, RFC 4187 §4.1.1.7 and §4.1.1.8: a name is the text before the realm.
#[test]
fn names_of_1_to_255_bytes_are_kept(rt: HostRuntime) {
    let long = [b'n'; 256];
    let cases: [(&[u8], &[u8]); 7] = [
        (b"", b""),
        (b"@home", b""),
        (b"n", b"n"),
        (b"2name@home@there", b"2name"),
        (&long[..33], &long[..33]),
        (&long[..255], &long[..255]),
        (&long, b""),
    ];
    for (text, name) in cases {
        match Name::kept(text) {
            None => assert!(rt; name.is_empty()),
            Some(kept) => assert!(rt; kept.as_slice() == name),
        }
    }
}

/// The names under the key of the 32 bytes from 0 to 31.
fn names() -> Names {
    Names::new([
        0, 1, 2, 3, 4, 5, 6, 7, 8, 9, 10, 11, 12, 13, 14, 15, 16, 17, 18, 19, 20, 21, 22, 23, 24,
        25, 26, 27, 28, 29, 30, 31,
    ])
}

// ChaCha20 and AES of Python's `cryptography` 48: kind, method, subscriber, ordinal, name.
#[test]
fn names_are_those_of_another_implementation(rt: HostRuntime) {
    let cases: [(NameKind, Method, u32, u64, &[u8]); 4] = [
        (
            NameKind::Pseudonym,
            Method::Aka,
            0,
            1,
            b"243a167ce195115f3be9d951fd283f3bf",
        ),
        (
            NameKind::Reauth,
            Method::Aka,
            0,
            1,
            b"4711f639335d967297fec05d263d0e71f",
        ),
        (
            NameKind::Pseudonym,
            Method::Prime,
            65535,
            2,
            b"7c4b70bda66a6b4ed73910dbf8239932d",
        ),
        (
            NameKind::Reauth,
            Method::Prime,
            4294967295,
            281474976710655,
            b"831daa313ea50fc852d5d71600a9cacf0",
        ),
    ];
    let names = names();
    for (kind, method, sub, ordinal, text) in cases {
        assert!(rt; names.text(kind, method, sub, ordinal).as_slice() == text);
        assert!(rt; names.resolve(kind, method, text) == Some((sub, ordinal)));
    }
}

// By hand: a name with a realm, and texts beside the first name of the table above.
#[test]
fn only_names_are_resolved(rt: HostRuntime) {
    let cases: [(&[u8], Option<(u32, u64)>); 6] = [
        (b"243a167ce195115f3be9d951fd283f3bf@wlan", Some((0, 1))),
        (b"243A167ce195115f3be9d951fd283f3bf", None),
        (b"443a167ce195115f3be9d951fd283f3bf", None),
        (b"243a167ce195115f3be9d951fd283f3be", None),
        (b"243a167ce195115f3be9d951fd283f3b", None),
        (b"", None),
    ];
    let names = names();
    for (text, found) in cases {
        assert!(rt; names.resolve(NameKind::Pseudonym, Method::Aka, text) == found);
    }
}

// By hand: the first ordinal, the last, and none after it.
#[test]
fn each_ordinal_is_given_once(rt: HostRuntime) {
    let mut ordinals = Ordinals::at(0);
    assert!(rt; [ordinals.next(), ordinals.next()] == [Ok(1), Ok(2)]);
    let mut last = Ordinals::at(281474976710654);
    assert!(rt;
        [last.next(), last.next(), last.next()] == [Ok(281474976710655), Err(Spent), Err(Spent)]
    );
}
