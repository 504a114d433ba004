//! Tables of texts, and the lines, words, numbers and octets in them.

use auc_text::{are_digits, joined, next_line, next_word, read_decimal, read_octets, word_count};

// By hand.
#[test]
fn the_first_line_ends_with_lf_or_crlf_or_the_text(rt: HostRuntime) {
    let cases = [
        (b"".as_slice(), b"".as_slice(), None),
        (b"a b", b"a b", None),
        (b"a\n", b"a", Some(b"".as_slice())),
        (b"a\nb\nc", b"a", Some(b"b\nc".as_slice())),
        (b"a\r\nb", b"a", Some(b"b".as_slice())),
        (b"\r\r\n\n", b"\r", Some(b"\n".as_slice())),
        (b"\n\r\n", b"", Some(b"\r\n".as_slice())),
        (b"a\rb", b"a\rb", None),
        (b"a\r", b"a\r", None),
        // CR alone, VT, FF, NEL (0x85) and NUL end no line.
        (
            b"\r\x0b\x0c\x85\0\nb",
            b"\r\x0b\x0c\x85\0",
            Some(b"b".as_slice()),
        ),
    ];
    for (text, line, behind) in cases {
        assert!(rt; next_line(text) == (line, behind), "at {text:?}");
    }
}

// By hand.
#[test]
fn the_first_word_ends_at_a_blank(rt: HostRuntime) {
    let cases = [
        (b"".as_slice(), None),
        (b" \t ", None),
        (b"job", Some((b"job".as_slice(), b"".as_slice()))),
        (b"job ", Some((b"job".as_slice(), b" ".as_slice()))),
        (
            b" \tdraw  0 1",
            Some((b"draw".as_slice(), b"  0 1".as_slice())),
        ),
        (b"a\tb", Some((b"a".as_slice(), b"\tb".as_slice()))),
        // CR, VT, FF, NUL and 0xa0 are no blanks.
        (
            b"\ra\x0bb\x0cc\0\xa0 \n",
            Some((b"\ra\x0bb\x0cc\0\xa0".as_slice(), b" \n".as_slice())),
        ),
        (b"\x0b", Some((b"\x0b".as_slice(), b"".as_slice()))),
    ];
    for (text, word) in cases {
        assert!(rt; next_word(text) == word, "at {text:?}");
    }
}

// By hand.
#[test]
fn words_are_counted_and_joined(rt: HostRuntime) {
    let cases = [
        (b"".as_slice(), 0, b"".as_slice()),
        (b"\t \t", 0, b""),
        (b"give", 1, b"give"),
        (b" give\t0  1\t", 3, b"give 0 1"),
        (b"a\x0bb \x0c \r", 3, b"a\x0bb \x0c \r"),
    ];
    for (text, count, line) in cases {
        assert!(rt; word_count(text) == count, "at {text:?}");
        let words = joined(rt.alloc(), text).expect(&rt, "memory");
        assert!(rt; words.as_slice() == line, "at {text:?}");
    }
}

// By hand.
#[test]
fn digits_are_those_from_0_to_9(rt: HostRuntime) {
    let cases = [
        (b"".as_slice(), true),
        (b"0123456789", true),
        (b"1/", false),
        (b":1", false),
        (b"+1", false),
        (b"1 ", false),
    ];
    for (text, digits) in cases {
        assert!(rt; are_digits(text) == digits, "at {text:?}");
    }
}

// By hand.
#[test]
fn a_number_has_so_many_digits_and_is_not_too_great(rt: HostRuntime) {
    let cases = [
        (b"".as_slice(), None),
        (b"0".as_slice(), Some(0)),
        (b"1000".as_slice(), Some(1000)),
        (b"1001".as_slice(), None),
        (b"00000000000000001000".as_slice(), Some(1000)),
        (b"000000000000000001000".as_slice(), None),
        // 2^64 + 1 and the greatest number of 20 digits
        (b"18446744073709551617".as_slice(), None),
        (b"99999999999999999999".as_slice(), None),
        (b"1 ".as_slice(), None),
        (b"1\x0b".as_slice(), None),
        (b"-1".as_slice(), None),
    ];
    for (text, number) in cases {
        assert!(rt; read_decimal(text, 20, 1000) == number, "at {text:?}");
    }
}

// By hand.
#[test]
fn octets_are_twice_as_many_digits(rt: HostRuntime) {
    let cases = [
        (b"00fF".as_slice(), Some([0x00, 0xff])),
        (b"B9b9", Some([0xb9, 0xb9])),
        (b"", None),
        (b"00f", None),
        (b"00ff0", None),
        (b"00ff00", None),
        (b"0x00", None),
        (b"00 f", None),
    ];
    for (text, octets) in cases {
        assert!(rt; read_octets::<2>(text) == octets, "at {text:?}");
    }
    assert!(rt; read_octets::<6>(b"ff9bb4d0b607") == Some([0xff, 0x9b, 0xb4, 0xd0, 0xb6, 0x07]));
    assert!(rt; read_octets::<0>(b"") == Some([]));
}
