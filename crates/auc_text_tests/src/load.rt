//! The words of a load.

use auc_load::{LoadWords, load_words};
use auc_memory::{Items, Octets};
use std::alloc::Global;
use std::process::Abort;

// What words say.
fn said(rt: &impl Abort, alloc: Global, all: &[&[u8]]) -> Option<LoadWords> {
    let mut words = Items::new(alloc);
    for bytes in all {
        let word = Octets::copied_from(alloc, bytes).expect(rt, "memory");
        words.push(word).expect(rt, "memory");
    }
    load_words(words.as_slice())
}

const GREATEST: LoadWords = LoadWords {
    key: u64::MAX,
    subscribers: 65536,
    jobs: 200000,
    workers: 64,
};

// Five words, and the numbers that they say.
type LoadCase = ([&'static [u8]; 5], Option<LoadWords>);

// By hand.
const CASES: [LoadCase; 8] = [
    (
        [
            b"load",
            b"18446744073709551615",
            b"065536",
            b"200000",
            b"64",
        ],
        Some(GREATEST),
    ),
    ([b"Load", b"0", b"1", b"1", b"1"], None),
    ([b"load", b"18446744073709551616", b"1", b"1", b"1"], None),
    ([b"load", b"0", b"0", b"1", b"1"], None),
    ([b"load", b"0", b"65537", b"1", b"1"], None),
    ([b"load", b"0", b"1", b"200001", b"1"], None),
    ([b"load", b"0", b"1", b"1", b"65"], None),
    ([b"load", b"0x1", b"1", b"1", b"1"], None),
];

// Whether the words of a case say what they should.
fn is_right(rt: &impl Abort, alloc: Global, case: &LoadCase) -> bool {
    let (words, numbers) = case;
    said(rt, alloc, words) == *numbers
}

#[test]
fn words_of_a_load_are_four_numbers_in_their_ranges(rt: HostRuntime) {
    for place in 0..CASES.len() {
        assert!(rt; is_right(&rt, rt.alloc(), &CASES[place]), "at {place}");
    }
}
