//! The words and the lines of `vector` and `auts`.

use auc_forms::{algorithm_lines, algorithm_words};
use auc_memory::{Items, Octets};
use auc_text::{next_word, word_count};
use std::alloc::Global;
use std::process::Abort;

// The words of a text.
fn words_of(rt: &impl Abort, alloc: Global, text: &[u8]) -> Items<Octets> {
    let mut words = Items::new(alloc);
    let mut rest = text;
    for _ in 0..word_count(text) {
        if let Some((word, behind)) = next_word(rest) {
            let copy = Octets::copied_from(alloc, word).expect(rt, "memory");
            words.push(copy).expect(rt, "memory");
            rest = behind;
        }
    }
    words
}

// The lines that the words of a text get, or none if they have no form of `vector` or `auts`.
fn printed(rt: &impl Abort, alloc: Global, text: &[u8]) -> Option<Octets> {
    let words = words_of(rt, alloc, text);
    let form = algorithm_words(words.as_slice())?;
    Some(algorithm_lines(alloc, &form).expect(rt, "memory"))
}

// Whether the words of a text get these lines.
fn are_printed(rt: &impl Abort, alloc: Global, text: &[u8], lines: &[u8]) -> bool {
    match printed(rt, alloc, text) {
        Some(found) => found.as_slice() == lines,
        None => false,
    }
}

// TS 35.208, test sets 1 and 2. `osmo-auc-gen` of libosmocore 1.7.0 prints the same AUTN. AUTS by the equations of TS 35.206 over
// the AES of Python's `cryptography` 48: `osmo-auc-gen` accepts it and reads this SQN_MS from it. The last AUTS is that of the
// test of libosmocore, tests/auth/milenage_test.c.
const FORMS: [(&[u8], &[u8]); 6] = [
    (
        b"vector 465b5ce8b199b49faa5f0a2ee238a6bc cd63cb71954a9f4e48a5994e37a02baf 23553cbe9637a89d218ae64dae47bf35 ff9bb4d0b607 b9b9",
        b"f1 4a9ffac354dfafb3
f1* 01cfaf9ec4e871e9
f2 a54211d5e3ba50bf
f3 b40ba9a3c58b2a05bbf0d987b21bf8cb
f4 f769bcd751044604127672711c6d3441
f5 aa689c648370
f5* 451e8beca43b
",
    ),
    (
        b"vector 465b5ce8b199b49faa5f0a2ee238a6bc cd63cb71954a9f4e48a5994e37a02baf 23553cbe9637a89d218ae64dae47bf35 ff9bb4d0b607 b9b9 autn",
        b"f1 4a9ffac354dfafb3
f1* 01cfaf9ec4e871e9
f2 a54211d5e3ba50bf
f3 b40ba9a3c58b2a05bbf0d987b21bf8cb
f4 f769bcd751044604127672711c6d3441
f5 aa689c648370
f5* 451e8beca43b
autn 55f328b43577b9b94a9ffac354dfafb3
",
    ),
    (
        b"vector 0396EB317B6D1C36F19C1C84CD6FFD16 53c15671c60a4b731c55b4a441c0bde2 c00d603103dcee52c4478119494202E8 FD8EEF40DF7D Af17 autn",
        b"f1 5df5b31807e258b0
f1* a8c016e51ef4a343
f2 d3a628ed988620f0
f3 58c433ff7a7082acd424220f2b67c556
f4 21a8c1f929702adb3e738488b9f5c5da
f5 c47783995f72
f5* 30f1197061c1
autn 39f96cd9800faf175df5b31807e258b0
",
    ),
    (
        b"auts 465b5ce8b199b49faa5f0a2ee238a6bc cd63cb71954a9f4e48a5994e37a02baf 23553cbe9637a89d218ae64dae47bf35 ff9bb4d0b607",
        b"auts ba853f3c123ccf44e93596e355c6\n",
    ),
    (
        b"auts 0396EB317B6D1C36F19C1C84CD6FFD16 53c15671c60a4b731c55b4a441c0bde2 c00d603103dcee52c4478119494202E8 FD8EEF40DF7D",
        b"auts cd7ff630bebc1fb5eba74924b0e0\n",
    ),
    (
        b"auts eb215756028d60e3275e613320aec880 fb2a3d1b360f599abab99db8669f8308 39fa2f4e3d523d8619a73b4f65c3e14d 000000000017",
        b"auts 979498b1f72d3e28c59fa2e72f9c\n",
    ),
];

#[test]
fn each_form_has_the_lines_of_the_test_sets(rt: HostRuntime) {
    for (words, lines) in FORMS {
        let is_right = are_printed(&rt, rt.alloc(), words, lines);
        assert!(rt; is_right, "at {words:?}");
    }
}

// By hand: other words, another number of them, and another number of digits.
const OTHER_WORDS: [&[u8]; 14] = [
    b"",
    b"vector",
    b"vector 465b5ce8b199b49faa5f0a2ee238a6bc cd63cb71954a9f4e48a5994e37a02baf 23553cbe9637a89d218ae64dae47bf35 ff9bb4d0b607",
    b"Vector 465b5ce8b199b49faa5f0a2ee238a6bc cd63cb71954a9f4e48a5994e37a02baf 23553cbe9637a89d218ae64dae47bf35 ff9bb4d0b607 b9b9",
    b"vector 465b5ce8b199b49faa5f0a2ee238a6bc cd63cb71954a9f4e48a5994e37a02baf 23553cbe9637a89d218ae64dae47bf35 ff9bb4d0b607 b9b9 AUTN",
    b"vector 465b5ce8b199b49faa5f0a2ee238a6bc cd63cb71954a9f4e48a5994e37a02baf 23553cbe9637a89d218ae64dae47bf35 ff9bb4d0b607 b9b9 auts",
    b"vector 465b5ce8b199b49faa5f0a2ee238a6bc cd63cb71954a9f4e48a5994e37a02baf 23553cbe9637a89d218ae64dae47bf35 ff9bb4d0b607 b9b9 autn autn",
    b"vector 465b5ce8b199b49faa5f0a2ee238a6bc cd63cb71954a9f4e48a5994e37a02baf 23553cbe9637a89d218ae64dae47bf35 ff9bb4d0b607 b9b autn",
    b"auts 465b5ce8b199b49faa5f0a2ee238a6bc cd63cb71954a9f4e48a5994e37a02baf 23553cbe9637a89d218ae64dae47bf35",
    b"auts 465b5ce8b199b49faa5f0a2ee238a6bc cd63cb71954a9f4e48a5994e37a02baf 23553cbe9637a89d218ae64dae47bf35 ff9bb4d0b607 b9b9",
    b"autn 465b5ce8b199b49faa5f0a2ee238a6bc cd63cb71954a9f4e48a5994e37a02baf 23553cbe9637a89d218ae64dae47bf35 ff9bb4d0b607",
    b"auts 465b5ce8b199b49faa5f0a2ee238a6bc cd63cb71954a9f4e48a5994e37a02baf 23553cbe9637a89d218ae64dae47bf35 ff9bb4d0b6",
    b"auts 465b5ce8b199b49faa5f0a2ee238a6bc cd63cb71954a9f4e48a5994e37a02baf 23553cbe9637a89d218ae64dae47bf35 ff9bb4d0b60700",
    b"auts 465b5ce8b199b49faa5f0a2ee238a6bc cd63cb71954a9f4e48a5994e37a02baf 23553cbe9637a89d218ae64dae47bf3g ff9bb4d0b607",
];

#[test]
fn other_words_have_no_lines(rt: HostRuntime) {
    for words in OTHER_WORDS {
        let is_none = printed(&rt, rt.alloc(), words).is_none();
        assert!(rt; is_none, "at {words:?}");
    }
}
