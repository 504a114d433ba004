//! Numbers and their SQNs by the standard, and the index array by hand.

use auc_sqn::{MAX_SEQ, SqnArray, Verdict, split, sqn_of, top};

// TS 33.102 Annex C.1.1.1: SEQ and IND side by side, of 43 bits and 5; IND is SEQ modulo 32.
#[test]
fn sqn_of_spells_seq_and_ind_and_split_reads_them(rt: HostRuntime) {
    let cases = [
        (1, [0, 0, 0, 0, 0x00, 0x21], 1),
        (2, [0, 0, 0, 0, 0x00, 0x42], 2),
        (32, [0, 0, 0, 0, 0x04, 0x00], 0),
        (33, [0, 0, 0, 0, 0x04, 0x21], 1),
        (500, [0, 0, 0, 0, 0x3e, 0x94], 20),
        (MAX_SEQ, [0xff, 0xff, 0xff, 0xff, 0xff, 0xff], 31),
    ];
    for (number, sqn, ind) in cases {
        assert!(rt;
            (sqn_of(number, 5), split(sqn, 5)) == (sqn, (number, ind)),
            "at {number}"
        );
    }
}

// By hand, TS 33.102 Annex C.2.1: an untouched array has entry 0 for each IND, so that SEQ 0 is old, 2^28 is within
// reach and 2^28 + 1 is far. SQN, SEQ, IND, the verdict.
#[test]
fn untouched_array_refuses_seq_0_and_accepts_up_to_its_reach(rt: HostRuntime) {
    let cases = [
        ([0, 0, 0, 0, 0x00, 0x00], 0, 0, Verdict::Old(0)),
        ([0, 0, 0, 0, 0x00, 0x1f], 0, 31, Verdict::Old(0)),
        ([0, 0, 0, 0, 0x00, 0x20], 1, 0, Verdict::Fresh),
        ([0, 0, 0, 0, 0x00, 0x3f], 1, 31, Verdict::Fresh),
        ([0, 2, 0, 0, 0x00, 0x00], 268435456, 0, Verdict::Fresh),
        ([0, 2, 0, 0, 0x00, 0x20], 268435457, 0, Verdict::Far(0)),
        ([255, 255, 255, 255, 255, 0xe0], MAX_SEQ, 0, Verdict::Far(0)),
        ([255, 255, 255, 255, 255, 255], MAX_SEQ, 31, Verdict::Far(0)),
    ];
    for (sqn, seq, ind, verdict) in cases {
        let mut array = SqnArray::opening(0, 5, None);
        assert!(rt;
            (split(sqn, 5), array.check(sqn)) == ((seq, ind), verdict),
            "at {seq} and {ind}"
        );
    }
    let mut spent = SqnArray::opening(MAX_SEQ, 5, None);
    assert!(rt; spent.highest() == [255; 6]);
    assert!(rt; spent.check([255; 6]) == Verdict::Old(MAX_SEQ));
}

const VERDICTS: [(u64, Verdict); 9] = [
    (33, Verdict::Fresh),
    (33, Verdict::Old(33)),
    (2, Verdict::Fresh),
    (32, Verdict::Fresh),
    (1, Verdict::Old(33)),
    (33 + 268435457, Verdict::Far(33)),
    (33 + 268435456, Verdict::Fresh),
    (34, Verdict::Fresh),
    (2, Verdict::Old(34)),
];

// By hand, TS 33.102 Annex C.2.1: 1 comes 32 places before 33 and shares its IND, and 2 to 32 have INDs of
// their own; the last SEQ that isn't far is 2^28 above the greatest.
#[test]
fn each_verdict_comes_where_it_should(rt: HostRuntime) {
    let mut array = SqnArray::opening(0, 5, None);
    assert!(rt; array.highest() == [0, 0, 0, 0, 0, 0]);
    for (number, verdict) in VERDICTS {
        assert!(rt; array.check(sqn_of(number, 5)) == verdict, "at {number}");
    }
    assert!(rt; array.highest() == sqn_of(33 + 268435456, 5));
}

// By hand: the numbers 1 to 500 count as accepted, and 469 to 500 are the last of them with
// their INDs.
#[test]
fn opening_counts_the_numbers_up_to_it(rt: HostRuntime) {
    let mut array = SqnArray::opening(500, 5, None);
    assert!(rt; array.highest() == [0, 0, 0, 0, 0x3e, 0x94]);
    for (number, verdict) in [
        (500, Verdict::Old(500)),
        (469, Verdict::Old(469)),
        (468, Verdict::Old(500)),
        (1, Verdict::Old(481)),
        (501, Verdict::Fresh),
        (469, Verdict::Old(501)),
    ] {
        assert!(rt; array.check(sqn_of(number, 5)) == verdict, "at {number}");
    }
}

// TS 33.102 Annex C.1.1.1 by hand: SEQ has the bits of 48 that IND leaves, and IND is SEQ modulo 2 to the index length.
// The index length, the number, its SQN and its IND.
#[test]
fn ind_has_0_to_6_bits(rt: HostRuntime) {
    let cases = [
        (0, 2, [0, 0, 0, 0, 0x00, 0x02], 0),
        (1, 3, [0, 0, 0, 0, 0x00, 0x07], 1),
        (4, 33, [0, 0, 0, 0, 0x02, 0x11], 1),
        (6, 33, [0, 0, 0, 0, 0x08, 0x61], 33),
        (6, 65, [0, 0, 0, 0, 0x10, 0x41], 1),
        (6, 4398046511103, [0xff; 6], 63),
    ];
    for (bits, number, sqn, ind) in cases {
        assert!(rt;
            (sqn_of(number, bits), split(sqn, bits)) == (sqn, (number, ind)),
            "at {bits} and {number}"
        );
    }
    assert!(rt; split([0xff; 6], 0) == (281474976710655, 0));
    assert!(rt; (top(0), top(4), top(5)) == (MAX_SEQ, MAX_SEQ, MAX_SEQ));
    assert!(rt; top(6) == 4398046511103);
}

// By hand: with one index each SEQ is old that isn't above all others; with 64 of them 1 shares its IND with 65.
#[test]
fn each_index_has_its_own_entry(rt: HostRuntime) {
    let mut one = SqnArray::opening(0, 0, None);
    assert!(rt; one.check(sqn_of(2, 0)) == Verdict::Fresh);
    assert!(rt; one.check(sqn_of(1, 0)) == Verdict::Old(2));
    assert!(rt; one.highest() == [0, 0, 0, 0, 0, 2]);
    let mut many = SqnArray::opening(0, 6, None);
    for (number, verdict) in [
        (65, Verdict::Fresh),
        (33, Verdict::Fresh),
        (1, Verdict::Old(65)),
        (2, Verdict::Fresh),
        (63, Verdict::Fresh),
    ] {
        assert!(rt; many.check(sqn_of(number, 6)) == verdict, "at {number}");
    }
    assert!(rt; many.highest() == sqn_of(65, 6));
}

// By hand: with an age limit of 3, of which 4 is accepted first, 1 is aged and 2 isn't. Old comes before far, far before aged.
#[test]
fn aged_seq_is_refused(rt: HostRuntime) {
    let mut array = SqnArray::opening(0, 5, Some(3));
    for (number, verdict) in [
        (4, Verdict::Fresh),
        (1, Verdict::Aged(4)),
        (2, Verdict::Fresh),
        (2, Verdict::Old(2)),
        (36, Verdict::Fresh),
        (4, Verdict::Old(36)),
        (33, Verdict::Aged(36)),
        (268435493, Verdict::Far(36)),
        (34, Verdict::Fresh),
    ] {
        assert!(rt; array.check(sqn_of(number, 5)) == verdict, "at {number}");
    }
}
