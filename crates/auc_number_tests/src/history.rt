//! Histories by hand. The verdicts of a resynchronisation are tested where they are given, in `auc_core`.

use auc_history::Entry::{self, Drawn, Look, Moved};
use auc_history::is_legal;

const TOP: u64 = 8796093022207;

// What a list shows, the word before it and after it, the list, and whether it is legal.
const HISTORIES: [(&str, u64, u64, &[Entry], bool); 15] = [
    ("nothing is covered", 7, 7, &[], true),
    ("1, then 2", 0, 2, &[Drawn(1), Drawn(2)], true),
    (
        "1 to 500, then 501",
        0,
        501,
        &[Moved(0, 500), Drawn(501)],
        true,
    ),
    (
        "looks at 3 and 4",
        3,
        4,
        &[Look(3), Drawn(4), Look(4), Look(4)],
        true,
    ),
    (
        "a mark",
        TOP - 1,
        TOP + 1,
        &[Drawn(TOP), Drawn(TOP + 1)],
        true,
    ),
    (
        "3 is left out",
        0,
        4,
        &[Drawn(1), Drawn(2), Drawn(4)],
        false,
    ),
    (
        "1 comes twice",
        0,
        2,
        &[Drawn(1), Drawn(1), Drawn(2)],
        false,
    ),
    ("2 comes before 1", 0, 2, &[Drawn(2), Drawn(1)], false),
    ("2 is left", 0, 2, &[Drawn(1)], false),
    ("2 is too much", 0, 1, &[Drawn(1), Drawn(2)], false),
    (
        "a look at a number that no entry ends at",
        0,
        5,
        &[Moved(0, 5), Look(4)],
        false,
    ),
    (
        "a look that comes late",
        0,
        2,
        &[Drawn(1), Drawn(2), Look(1)],
        false,
    ),
    (
        "a move above the greatest number",
        TOP - 1,
        TOP + 1,
        &[Moved(TOP - 1, TOP + 1)],
        false,
    ),
    ("a move over nothing", 4, 4, &[Moved(4, 4)], false),
    ("back to an earlier number", 4, 3, &[], false),
];

// By hand: beside each list stands what its entries cover.
#[test]
fn legal_histories_are_told_from_others(rt: HostRuntime) {
    for (what, opening, closing, entries, legal) in HISTORIES {
        assert!(rt; is_legal(TOP, opening, closing, entries) == legal, "{what}");
    }
}
