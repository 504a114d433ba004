//! A set of numbers, number by number.

use auc_released::{Number, Numbers};
use std::alloc::Global;
use std::process::Abort;

// The set of three numbers, by subscriber.
fn three_numbers(rt: &impl Abort, alloc: Global) -> Numbers {
    let mut numbers = Numbers::new(alloc);
    for (sub, n) in [(0, 64), (1, 1), (0, 63)] {
        numbers.add(Number { sub, n }).expect(rt, "memory");
    }
    numbers
}

// A subscriber, a number, and whether it is in the set.
const FOUND: [(u32, u64, bool); 7] = [
    (0, 63, true),
    (0, 64, true),
    (0, 65, false),
    (0, 0, false),
    (1, 1, true),
    (1, 64, false),
    (2, 1, false),
];

// By hand: 63 and 64 stand in different blocks, and 64 of another subscriber is another number.
#[test]
fn numbers_are_told_apart(rt: HostRuntime) {
    let numbers = three_numbers(&rt, rt.alloc());
    for (sub, n, found) in FOUND {
        assert!(rt; numbers.has(sub, n) == found, "of {sub} and {n}");
    }
}
