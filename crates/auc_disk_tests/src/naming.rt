//! Of a journal some of whose subscribers have the places: that calls succeed while there is memory, and the limits by hand.

ghost use Rattle.std.specs.Prelude.{◌≡◌, ◌≤◌, true, false, length, All, Contains};

use crate::journal::{appends, disk_of, opened, other, own};
use auc_disk::MemDisk;
use auc_journal::Journal;
use auc_memory::{Imsi, Octets};
use std::alloc::Global;
use std::process::Abort;

// Three subscribers.
fn three(rt: &impl Abort) -> [Imsi; 3] {
    let third = Imsi::read(b"001010000000003").expect(rt, "an IMSI");
    [own(rt), other(rt), third]
}

// The third subscriber and the first.
fn third_and_first(rt: &impl Abort, alloc: Global, all: &[Imsi]) -> Vec<Imsi>
    requires { length all.now ≡ 3 }
    ensures size { length result.items ≡ 2 }
    ensures among { All (Contains all.now) result.items }
{
    let mut some = Vec::new(alloc);
    some.push(all[2]).expect(rt, "memory");
    some.push(all[0]).expect(rt, "memory");
    some
}

// The limits at the first two places.
fn limits_of_two(journal: &Journal<MemDisk>) -> [u64; 2]
    requires { 2 ≤ length journal.now.imsis }
{
    [journal.reserved(0), journal.reserved(1)]
}

// The limits at three places.
fn limits_of_three(journal: &Journal<MemDisk>) -> [u64; 3]
    requires { length journal.now.imsis ≡ 3 }
{
    [
        journal.reserved(0),
        journal.reserved(1),
        journal.reserved(2),
    ]
}

// Whether the limits 64, 70 and 76 are appended for three subscribers.
fn appends_three(journal: &mut Journal<MemDisk>) -> bool
    requires { (length journal.old.imsis ≡ 3) × (journal.old.failed ≡ false) }
    ensures imsis { journal.new.imsis ≡ journal.old.imsis }
    ensures all { journal.new.all ≡ journal.old.all }
    ensures ready { result ≡ true → journal.new.failed ≡ false }
{
    appends(journal, 0, 64) && appends(journal, 1, 70) && appends(journal, 2, 76)
}

// Names the third of three subscribers and the first, and appends the limit 80 for the one at place 0. Answers the limits at
// both places before that.
fn append_for_a_named_one(
    rt: &impl Abort,
    alloc: Global,
    journal: &mut Journal<MemDisk>,
    all: &[Imsi],
) -> [u64; 2]
    requires all { (journal.old.all ≡ all.now) × (length all.now ≡ 3) }
    requires ready { journal.old.failed ≡ false }
    ensures all { journal.new.all ≡ journal.old.all }
{
    journal.name_some(third_and_first(rt, alloc, all));
    let limits = limits_of_two(journal);
    assert!(rt; appends(journal, 0, 80));
    limits
}

// The limits of two named ones of three subscribers; those of all three after an append for a named one; and those of a journal that
// is opened from its disk.
fn limits_of_named_ones(rt: &impl Abort, alloc: Global) -> ([u64; 2], [u64; 3], [u64; 3]) {
    let all = three(rt);
    let mut journal = opened(rt, alloc, disk_of(rt, alloc, Octets::new(alloc)), &all);
    assert!(rt; appends_three(&mut journal));
    let named = append_for_a_named_one(rt, alloc, &mut journal, &all);
    journal.name_all();
    let after = limits_of_three(&journal);
    let reopened = opened(rt, alloc, journal.into_disk(), &all);
    (named, after, limits_of_three(&reopened))
}

// By hand: at the places of the named ones are their limits, and an append for one of them is for the same identity.
#[test]
fn named_subscribers_have_the_places_until_all_have_them_again(rt: HostRuntime) {
    let found = limits_of_named_ones(&rt, rt.alloc());
    assert!(rt; found == ([76, 64], [64, 70, 80], [64, 70, 80]));
}
