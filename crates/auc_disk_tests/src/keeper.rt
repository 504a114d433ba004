//! A keeper, call by call, over a disk in memory.

ghost use Rattle.std.specs.Prelude.{◌≡◌, ◌<◌, ◌≤◌, ℕ, length, false};
ghost use Rattle.auc_sqn.specs.Number.{max_seq};

use auc_disk::{DiskCall, FailList, MemDisk};
use auc_draw::Book;
use auc_journal::Journal;
use auc_keeper::{Ensured, Keeper};
use auc_memory::{Imsi, Octets, Stop};
use auc_sqn::MAX_SEQ;
use std::alloc::Global;
use std::process::Abort;

// A worker on another thread may have the value.
fn is_sent<T: Send>(_value: &T) {}

// A disk of which the second call of its length, the first read and this write fail.
fn disk_of(rt: &impl Abort, alloc: Global, write: u64) -> MemDisk {
    let mut fail = FailList::new(alloc);
    fail.push(DiskCall::Len, 2).expect(rt, "memory");
    fail.push(DiskCall::ReadAt, 1).expect(rt, "memory");
    fail.push(DiskCall::WriteAt, write).expect(rt, "memory");
    MemDisk::new(alloc, Octets::new(alloc), fail).expect(rt, "memory")
}

// A new journal of one subscriber, on a disk of which these calls fail.
fn journal_of(rt: &impl Abort, alloc: Global, write: u64) -> Journal<MemDisk>
    ensures { (length result.imsis ≡ 1) × (result.failed ≡ false) }
{
    let imsi = Imsi::read(b"001010000000001").expect(rt, "an IMSI");
    match Journal::open(alloc, disk_of(rt, alloc, write), &[imsi]) {
        Ok(journal) => journal,
        Err(_) => panic!(rt; "no journal"),
    }
}

// A book whose word stands at this opening, and its keeper with a new journal, of whose disk this write fails.
fn opened(rt: &impl Abort, alloc: Global, opening: u64, write: u64) -> (Book, Keeper<MemDisk>)
    requires { opening ≤ max_seq }
    ensures own { result.1.pass.id ≡ result.0.id }
    ensures subs { (1 ≤ length result.0.openings) × (1 ≤ length result.1.journal.imsis) }
{
    let journal = journal_of(rt, alloc, write);
    let limits = [journal.reserved(0)];
    let Ok((book, _passes, pass)) = Book::open(alloc, &[opening], &[MAX_SEQ], &limits, 1) else {
        panic!(rt; "no memory")
    };
    (book, Keeper::new(journal, pass))
}

// Asks for a number, if the keeper sees one that isn't lower.
fn ask(keeper: &mut Keeper<MemDisk>, book: &Book, n: u64) -> Option<Ensured>
    requires own { keeper.old.pass.id ≡ book.now.id }
    requires sub { (1 ≤ length book.now.openings) × (1 ≤ length keeper.old.journal.imsis) }
    requires number { n ≤ max_seq }
    ensures own { keeper.new.pass.id ≡ keeper.old.pass.id }
    ensures sub { 1 ≤ length keeper.new.journal.imsis }
{
    if keeper.look(book, 0) < n {
        return None;
    }
    Some(keeper.ensure(book, 0, n))
}

// What a new keeper answers to a number, if the word stands at this opening, and the limit in its journal after that.
fn reserve(rt: &impl Abort, alloc: Global, opening: u64, n: u64) -> (Option<Ensured>, u64)
    requires { (opening ≤ max_seq) × (n ≤ max_seq) }
{
    let (book, mut keeper) = opened(rt, alloc, opening, 9);
    is_sent(&keeper);
    let answer = ask(&mut keeper, &book, n);
    let (journal, _pass) = keeper.parts();
    (answer, journal.reserved(0))
}

// By hand: the opening at which the word stands, the number, and the limit, which is 63 above it or the greatest number.
#[test]
fn a_number_is_reserved_with_the_63_after_it(rt: HostRuntime) {
    let cases = [
        (1, 1, 64),
        (100, 100, 163),
        (MAX_SEQ, MAX_SEQ - 63, MAX_SEQ),
        (MAX_SEQ, MAX_SEQ - 5, MAX_SEQ),
    ];
    for (opening, n, limit) in cases {
        assert!(rt; opening <= MAX_SEQ && n <= MAX_SEQ);
        let found = reserve(&rt, rt.alloc(), opening, n);
        assert!(rt; found == (Some(Ensured::Yes(limit)), limit), "at {n}");
    }
}

// The answers to five numbers.
fn ask_five(keeper: &mut Keeper<MemDisk>, book: &Book) -> [Option<Ensured>; 5]
    requires own { keeper.old.pass.id ≡ book.now.id }
    requires sub { (1 ≤ length book.now.openings) × (1 ≤ length keeper.old.journal.imsis) }
{
    [
        ask(keeper, book, 1),
        ask(keeper, book, 64),
        ask(keeper, book, 1),
        ask(keeper, book, 65),
        ask(keeper, book, 1),
    ]
}

// An opening and an append make three writes, and the fourth fails. So a number up to its limit makes no call of the
// disk, and a greater one does. A keeper that stopped answers that for each number.
#[test]
fn a_number_up_to_its_limit_makes_no_call(rt: HostRuntime) {
    let (book, mut keeper) = opened(&rt, rt.alloc(), 100, 4);
    let found = ask_five(&mut keeper, &book);
    let yes = Some(Ensured::Yes(64));
    let stopped = Some(Ensured::Stopped(Stop::Fault));
    assert!(rt; found == [yes, yes, yes, stopped, stopped]);
}
