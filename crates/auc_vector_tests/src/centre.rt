//! A desk, call by call, through a caller of any centre.

ghost use Rattle.std.specs.Prelude.{◌≡◌, ◌<◌, ◌≤◌, ◌∷◌, [], All, length, slice_index, false};
ghost use Rattle.auc_sqn.specs.Number.{max_seq};
ghost use Rattle.auc_draw.specs.Book.{IsOf};
ghost use Rattle.auc_centre.specs.Adds.{AddsAtDesk, kept_by};
ghost use Rattle.auc_vector_tests.specs.InnerGains.{Gains};
ghost use Rattle.auc_vector_tests.specs.InnerRound.{Begins};
ghost use Rattle.auc_centre.specs.Kept.{subs_of};

use auc_centre::{Desk, Naming, RoundKeeper};
use auc_disk::{Disk, DiskCall, FailList, MemDisk};
use auc_draw::{Book, KeeperPass, Pass};
use auc_journal::Journal;
use auc_keeper::Keeper;
use auc_memory::{Imsi, Octets, Stop};
use auc_sqn::MAX_SEQ;
use auc_vector::{Centre, CentreRefusal, Resynced};
use std::alloc::Global;
use std::marker::Brand;
use std::process::Abort;
use std::sync::{Mutex, Wait};

// The answers to a draw and to a resynchronisation after it.
type Answers = (Result<u64, CentreRefusal>, Result<Resynced, CentreRefusal>);

/// Draws a number of a subscriber, and then resynchronises with this SEQ.
fn draw_and_resync<C: Centre, R: Wait>(rt: &R, centre: &mut C, sub: u32, seq_ms: u64) -> Answers
    requires sub { sub < C.subs centre.old }
    requires number { seq_ms ≤ C.top centre.old sub }
    ensures name { C.name centre.new ≡ C.name centre.old }
    ensures gains { Gains (λ i es ws. C.goes centre.old i es ws centre.new) sub
        (C.kept centre.old sub) result.0 result.1 }
{
    let drawn = centre.next(rt, sub);
    let resynced = centre.resync(rt, sub, seq_ms);
    (drawn, resynced)
}

/// Does the same at a desk of this pass.
fn draw_and_resync_at_desk<L: Naming<D>, D: Disk + Drop, R: Wait>(
    rt: &R,
    book: &Book,
    pass: &mut Pass,
    keeper: &Mutex<RoundKeeper<L, D>>,
    sub: u32,
    seq_ms: u64,
) -> Answers
    requires book { (book.now.id ≡ L.table) × (book.now.tops ≡ L.tops) }
    requires pass { IsOf L.table L.tops pass.old }
    requires sized { subs_of L.opening ≡ length book.now.openings }
    requires sub { sub < length book.now.openings }
    requires number { seq_ms ≤ slice_index book.now.tops sub }
    ensures pass { IsOf L.table L.tops pass.new }
    ensures gains { Gains (λ i es ws. AddsAtDesk pass.old i es ws pass.new) sub
        (kept_by pass.old sub) result.0 result.1 }
{
    let mut desk = Desk { pass, book, keeper };
    draw_and_resync(rt, &mut desk, sub, seq_ms)
}

/// Does the same for the first subscriber with the pass at a place.
fn draw_and_resync_by<L: Naming<D>, D: Disk + Drop, R: Wait>(
    rt: &R,
    book: &Book,
    passes: &mut [Pass],
    place: usize,
    keeper: &Mutex<RoundKeeper<L, D>>,
    seq_ms: u64,
) -> Answers
    requires book { (book.now.id ≡ L.table) × (book.now.tops ≡ L.tops) }
    requires own { All (IsOf L.table L.tops) passes.old }
    requires place { place < length passes.old }
    requires sized { subs_of L.opening ≡ length book.now.openings }
    requires sub { 0 < length book.now.openings }
    requires number { seq_ms ≤ slice_index book.now.tops 0 }
    ensures own { All (IsOf L.table L.tops) passes.new }
    ensures many { length passes.new ≡ length passes.old }
{
    draw_and_resync_at_desk(rt, book, &mut passes[place], keeper, 0, seq_ms)
}

/// Does the same three times in a round of two passes: with the first one, with the second one, and with the first one again.
/// The keeper's parts are handed back.
fn draw_three_times<L: Naming<D>, D: Disk + Drop, R: Wait>(
    rt: &R,
    book: &Book,
    passes: &mut [Pass],
    journal: Journal<D>,
    keeper: KeeperPass,
    seq_ms: u64,
) -> ([Answers; 3], Journal<D>, KeeperPass)
    requires begins { Begins L.table L.tops L.passes L.opening book.now journal keeper }
    requires own { All (IsOf L.table L.tops) passes.old }
    requires two { length passes.old ≡ 2 }
    requires sub { 0 < length book.now.openings }
    requires number { seq_ms ≤ slice_index book.now.tops 0 }
    ensures subscribers { result.1.imsis ≡ journal.imsis }
    ensures own { result.2.id ≡ L.table }
{
    let lock = Mutex::new(RoundKeeper::<L, D>::new(Keeper::new(journal, keeper)));
    let answers = [
        draw_and_resync_by(rt, book, passes, 0, &lock, seq_ms),
        draw_and_resync_by(rt, book, passes, 1, &lock, seq_ms),
        draw_and_resync_by(rt, book, passes, 0, &lock, seq_ms),
    ];
    let (journal, keeper) = lock.into_inner().into_keeper().parts();
    (answers, journal, keeper)
}

/// A new journal of this subscriber, on a disk of which this write fails.
fn journal_of(rt: &impl Abort, alloc: Global, imsi: Imsi, write: u64) -> Journal<MemDisk>
    ensures subscriber { result.imsis ≡ imsi ∷ [] }
    ensures ready { result.failed ≡ false }
{
    let mut fail = FailList::new(alloc);
    fail.push(DiskCall::WriteAt, write).expect(rt, "memory");
    let disk = MemDisk::new(alloc, Octets::new(alloc), fail).expect(rt, "memory");
    match Journal::open(alloc, disk, &[imsi]) {
        Ok(journal) => journal,
        Err(_) => panic!(rt; "no journal"),
    }
}

/// The answers in a round of one subscriber whose number stands at this opening and whose greatest number is this top, with a
/// journal on a disk of which this write fails; and the subscriber's limit after the round.
fn play<R: Abort + Wait>(
    rt: &R,
    alloc: Global,
    write: u64,
    opening: u64,
    top: u64,
    seq_ms: u64,
) -> ([Answers; 3], u64)
    requires { (opening ≤ top) × (top ≤ max_seq) × (seq_ms ≤ top) }
{
    let imsi = Imsi::read(b"001010000000001").expect(rt, "an IMSI");
    let journal = journal_of(rt, alloc, imsi, write);
    let limits = [journal.reserved(0)];
    let Ok((book, mut passes, keeper)) = Book::open(alloc, &[opening], &[top], &limits, 2) else {
        panic!(rt; "no memory")
    };
    let (answers, journal, _keeper) = draw_three_times::<Brand, MemDisk, R>(
        rt,
        &book,
        passes.as_mut_slice(),
        journal,
        keeper,
        seq_ms,
    );
    (answers, journal.reserved(0))
}

/// The answers if no number is left.
const NONE_LEFT: Answers = (
    Err(CentreRefusal::Exhausted(MAX_SEQ)),
    Ok(Resynced::InRange(MAX_SEQ, MAX_SEQ)),
);

/// A subscriber's opening and its greatest number, the SEQ, the three answers, and the limit after the round.
type Round = (u64, u64, u64, [Answers; 3], u64);

// By hand, with a range of 2^28 = 268435456 and 64 numbers a reservation.
const ROUNDS: [Round; 4] = [
    (
        10,
        MAX_SEQ,
        20,
        [
            (Ok(11), Ok(Resynced::Moved(11, 20))),
            (Ok(21), Ok(Resynced::InRange(21, 20))),
            (Ok(22), Ok(Resynced::InRange(22, 20))),
        ],
        74,
    ),
    (
        268435456,
        MAX_SEQ,
        2,
        [
            (Ok(268435457), Ok(Resynced::InRange(268435457, 2))),
            (Ok(268435458), Err(CentreRefusal::Beyond(268435458, 2))),
            (Ok(268435459), Err(CentreRefusal::Beyond(268435459, 2))),
        ],
        268435520,
    ),
    // No number is left, and each pass's first refused draw adds one to the word.
    (
        MAX_SEQ,
        MAX_SEQ,
        MAX_SEQ,
        [
            NONE_LEFT,
            (
                Err(CentreRefusal::Exhausted(MAX_SEQ + 1)),
                Ok(Resynced::InRange(MAX_SEQ + 1, MAX_SEQ)),
            ),
            NONE_LEFT,
        ],
        0,
    ),
    // Two numbers are left of this subscriber's. Its limit goes on above its top.
    (
        10,
        12,
        11,
        [
            (Ok(11), Ok(Resynced::InRange(11, 11))),
            (Ok(12), Ok(Resynced::InRange(12, 11))),
            (
                Err(CentreRefusal::Exhausted(12)),
                Ok(Resynced::InRange(12, 11)),
            ),
        ],
        74,
    ),
];

#[test]
fn desks_draw_and_resynchronise(rt: HostRuntime) {
    for (opening, top, seq, answers, limit) in ROUNDS {
        assert!(rt; opening <= top && top <= MAX_SEQ && seq <= top);
        let found = play(&rt, rt.alloc(), 100, opening, top, seq);
        assert!(rt; found == (answers, limit), "from {opening}");
    }
}

// By hand: the first write after the opening's fails.
#[test]
fn draws_are_withheld_after_the_keeper_stopped(rt: HostRuntime) {
    let withheld = |n| Err(CentreRefusal::Withheld(n, Stop::Fault));
    let answers = [
        (withheld(11), Ok(Resynced::InRange(11, 5))),
        (withheld(12), Ok(Resynced::InRange(12, 5))),
        (withheld(13), Ok(Resynced::InRange(13, 5))),
    ];
    assert!(rt; play(&rt, rt.alloc(), 2, 10, MAX_SEQ, 5) == (answers, 0));
}
