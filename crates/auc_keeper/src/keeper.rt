//! Keepers.

ghost use Rattle.std.specs.Prelude.{◌≡◌, ◌≢◌, ◌≤◌, ◌<◌, ◌+◌, ◌*◌, ◌^◌, ◌↔◌, ℕ, List, All, AllPairs, None, Some, false, length, max, slice_index, slice_set};
ghost use Rattle.auc_memory.specs.declared.stop.Stop.TheVariants as stop;
ghost use Rattle.auc_sqn.specs.Number.{max_seq};
ghost use Rattle.auc_journal.specs.Journal.{JournalState, limits_of, reserved_at};
ghost use Rattle.auc_keeper.specs.Keeper.{AnswersAbove, AnswersGroup, Ensures, MayRise, Prepares, Since, Tells, limit_for, looked, set_all};

use auc_disk::Disk;
use auc_draw::{Book, KeeperPass};
use auc_journal::{AppendRefusal, Journal};
use auc_memory::Stop;
use auc_sqn::MAX_SEQ;
use std::marker::Model;

/// Whether numbers are reserved up to the one that was asked for.
#[derive(Clone, Copy, PartialEq, Eq)]
pub enum Ensured {
    /// They are reserved up to this limit, on the disk and in the shared words.
    Yes(u64),
    /// The keeper has stopped for this cause: no limit rises any more.
    Stopped(Stop),
}

/// Whether the limits of a group are reserved.
#[derive(Clone, Copy)]
pub enum Prepared {
    /// All of them are reserved, on the disk and in the shared words.
    Done,
    /// The file would have more than 2^30 bytes. The number is how many it has up to its closed gate, that gate among
    /// them. Nothing changed, and the keeper goes on.
    Passed(u64),
    /// The keeper has stopped for this cause: no limit rises any more.
    Stopped(Stop),
}

/// The keeper of a round's reservations: the journal, and the keeper's pass of the book.
#[derive(Drop)]
pub struct Keeper<D: Disk + Drop> {
    journal: Journal<D>,
    pass: KeeperPass,
    stop: Option<Stop>,
}

impl<D: Disk + Drop> Model for Keeper<D> {
    ghost use Rattle.auc_keeper.specs.InnerKeeper.{IsKeeper};
    ghost use Rattle.auc_keeper.specs.Keeper.{KeeperState};

    ghost Value = { KeeperState D };

    ghost view = { λ k. record { journal = k.journal; pass = k.pass } };

    ghost invariant = { λ k. IsKeeper k.journal k.pass k.stop };
}

impl<D: Disk + Drop> Keeper<D> {
    /// The keeper of a journal, for the pass of a book whose limits are the journal's.
    pub fn new(journal: Journal<D>, pass: KeeperPass) -> Keeper<D>
        requires limits { pass.limits ≡ limits_of journal }
        requires ready { journal.failed ≡ false }
        requires running { pass.stop ≡ None }
        requires differ { AllPairs (λ a b. a ≢ b) journal.imsis }

        ensures parts { result ≡ record { journal = journal; pass = pass } }
        ensures since { Since D.seen D.may_leave D.faults D.moment D.left_since journal result }
    {
        Keeper {
            journal,
            pass,
            stop: None,
        }
    }

    /// The subscriber's number word, as it stands now.
    pub fn look(&mut self, book: &Book, sub: u32) -> u64
        requires own { self.old.pass.id ≡ book.now.id }
        requires sub { sub < length book.now.openings }

        ensures looked { self.new ≡ looked sub result self.old }
        ensures found { slice_index self.new.pass.seen sub ≡ result }
        ensures rises { slice_index self.old.pass.seen sub ≤ result }

        // What held since the round began, holds.
        ensures since { (opening : JournalState D) → Since D.seen D.may_leave D.faults D.moment D.left_since opening self.old
            → Since D.seen D.may_leave D.faults D.moment D.left_since opening self.new }
    {
        self.pass.look(book, sub)
    }

    /// Reserves the numbers of a subscriber up to this one, which is at most its number word as the keeper last looked
    /// at it. If the limit is below it, it appends a greater one, and raises the shared limit after that. It takes no
    /// memory, and makes at most four calls of the disk.
    pub fn ensure(&mut self, book: &Book, sub: u32, n: u64) -> Ensured
        requires own { self.old.pass.id ≡ book.now.id }
        requires sub { (sub < length book.now.openings) × (sub < length self.old.journal.imsis) }
        requires number { n ≤ max_seq }
        requires seen { n ≤ slice_index self.old.pass.seen sub }

        ensures exact { Ensures sub n self.old result self.new }
        ensures told { Tells sub n result self.new }

        // Of the pass only the limits and the stop change.
        ensures book { (self.new.pass.id ≡ self.old.pass.id) × (self.new.pass.passes ≡ self.old.pass.passes) }
        ensures seen { self.new.pass.seen ≡ self.old.pass.seen }

        // It makes four calls of the disk at most.
        ensures calls { D.calls self.new.journal.disk ≤ D.calls self.old.journal.disk + 4 }

        // What held since the round began, holds.
        ensures since { (opening : JournalState D) → Since D.seen D.may_leave D.faults D.moment D.left_since opening self.old
            → Since D.seen D.may_leave D.faults D.moment D.left_since opening self.new }
    {
        if let Some(stop) = self.stop {
            return Ensured::Stopped(stop);
        }
        let reserved = self.journal.reserved(sub);
        if n <= reserved {
            return Ensured::Yes(reserved);
        }
        self.reserve(book, sub, n)
    }

    /// Reserves the numbers of 2 to 256 different subscribers, each up to its limit, by one frame of the journal: it
    /// appends the limits, and raises the shared ones after that. It takes no memory, and makes at most four calls of the
    /// disk, two syncs among them.
    pub fn prepare(&mut self, book: &Book, items: &[(u32, u64)]) -> Prepared
        requires own { self.old.pass.id ≡ book.now.id }
        requires count { (2 ≤ length items.now) × (length items.now ≤ 256) }
        requires differ { AllPairs (λ a b. a.0 ≢ b.0) items.now }
        requires subs { All (λ item. (item.0 < length book.now.openings) × (item.0 < length self.old.journal.imsis)) items.now }
        requires limits { All (λ item. MayRise self.old.pass item.0 item.1) items.now }

        ensures exact { Prepares items.now self.old result self.new }

        // Of the pass only the limits of these subscribers and the stop change.
        ensures book { (self.new.pass.id ≡ self.old.pass.id) × (self.new.pass.passes ≡ self.old.pass.passes) }
        ensures seen { self.new.pass.seen ≡ self.old.pass.seen }
        ensures others { (sub : ℕ) → All (λ item. sub ≢ item.0) items.now
            → slice_index self.new.pass.limits sub ≡ slice_index self.old.pass.limits sub }
        ensures subscribers { self.new.journal.imsis ≡ self.old.journal.imsis }

        // It makes four calls of the disk at most.
        ensures calls { D.calls self.new.journal.disk ≤ D.calls self.old.journal.disk + 4 }

        // What held since the round began, holds.
        ensures since { (opening : JournalState D) → Since D.seen D.may_leave D.faults D.moment D.left_since opening self.old
            → Since D.seen D.may_leave D.faults D.moment D.left_since opening self.new }
    {
        match self.stop {
            Some(stop) => Prepared::Stopped(stop),
            None => self.reserve_all(book, items),
        }
    }

    /// Why the keeper stopped, if it did.
    pub fn stop(&self) -> Option<Stop>
        ensures { result ≡ self.now.pass.stop }
    {
        self.stop
    }

    /// The journal and the pass, as the last call left them.
    pub fn parts(self) -> (Journal<D>, KeeperPass)
        ensures { (result.0 ≡ self.journal) × (result.1 ≡ self.pass) }
    {
        let Keeper { journal, pass, .. } = self;
        (journal, pass)
    }

    // Appends the limit for a number above the present one, and raises the shared limit after that; or stops.
    fn reserve(&mut self, book: &Book, sub: u32, n: u64) -> Ensured
        requires own { self.old.pass.id ≡ book.now.id }
        requires sub { (sub < length book.now.openings) × (sub < length self.old.journal.imsis) }
        requires number { n ≤ max_seq }
        requires seen { n ≤ slice_index self.old.pass.seen sub }
        requires running { self.old.pass.stop ≡ None }
        requires above { reserved_at self.old.journal sub < n }

        ensures answers { AnswersAbove sub n self.old result self.new }
        ensures full { 2 ^ 30 < self.old.journal.place + 20 → result ≡ Ensured.Stopped stop.Full }
        ensures told { Tells sub n result self.new }
        ensures calls { D.calls self.new.journal.disk ≤ D.calls self.old.journal.disk + 4 }
        ensures since { (opening : JournalState D) → Since D.seen D.may_leave D.faults D.moment D.left_since opening self.old
            → Since D.seen D.may_leave D.faults D.moment D.left_since opening self.new }
    {
        let limit = next_limit(n);
        match self.journal.append(sub, limit) {
            Ok(()) => {
                self.pass.raise(book, sub, limit);
                Ensured::Yes(limit)
            }
            Err(refusal) => {
                let why = cause_of(refusal);
                self.pass.stop(book, why);
                self.stop = Some(why);
                Ensured::Stopped(why)
            }
        }
    }

    // Appends the limits of a group, and raises the shared ones after that; or passes it, or stops.
    fn reserve_all(&mut self, book: &Book, items: &[(u32, u64)]) -> Prepared
        requires own { self.old.pass.id ≡ book.now.id }
        requires count { (2 ≤ length items.now) × (length items.now ≤ 256) }
        requires differ { AllPairs (λ a b. a.0 ≢ b.0) items.now }
        requires subs { All (λ item. (item.0 < length book.now.openings) × (item.0 < length self.old.journal.imsis)) items.now }
        requires limits { All (λ item. MayRise self.old.pass item.0 item.1) items.now }
        requires running { self.old.pass.stop ≡ None }

        ensures answers { AnswersGroup items.now self.old result self.new }
        ensures full { 2 ^ 30 < self.old.journal.place + 1 + (4 + 17 * length items.now)
            → result ≡ Prepared.Passed (self.old.journal.place + 1) }
        ensures pass { (self.new.pass.id ≡ self.old.pass.id) × (self.new.pass.passes ≡ self.old.pass.passes)
            × (self.new.pass.seen ≡ self.old.pass.seen) }
        ensures others { (sub : ℕ) → All (λ item. sub ≢ item.0) items.now
            → slice_index self.new.pass.limits sub ≡ slice_index self.old.pass.limits sub }
        ensures subscribers { self.new.journal.imsis ≡ self.old.journal.imsis }
        ensures calls { D.calls self.new.journal.disk ≤ D.calls self.old.journal.disk + 4 }
        ensures since { (opening : JournalState D) → Since D.seen D.may_leave D.faults D.moment D.left_since opening self.old
            → Since D.seen D.may_leave D.faults D.moment D.left_since opening self.new }
    {
        match self.journal.append_group(items) {
            Ok(()) => {
                raise_all(&mut self.pass, book, items);
                Prepared::Done
            }
            Err(AppendRefusal::StoreFault) => {
                self.pass.stop(book, Stop::Fault);
                self.stop = Some(Stop::Fault);
                Prepared::Stopped(Stop::Fault)
            }
            Err(AppendRefusal::StoreFull(len)) => Prepared::Passed(len),
        }
    }
}

// Raises the shared limits of several subscribers.
fn raise_all(pass: &mut KeeperPass, book: &Book, items: &[(u32, u64)])
    requires own { pass.old.id ≡ book.now.id }
    requires differ { AllPairs (λ a b. a.0 ≢ b.0) items.now }
    requires subs { All (λ item. item.0 < length book.now.openings) items.now }
    requires running { pass.old.stop ≡ None }
    requires limits { All (λ item. MayRise pass.old item.0 item.1) items.now }
    ensures { pass.new ≡ record pass.old { limits = set_all pass.old.limits items.now } }
{
    for item in items {
        pass.raise(book, item.0, item.1);
    }
}

// The limit that is reserved before a number is released.
fn next_limit(n: u64) -> u64
    requires { n ≤ max_seq }
    ensures { result ≡ limit_for n }
{
    (n + 63).min(MAX_SEQ)
}

// Why a keeper stops after a refused append.
fn cause_of(refusal: AppendRefusal) -> Stop
    ensures fault { (result ≡ stop.Fault) ↔ (refusal ≡ AppendRefusal.StoreFault) }
    ensures full { result ≡ stop.Full → refusal ≢ AppendRefusal.StoreFault }
{
    match refusal {
        AppendRefusal::StoreFault => Stop::Fault,
        AppendRefusal::StoreFull(_) => Stop::Full,
    }
}
