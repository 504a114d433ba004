//! The workers of a round, and what they served in the order of the jobs.

ghost use Rattle.std.specs.Prelude.{◌≡◌, ◌≤◌, ◌+◌, [], All, AllPairs, IsPermutation, List, length, map, IfOk, if◌then◌else◌};
ghost use Rattle.auc_centre.specs.Kept.{subs_of};
ghost use Rattle.auc_draw.specs.Book.{Closes, IsNew, IsOf, Opens};
ghost use Rattle.auc_journal.specs.Journal.{limits_of};
ghost use Rattle.auc_keeper.specs.Keeper.{Since};
ghost use Rattle.auc_sqn.specs.Number.{max_seq};
ghost use Rattle.auc_subs.specs.Subscriber.{tops_of};
ghost use Rattle.auc_record.specs.declared.record.LineRecord.{LineRecord};
ghost use Rattle.auc_record.specs.Vectors.{vectors_in};
ghost use Rattle.auc_jobs.specs.InnerClaims.{AreCollected, ClosesAs, HaveWorked, IsDone};
ghost use Rattle.auc_jobs.specs.InnerKeeping.{CanKeep, StaysNear, TellsStop};
ghost use Rattle.auc_jobs.specs.InnerPreparing.{AreReservable, needed_by};
ghost use Rattle.auc_jobs.specs.InnerRound.{AreServed, GoesByLimits};
ghost use Rattle.auc_jobs.specs.InnerSharing.{IsAfter, IsServable, IsShared};
ghost use Rattle.auc_jobs.specs.Round.{IsJournalOf, LeavesMore};

use crate::claiming::{ClaimedJob, SharedRound, WorkerJobs, work};
use crate::jobs::ServedJobs;
use crate::preparing::{needed, prepare_groups};
use crate::round_jobs::RoundJobs;
use crate::stopping::told_stop;
use auc_centre::{Naming, RoundKeeper};
use auc_disk::Disk;
use auc_draw::{Book, Closed, KeeperPass, Pass};
use auc_edge::Gate;
use auc_history::recut_split_is_a_split;
use auc_journal::Journal;
use auc_keeper::Keeper;
use auc_memory::{Items, NoMemory, Stop};
use std::alloc::{AllocError, Global};
use std::marker::Brand;
use std::sync::{Mutex, Wait};
use std::thread::{self, Threads};

/// What the jobs of a round gave, the subscribers' words after them, and why reservations ended, if the lines tell of it.
#[derive(Drop)]
pub(crate) struct RoundPieces {
    pub(crate) jobs: ServedJobs,
    pub(crate) words: Items<u64>,
    pub(crate) stop: Option<Stop>,
}

/// What the workers of a round served, and the journal after them.
#[derive(Drop)]
pub(crate) struct Pieces<D: Disk + Drop> {
    pub(crate) journal: Journal<D>,
    pub(crate) result: Result<RoundPieces, NoMemory>,
}

/// What a round is opened with: its book, a pass for each worker, the keeper's pass, and the reservations that its jobs need.
#[derive(Drop)]
struct Opened {
    book: Book,
    passes: Vec<Pass>,
    keeper: KeeperPass,
    needed: Items<(u32, u64)>,
}

/// What the workers of a round come to, with its book, and the parts of its keeper after them.
#[derive(Drop)]
struct Worked<D: Disk + Drop> {
    book: Book,
    all: Result<Vec<WorkerJobs>, AllocError>,
    journal: Journal<D>,
    keeper: KeeperPass,
    stop: Option<Stop>,
}

/// Runs a worker for each pass.
fn run_workers<
    L: Naming<D> + Send + Sync,
    D: Disk + Drop + Send,
    G: Gate + Sync,
    R: Threads + Wait + Sync,
>(
    rt: &R,
    alloc: Global,
    shared: &SharedRound<L, D, G>,
    passes: Vec<Pass>,
) -> Result<Vec<WorkerJobs>, AllocError>
    requires shared { IsShared L.table L.tops (subs_of L.opening) shared.now.round.now shared.now.book.now }
    requires new { All (IsNew L.table L.tops) passes.items }
    ensures { IfOk result (λ all. (length all.items ≡ length passes.items)
        × All (IsDone L.table L.tops shared.now.round.now) all.items) }
{
    let one = |pass: Pass| -> WorkerJobs
        requires { IsShared L.table L.tops (subs_of L.opening) shared.now.round.now shared.now.book.now
            × IsNew L.table L.tops pass }
        ensures { IsDone L.table L.tops shared.entry.now.round.now result }
    { work(rt, alloc, shared, pass) };
    thread::map_vec(rt, passes, &one)
}

/// Has the keeper of a journal reserve what the round needs, and then runs a worker for each pass, over the keeper in a lock. The
/// book and the parts of the keeper are handed back.
fn work_all<
    L: Naming<D> + Send + Sync,
    D: Disk + Drop + Send,
    G: Gate + Sync,
    R: Threads + Wait + Sync,
>(
    rt: &R,
    alloc: Global,
    round: &RoundJobs,
    opened: Opened,
    journal: Journal<D>,
    gate: &G,
) -> Worked<D>
    requires shared { IsShared L.table L.tops (subs_of L.opening) round.now opened.book }
    requires new { All (IsNew L.table L.tops) opened.passes.items }
    requires keeper { CanKeep L.table L.passes L.opening journal opened.keeper }
    requires needed { AreReservable (length opened.book.openings) opened.keeper opened.needed }
    ensures book { result.book ≡ opened.book }
    ensures all { IfOk result.all (λ all. (length all.items ≡ length opened.passes.items)
        × All (IsDone L.table L.tops round.now) all.items) }
    ensures own { (result.keeper.id ≡ L.table) × (result.keeper.passes ≡ L.passes) }
    ensures stop { result.stop ≡ result.keeper.stop }
    ensures since { Since D.seen D.may_leave D.faults D.moment D.left_since journal
        (record { journal = result.journal; pass = result.keeper }) }
{
    let Opened {
        book,
        passes,
        keeper,
        needed,
    } = opened;
    let mut keeper = Keeper::new(journal, keeper);
    prepare_groups(&mut keeper, &book, needed.as_slice());
    let lock = Mutex::new(RoundKeeper::<L, D>::new(keeper));
    let shared = SharedRound {
        round: &*round,
        book: &book,
        keeper: &lock,
        gate: &*gate,
    };
    let all = run_workers(rt, alloc, &shared, passes);
    let keeper = lock.into_inner().into_keeper();
    let stop = keeper.stop();
    let (journal, keeper) = keeper.parts();
    Worked {
        book,
        all,
        journal,
        keeper,
        stop,
    }
}

/// The passes and the jobs of all workers, if each of them had the memory.
fn collect(alloc: Global, all: Vec<WorkerJobs>) -> Result<(Vec<Pass>, Vec<ClaimedJob>), NoMemory>
    ensures { IfOk result (λ both. AreCollected all.items both.0.items both.1.items) }
{
    let mut passes = Vec::new(alloc);
    let mut done = Vec::new(alloc);
    for own in all {
        let WorkerJobs {
            pass,
            mut jobs,
            is_whole,
        } = own;
        if !is_whole {
            return Err(NoMemory);
        }
        passes.push(pass)?;
        done.append(&mut jobs)?;
    }
    Ok((passes, done))
}

/// The jobs in the order of their places.
fn in_order(mut done: Vec<ClaimedJob>) -> Result<Vec<ClaimedJob>, NoMemory>
    ensures same { IfOk result (λ sorted. IsPermutation done.items sorted.items) }
    ensures sorted { IfOk result (λ sorted. AllPairs (λ b c. b.job ≤ c.job) sorted.items) }
{
    done.sort_by_key(|claimed| claimed.job)?;
    Ok(done)
}

/// What the jobs gave, without their places.
fn served_jobs(alloc: Global, jobs: Vec<ClaimedJob>, full: bool) -> Result<ServedJobs, NoMemory>
    ensures records { IfOk result (λ done. done.records ≡ map (λ c. c.served.lines) jobs.items) }
    ensures devices { IfOk result (λ done. done.devices ≡ map (λ c. c.served.devices) jobs.items) }
    ensures sessions { IfOk result (λ done. done.sessions ≡ map (λ c. c.served.sessions) jobs.items) }
    ensures vectors { IfOk result (λ done. done.vectors ≡ (if full then map (λ c. c.served.vectors) jobs.items else [])) }
{
    let mut done = ServedJobs::new(alloc);
    for claimed in jobs {
        done.push(claimed.served, full)?;
    }
    Ok(done)
}

/// Opens the book of a round at the words of its state, with the subscribers' greatest numbers and the limits of a journal, and
/// tells the reservations that its jobs need before its workers begin.
fn open_book<D: Disk + Drop>(
    alloc: Global,
    round: &RoundJobs,
    journal: &Journal<D>,
) -> Result<Opened, NoMemory>
    requires round { IsServable round.now }
    requires journal { IsJournalOf round.now.set.rows journal.now }
    ensures opens { IfOk result (λ opened. Opens round.now.state.words (tops_of round.now.set.rows)
        (limits_of journal.now) round.now.workers opened.book opened.passes.items opened.keeper) }
    ensures needed { IfOk result (λ opened. opened.needed ≡ needed_by round.now.jobs (tops_of round.now.set.rows)
        round.now.state.words (limits_of journal.now)) }
{
    let openings = round.state.words();
    let asked = round.round;
    let set = asked.set;
    let tops = set.subs.tops(alloc)?;
    let needed = needed(alloc, asked.jobs, tops.as_slice(), openings, journal)?;
    let limits = limits(alloc, journal, openings.len() as u32)?;
    let (book, passes, keeper) = Book::open(
        alloc,
        openings,
        tops.as_slice(),
        limits.as_slice(),
        asked.workers,
    )?;
    Ok(Opened {
        book,
        passes,
        keeper,
        needed,
    })
}

/// The limits of a journal of so many subscribers.
fn limits<D: Disk + Drop>(
    alloc: Global,
    journal: &Journal<D>,
    subs: u32,
) -> Result<Items<u64>, NoMemory>
    requires { length journal.now.imsis ≡ subs }
    ensures value { IfOk result (λ limits. limits ≡ limits_of journal.now) }
    ensures bound { IfOk result (λ limits. All (λ limit. limit ≤ max_seq) limits) }
{
    let mut limits = Items::new(alloc);
    for sub in 0..subs {
        limits.push(journal.reserved(sub))?;
    }
    Ok(limits)
}

/// The word of each subscriber of a closed book.
fn words(alloc: Global, closed: &Closed, subs: u32) -> Result<Items<u64>, NoMemory>
    requires { length closed.now.words ≡ subs }
    ensures { IfOk result (λ words. words ≡ closed.now.words) }
{
    let mut words = Items::new(alloc);
    for sub in 0..subs {
        words.push(closed.word(sub))?;
    }
    Ok(words)
}

/// The word of each subscriber, from a book that is closed with these passes.
fn last_words(
    alloc: Global,
    book: Book,
    passes: Vec<Pass>,
    keeper: KeeperPass,
    subs: u32,
) -> Result<Items<u64>, NoMemory>
    requires own { All (IsOf book.id book.tops) passes.items }
    requires keeper { (keeper.id ≡ book.id) × (keeper.passes ≡ length passes.items) }
    requires subs { length book.openings ≡ subs }
    ensures { IfOk result (λ words. Closes book (map (λ p. p.deeds) passes.items) keeper
        (record { words = words; lists = map (λ p. p.deeds) passes.items })) }
{
    let closed = book.close(passes, keeper);
    words(alloc, &closed, subs)
}

/// Closes the book of a round, of which these are the workers and the keeper's pass, and puts what they served in the
/// order of the jobs.
fn close(
    alloc: Global,
    round: &RoundJobs,
    book: Book,
    all: Vec<WorkerJobs>,
    keeper: KeeperPass,
    stop: Option<Stop>,
) -> Result<RoundPieces, NoMemory>
    requires round { IsServable round.now }
    requires worked { HaveWorked round.now book all.items keeper stop }
    ensures { IfOk result (λ done. ClosesAs round.now book keeper done) }
{
    recut_split_is_a_split();
    let (passes, done) = match collect(alloc, all) {
        Ok(both) => both,
        Err(error) => {
            give_back(book, keeper);
            return Err(error);
        }
    };
    let asked = round.round;
    let set = asked.set;
    let words = last_words(alloc, book, passes, keeper, set.subs.len())?;
    let jobs = served_jobs(alloc, in_order(done)?, asked.full)?;
    let stop = told_stop(stop, jobs.records.as_slice());
    Ok(RoundPieces { jobs, words, stop })
}

/// Gives the book of a round and its keeper's pass back.
fn give_back(_book: Book, _keeper: KeeperPass) {}

/// What a round came to whose workers came to this: its pieces, if each worker had the memory, and the journal.
fn settle<D: Disk + Drop>(alloc: Global, round: &RoundJobs, worked: Worked<D>) -> Pieces<D>
    requires round { IsServable round.now }
    requires worked { IfOk worked.all (λ all. HaveWorked round.now worked.book all.items worked.keeper worked.stop) }
    ensures closes { IfOk result.result (λ done. ClosesAs round.now worked.book worked.keeper done) }
    ensures journal { result.journal ≡ worked.journal }
{
    let Worked {
        book,
        all,
        journal,
        keeper,
        stop,
    } = worked;
    match all {
        Ok(all) => Pieces {
            journal,
            result: close(alloc, round, book, all, keeper, stop),
        },
        Err(AllocError) => {
            give_back(book, keeper);
            Pieces {
                journal,
                result: Err(NoMemory),
            }
        }
    }
}

/// Serves the jobs of a round with a journal, which is handed back.
pub(crate) fn serve_pieces<D: Disk + Drop + Send, G: Gate + Sync, R: Threads + Wait + Sync>(
    rt: &R,
    alloc: Global,
    round: &RoundJobs,
    journal: Journal<D>,
    gate: &G,
) -> Pieces<D>
    requires round { IsServable round.now }
    requires journal { IsJournalOf round.now.set.rows journal }
    ensures served { IfOk result.result (λ done. (early : List LineRecord) → IsAfter round.now early
        → AreServed round.now.set early round.now.state.kept round.now.state.words round.now.jobs
        done.jobs.records done.jobs.devices done.jobs.sessions done.words) }
    ensures limits { IfOk result.result (λ done. GoesByLimits round.now.set done.stop done.jobs.records
        (limits_of journal) done.words (limits_of result.journal)) }
    ensures vectors { IfOk result.result (λ done. done.jobs.vectors
        ≡ (if round.now.full then map (vectors_in round.now.set) done.jobs.records else [])) }
    ensures bound { IfOk result.result (λ done. All (λ word. word ≤ max_seq + 64) done.words) }

    // The journal is of the same subscribers, and no limit of it fell.
    ensures subscribers { result.journal.imsis ≡ journal.imsis }
    ensures all { result.journal.all ≡ journal.all }
    ensures leaves { LeavesMore D.seen D.may_leave D.moment D.left_since journal result.journal }
    ensures near { IfOk result.result (λ done.
        StaysNear D.seen D.may_leave D.moment D.left_since journal done.words result.journal) }
    ensures stop { IfOk result.result (λ done. TellsStop D.faults journal done.stop result.journal) }
{
    match open_book(alloc, round, &journal) {
        Ok(opened) => {
            let worked = work_all::<Brand, D, G, R>(rt, alloc, round, opened, journal, gate);
            settle(alloc, round, worked)
        }
        Err(error) => Pieces {
            journal,
            result: Err(error),
        },
    }
}
