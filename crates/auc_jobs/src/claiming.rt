//! What a worker does: it claims jobs and serves them, one after the other.

ghost use Rattle.std.specs.Prelude.{◌≡◌, ◌<◌, ℕ, [], None, List, length, IfOk, OnOk};
ghost use Rattle.auc_centre.specs.Adds.{AddsAtDesk, kept_by};
ghost use Rattle.auc_centre.specs.Kept.{subs_of};
ghost use Rattle.auc_draw.specs.Book.{IsNew, IsOf};
ghost use Rattle.auc_record.specs.declared.record.LineRecord.{LineRecord};
ghost use Rattle.auc_jobs.specs.InnerClaims.{HasFinished, IsBetween, IsDone, TakesTurn};
ghost use Rattle.auc_jobs.specs.InnerSharing.{BeginsAt, IsShared, ServesAt};

use crate::jobs::ServedJob;
use crate::round_jobs::RoundJobs;
use auc_centre::{Desk, Naming, RoundKeeper};
use auc_disk::Disk;
use auc_draw::{Book, Pass};
use auc_edge::Gate;
use auc_memory::NoMemory;
use std::alloc::Global;
use std::sync::{Mutex, Wait};

/// A job that a worker claimed and served: its place among the round's jobs, and what it gave.
#[derive(Drop)]
pub(crate) struct ClaimedJob {
    pub(crate) job: u32,
    pub(crate) served: ServedJob,
}

/// What a worker comes to: its pass, the jobs that it served, and whether it had the memory for all that it claimed.
#[derive(Drop)]
pub(crate) struct WorkerJobs {
    pub(crate) pass: Pass,
    pub(crate) jobs: Vec<ClaimedJob>,
    pub(crate) is_whole: bool,
}

/// What the workers of a round share: the round, its book, the keeper of its journal in a lock, and its gate.
#[derive(Drop)]
pub(crate) struct SharedRound<'a, L: Naming<D>, D: Disk + Drop, G: Gate> {
    pub(crate) round: &'a RoundJobs<'a>,
    pub(crate) book: &'a Book,
    pub(crate) keeper: &'a Mutex<RoundKeeper<L, D>>,
    pub(crate) gate: &'a G,
}

impl<L: Naming<D>, D: Disk + Drop, G: Gate> SharedRound<'_, L, D, G> {
    /// Serves the job of a place at the desk of a pass.
    fn serve_at_desk<R: Wait>(
        &self,
        rt: &R,
        alloc: Global,
        pass: &mut Pass,
        job: u32,
    ) -> Result<ServedJob, NoMemory>
        requires shared { IsShared L.table L.tops (subs_of L.opening) self.now.round.now self.now.book.now }
        requires own { IsOf L.table L.tops pass.old }
        requires job { job < length self.now.round.now.jobs }
        requires begins { (early : List LineRecord) × (beside : List LineRecord)
            × BeginsAt self.now.round.now early beside (kept_by pass.old) job }
        ensures own { IsOf L.table L.tops pass.new }
        ensures served { IfOk result (λ served. ServesAt (λ i es ws. AddsAtDesk pass.old i es ws pass.new)
            (kept_by pass.old) (kept_by pass.new) self.now.round.now job served) }
    {
        let mut desk = Desk {
            pass,
            book: self.book,
            keeper: self.keeper,
        };
        let round = self.round;
        round.serve_at(rt, alloc, &mut desk, job)
    }
}

/// Claims a job and serves it. The answer is whether there was one.
fn serve_next<L: Naming<D>, D: Disk + Drop, G: Gate, R: Wait>(
    rt: &R,
    alloc: Global,
    shared: &SharedRound<L, D, G>,
    pass: &mut Pass,
    done: &mut Vec<ClaimedJob>,
) -> Result<bool, NoMemory>
    requires shared { IsShared L.table L.tops (subs_of L.opening) shared.now.round.now shared.now.book.now }
    requires own { IsOf L.table L.tops pass.old }
    requires claims { pass.old.ended ≡ None }
    requires stands { (early : List LineRecord) × IsBetween shared.now.round.now early pass.old done.old.items }
    ensures own { IsOf L.table L.tops pass.new }
    ensures turn { IfOk result (λ more.
        TakesTurn shared.now.round.now more pass.old done.old.items pass.new done.new.items) }
{
    let Some(job) = pass.claim(shared.book, shared.round.count()) else {
        return Ok(false);
    };
    shared.gate.enter(rt, job + 1);
    let served = shared.serve_at_desk(rt, alloc, pass, job)?;
    shared.gate.leave(rt, job + 1);
    done.push(ClaimedJob { job, served })?;
    Ok(true)
}

/// Claims jobs and serves them, until there is none left.
fn serve_claims<L: Naming<D>, D: Disk + Drop, G: Gate, R: Wait>(
    rt: &R,
    alloc: Global,
    shared: &SharedRound<L, D, G>,
    pass: &mut Pass,
    done: &mut Vec<ClaimedJob>,
) -> Result<(), NoMemory>
    requires shared { IsShared L.table L.tops (subs_of L.opening) shared.now.round.now shared.now.book.now }
    requires new { IsNew L.table L.tops pass.old }
    requires none { done.old.items ≡ [] }
    ensures own { IsOf L.table L.tops pass.new }
    ensures finished { OnOk result (HasFinished shared.now.round.now pass.new done.new.items) }
{
    for _turn in 0..shared.round.count() {
        if !serve_next(rt, alloc, shared, pass, done)? {
            return Ok(());
        }
    }
    Ok(())
}

/// Serves jobs with a pass until none is left, or until memory runs out.
pub(crate) fn work<L: Naming<D>, D: Disk + Drop, G: Gate, R: Wait>(
    rt: &R,
    alloc: Global,
    shared: &SharedRound<L, D, G>,
    mut pass: Pass,
) -> WorkerJobs
    requires shared { IsShared L.table L.tops (subs_of L.opening) shared.now.round.now shared.now.book.now }
    requires new { IsNew L.table L.tops pass }
    ensures { IsDone L.table L.tops shared.now.round.now result }
{
    let mut jobs = Vec::new(alloc);
    let is_whole = serve_claims(rt, alloc, shared, &mut pass, &mut jobs).is_ok();
    WorkerJobs {
        pass,
        jobs,
        is_whole,
    }
}
