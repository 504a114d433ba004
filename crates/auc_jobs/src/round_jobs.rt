//! A job of a round, served at a centre.

ghost use Rattle.std.specs.Prelude.{◌≡◌, ◌<◌, ℕ, List, length, IfOk};
ghost use Rattle.auc_record.specs.declared.record.LineRecord.{LineRecord};
ghost use Rattle.auc_jobs.specs.InnerSharing.{BeginsAt, IsServable, ServesAt};
ghost use Rattle.auc_jobs.specs.InnerWorker.{IsCentreOf};

use crate::jobs::{ServedJob, job_world, served_job};
use crate::round::Round;
use crate::state::State;
use crate::worker::Worker;
use auc_memory::NoMemory;
use auc_vector::Centre;
use std::alloc::Global;
use std::marker::Model;
use std::sync::Wait;

/// A round and the state that it is served from: what its workers share beside its book. Contracts see all of it.
#[derive(Drop)]
pub(crate) struct RoundJobs<'a> {
    pub(crate) round: &'a Round<'a>,
    /// The state after the earlier rounds.
    pub(crate) state: &'a State,
}

impl<'a> Model for RoundJobs<'a> {
    ghost use Rattle.auc_jobs.specs.InnerSharing.{Shared};

    ghost Value = { Shared };

    ghost view = { λ r. record {
      set = r.round.now.set.now;
      jobs = r.round.now.jobs.now;
      full = r.round.now.full;
      workers = r.round.now.workers;
      state = r.state.now;
    } };
}

impl RoundJobs<'_> {
    /// How many jobs there are.
    pub(crate) fn count(&self) -> u32
        requires { IsServable self.now }
        ensures { result ≡ length self.now.jobs }
    {
        self.round.jobs.len() as u32
    }

    /// Serves the job of a place at a centre.
    pub(crate) fn serve_at<C: Centre, R: Wait>(
        &self,
        rt: &R,
        alloc: Global,
        centre: &mut C,
        job: u32,
    ) -> Result<ServedJob, NoMemory>
        requires servable { IsServable self.now }
        requires centre { IsCentreOf self.now.set.rows (C.subs centre.old) (C.top centre.old) }
        requires job { job < length self.now.jobs }
        requires begins { (early : List LineRecord) × (beside : List LineRecord)
            × BeginsAt self.now early beside (C.kept centre.old) job }
        ensures name { C.name centre.new ≡ C.name centre.old }
        ensures served { IfOk result (λ served. ServesAt (λ i es ws. C.goes centre.old i es ws centre.new)
            (C.kept centre.old) (C.kept centre.new) self.now job served) }
    {
        let round = self.round;
        let state = self.state;
        let asked = round.jobs[job as usize].as_slice();
        let world = job_world(alloc, round.set, state.cards(), asked)?;
        let mut worker = Worker::new(alloc, centre, round.set, state.released(), world);
        let served = worker.serve_lines(rt, alloc, asked);
        let ended = worker.end(alloc, served);
        let _centre = worker.into_centre();
        let (lines, world) = ended?;
        served_job(alloc, round.set, round.full, lines, world)
    }
}
