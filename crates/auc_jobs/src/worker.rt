//! What serves a job.

ghost use Rattle.std.specs.Prelude.{◌≡◌, [], IfOk, IsOk, OnOk};
ghost use Rattle.auc_jobs.specs.InnerUsims.{usim_of};
ghost use Rattle.auc_jobs.specs.InnerWorker.{WorkerState, AreForRows};
ghost use Rattle.auc_jobs.specs.Usims.{HaveSecrets};

use crate::job_lines::JobLines;
use crate::jobs::give_back;
use auc_memory::NoMemory;
use auc_released::Numbers;
use auc_vector::Centre;
use auc_world::{JobRecord, Setting, World};
use std::alloc::Global;
use std::marker::Model;
use std::mem;

/// What one worker has while it serves a job: a centre that is lent to it, what the job is served with, the numbers that were
/// released in earlier rounds, the job's network with its devices, and the job's lines so far. Contracts see all of them. The
/// centre and the devices are those of the setting's subscribers.
#[derive(Drop)]
pub(crate) struct Worker<'a, C: Centre> {
    pub(crate) centre: &'a mut C,
    pub(crate) set: &'a Setting<'a>,
    pub(crate) released: &'a Numbers,
    pub(crate) world: World,
    pub(crate) lines: JobLines,
}

impl<'a, C: Centre> Model for Worker<'a, C> {
    ghost use Rattle.auc_jobs.specs.InnerWorker.{WorkerState, AreForRows};

    ghost Value = { WorkerState C };

    ghost view = { λ w. record {
      centre = w.centre.now;
      lent = w.centre.ghost_name;
      set = w.set.now;
      released = w.released.now;
      world = w.world;
      lines = w.lines;
    } };

    ghost invariant = { λ w. AreForRows w.set.now.rows (C.subs w.centre.now) (C.top w.centre.now) w.world };
}

impl<'a, C: Centre> Worker<'a, C> {
    /// A worker that has served no line of a job.
    pub(crate) fn new(
        alloc: Global,
        centre: &'a mut C,
        set: &'a Setting<'a>,
        released: &'a Numbers,
        world: World,
    ) -> Worker<'a, C>
        requires { AreForRows set.now.rows (C.subs centre.old) (C.top centre.old) world }
        ensures { result ≡ record {
          centre = centre.old;
          lent = centre.entry.ghost_name;
          set = set.now;
          released = released.now;
          world = world;
          lines = [];
        } }
    {
        Worker {
            centre,
            set,
            released,
            world,
            lines: JobLines::new(alloc),
        }
    }

    /// Ends the job: takes its lines and its network, if all of it was served.
    pub(crate) fn end(
        &mut self,
        alloc: Global,
        served: Result<(), NoMemory>,
    ) -> Result<(JobRecord, World), NoMemory>
        ensures served { OnOk result (IsOk served) }
        ensures lines { IfOk result (λ taken. taken.0 ≡ self.old.lines) }
        ensures world { IfOk result (λ taken. taken.1 ≡ self.old.world) }
        ensures secrets { IfOk result (λ taken. HaveSecrets self.old.set.rows (usim_of self.old.set.rows taken.1)) }
        ensures centre { self.new.centre ≡ self.old.centre }
        ensures lent { self.new.lent ≡ self.old.lent }
    {
        served?;
        let empty = World::new(alloc, Vec::new(alloc), Vec::new(alloc))?;
        let lines = mem::replace(&mut self.lines, JobLines::new(alloc));
        let world = mem::replace(&mut self.world, empty);
        Ok((lines.into_lines(), world))
    }

    /// Gives the centre back.
    pub(crate) fn into_centre(self) -> &'a mut C
        ensures lent { result.ghost_name ≡ self.entry.lent }
        ensures centre { result.now ≡ self.entry.centre }
    {
        let (centre, lines, world) = self.into_parts();
        give_back(lines, world);
        centre
    }

    /// The centre, and the lines and the network of the job.
    fn into_parts(self) -> (&'a mut C, JobRecord, World)
        ensures lent { result.0.ghost_name ≡ self.entry.lent }
        ensures centre { result.0.now ≡ self.entry.centre }
    {
        let Worker {
            centre,
            world,
            lines,
            ..
        } = self;
        (centre, lines.into_lines(), world)
    }
}
