//! Serving a job, and what the jobs of a round gave.

ghost use Rattle.std.specs.Prelude.{◌≡◌, ◌++◌, ◌∷◌, [], true, All, ℕ, map, OnOk, IfOk, if◌then◌else◌};
ghost use Rattle.auc_lines.specs.Part.{holds, is_held_by};
ghost use Rattle.auc_world.specs.Given.{LineGives};
ghost use Rattle.auc_world.specs.Sessions.{job_sessions};
ghost use Rattle.auc_record.specs.Vectors.{IsReleasableLine, vectors_in};
ghost use Rattle.auc_jobs.specs.Serving.{IsKnownLine, AreKnown};
ghost use Rattle.auc_jobs.specs.InnerUsims.{has_usim, usim_of};
ghost use Rattle.auc_jobs.specs.InnerWorker.{GoesOnWith, WorkerServes, WorkerServesLines, start_world};
ghost use Rattle.auc_jobs.specs.Usims.{AreOfRows};

use crate::worker::Worker;
use auc_cards::{Cards, JobDevices};
use auc_lines::Line;
use auc_memory::{Items, NoMemory};
use auc_vector::Centre;
use auc_world::{Event, JobRecord, JobSessions, JobVectors, Setting, World, printed_vectors};
use std::alloc::Global;
use std::sync::Wait;

/// What a job gave: its lines, its own devices after them, what its sessions came to, and in a full print the vectors of its
/// lines.
#[derive(Drop)]
pub(crate) struct ServedJob {
    pub(crate) lines: JobRecord,
    pub(crate) devices: JobDevices,
    pub(crate) sessions: JobSessions,
    pub(crate) vectors: JobVectors,
}

/// What the jobs of a round gave, each in its place; the vectors only in a full print.
#[derive(Drop)]
pub(crate) struct ServedJobs {
    pub(crate) records: Items<JobRecord>,
    pub(crate) devices: Items<JobDevices>,
    pub(crate) sessions: Items<JobSessions>,
    pub(crate) vectors: Items<JobVectors>,
}

impl ServedJobs {
    /// No jobs yet.
    pub(crate) fn new(alloc: Global) -> ServedJobs
        ensures { result ≡ record { records = []; devices = []; sessions = []; vectors = [] } }
    {
        ServedJobs {
            records: Items::new(alloc),
            devices: Items::new(alloc),
            sessions: Items::new(alloc),
            vectors: Items::new(alloc),
        }
    }

    /// Adds what the next job gave.
    pub(crate) fn push(&mut self, job: ServedJob, full: bool) -> Result<(), NoMemory>
        ensures records { OnOk result (self.new.records ≡ self.old.records ++ job.lines ∷ []) }
        ensures devices { OnOk result (self.new.devices ≡ self.old.devices ++ job.devices ∷ []) }
        ensures sessions { OnOk result (self.new.sessions ≡ self.old.sessions ++ job.sessions ∷ []) }
        ensures vectors { OnOk result (self.new.vectors ≡ (if full then self.old.vectors ++ job.vectors ∷ [] else self.old.vectors)) }
    {
        let ServedJob {
            lines,
            devices,
            sessions,
            vectors,
        } = job;
        let records = self.records.push(lines);
        let devices = self.devices.push(devices);
        let sessions = self.sessions.push(sessions);
        let vectors = push_if(full, &mut self.vectors, vectors);
        records?;
        devices?;
        sessions?;
        vectors?;
        Ok(())
    }
}

/// Adds the vectors of a job in a full print.
fn push_if(full: bool, all: &mut Items<JobVectors>, vectors: JobVectors) -> Result<(), NoMemory>
    ensures { OnOk result (all.new ≡ (if full then all.old ++ vectors ∷ [] else all.old)) }
{
    if full { all.push(vectors) } else { Ok(()) }
}

impl<C: Centre> Worker<'_, C> {
    /// Serves a line of a job.
    fn serve_line<R: Wait>(&mut self, rt: &R, alloc: Global, line: &Line) -> Result<(), NoMemory>
        requires known { IsKnownLine self.old.set.rows line.now }
        requires own { (sub : ℕ) → is_held_by sub line.now ≡ true
            → has_usim (usim_of self.old.set.rows self.old.world) sub ≡ true }

        ensures served { OnOk result (WorkerServes C.kept C.goes self.old self.new
            (λ before lines. LineGives self.old.set before self.old.world.net line.now lines self.new.world.net)) }
        ensures same { GoesOnWith (C.name self.old.centre) (C.name self.new.centre) self.old self.new }
    {
        match *line {
            Line::Draw { sub, count } => self.draw(rt, sub, count),
            Line::Sync { sub, report, count } => self.sync(rt, sub, report, count),
            Line::Give { sub, n } => self.give(sub, n),
            Line::Eps { sub, snid } => self.eps(rt, alloc, sub, snid),
            Line::Fiveg(ref line) => self.fiveg(rt, alloc, line),
            Line::Sites(ref line) => self.sites(rt, alloc, line),
            Line::Sim(ref line) => self.sim(rt, alloc, line),
            Line::Session(ref line) => self.open(rt, alloc, line),
            Line::Start(session) => self.happen_alone(rt, alloc, Event::Start(session)),
            Line::Deliver {
                session,
                end,
                packet,
            } => self.happen_alone(
                rt,
                alloc,
                Event::Deliver {
                    session,
                    end,
                    packet,
                },
            ),
            Line::Repeat(session) => self.happen_alone(rt, alloc, Event::Repeat(session)),
            Line::GiveUp { session, end } => self.happen_alone(
                rt,
                alloc,
                Event::GiveUp { session, end },
            ),
            Line::Plain(session) => self.play(rt, alloc, session),
            Line::Tamper {
                packet,
                place,
                byte,
            } => self.happen_alone(
                rt,
                alloc,
                Event::Tamper {
                    packet,
                    place,
                    byte,
                },
            ),
            Line::Cut { packet, length } => self.happen_alone(
                rt,
                alloc,
                Event::Cut { packet, length },
            ),
        }
    }

    /// Serves the lines of a job.
    pub(crate) fn serve_lines<R: Wait>(
        &mut self,
        rt: &R,
        alloc: Global,
        job: &[Line],
    ) -> Result<(), NoMemory>
        requires known { AreKnown self.old.set.rows job.now }
        requires own { (sub : ℕ) → holds sub job.now ≡ true
            → has_usim (usim_of self.old.set.rows self.old.world) sub ≡ true }
        requires none { self.old.lines ≡ [] }

        ensures served { OnOk result (WorkerServesLines C.kept C.goes self.old self.new job.now) }
        ensures same { GoesOnWith (C.name self.old.centre) (C.name self.new.centre) self.old self.new }
    {
        for line in job {
            self.serve_line(rt, alloc, line)?;
        }
        Ok(())
    }
}

/// The network with which a job begins: its homes, and devices with copies of the USIMs that it holds and of what these keep.
pub(crate) fn job_world(
    alloc: Global,
    set: &Setting,
    cards: &Cards,
    job: &[Line],
) -> Result<World, NoMemory>
    requires rows { AreOfRows set.now.rows cards.now.usims }
    requires known { AreKnown set.now.rows job.now }
    ensures { IfOk result (λ world. world ≡ start_world set.now cards.now.usims cards.now.kept job.now) }
{
    let (homes, devices) = JobDevices::of_job(alloc, set, cards, job)?.into_parts();
    World::new(alloc, homes, devices)
}

/// What the sessions of a job came to, and the vectors of its lines.
fn told(
    alloc: Global,
    set: &Setting,
    full: bool,
    lines: &JobRecord,
    world: &World,
) -> Result<(JobSessions, JobVectors), NoMemory>
    requires { All (IsReleasableLine set.now) lines.now }
    ensures sessions { IfOk result (λ told. told.0 ≡ job_sessions world.now.net) }
    ensures vectors { IfOk result (λ told. told.1 ≡ (if full then vectors_in set.now lines.now else [])) }
{
    let vectors = printed_vectors(alloc, set, lines.as_slice(), full)?;
    Ok((world.sessions(alloc)?, vectors))
}

/// Gives the lines and the network of a job back.
pub(crate) fn give_back(_lines: JobRecord, _world: World) {}

/// What a job gave whose lines are these, and whose network came to this.
pub(crate) fn served_job(
    alloc: Global,
    set: &Setting,
    full: bool,
    lines: JobRecord,
    world: World,
) -> Result<ServedJob, NoMemory>
    requires { All (IsReleasableLine set.now) lines }
    ensures lines { IfOk result (λ served. served.lines ≡ lines) }
    ensures homes { IfOk result (λ served. served.devices.homes ≡ world.net.homes) }
    ensures devices { IfOk result (λ served. served.devices.devices ≡ world.devices) }
    ensures stores { IfOk result (λ served. map (λ device. device.store) served.devices.devices ≡ world.net.stores) }
    ensures sessions { IfOk result (λ served. served.sessions ≡ job_sessions world.net) }
    ensures vectors { IfOk result (λ served. served.vectors ≡ (if full then vectors_in set.now lines else [])) }
{
    match told(alloc, set, full, &lines, &world) {
        Ok((sessions, vectors)) => {
            let (homes, devices) = world.parts();
            Ok(ServedJob {
                lines,
                devices: JobDevices::new(homes, devices),
                sessions,
                vectors,
            })
        }
        Err(error) => {
            give_back(lines, world);
            Err(error)
        }
    }
}
