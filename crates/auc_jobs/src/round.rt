//! Serving a round.

ghost use Rattle.std.specs.Prelude.{◌≡◌, ◌≢◌, ◌≤◌, ◌<◌, ◌^◌, ◌+◌, ◌++◌, ◌↔◌, [], ℕ, true, Some, List, All, map, IfOk, OnErr, if◌then◌else◌};
ghost use Rattle.auc_memory.specs.Faults.{Rose};
ghost use Rattle.auc_memory.specs.declared.stop.Stop.TheVariants.{Fault, Full};
ghost use Rattle.auc_sqn.specs.Number.{max_seq};
ghost use Rattle.auc_record.specs.Lines.{all_lines};
ghost use Rattle.auc_world.specs.Round.{Withholds};
ghost use Rattle.auc_record.specs.Vectors.{vectors_in};
ghost use Rattle.auc_record.specs.declared.record.LineRecord.{LineRecord};
ghost use Rattle.auc_jobs.specs.InnerRound.{AreServed, LeadsOn};
ghost use Rattle.auc_jobs.specs.Round.{IsJournalOf, IsRound, LeavesMore, ServesRound};
ghost use Rattle.auc_jobs.specs.State.{StandsAt};

use crate::jobs::ServedJobs;
use crate::round_jobs::RoundJobs;
use crate::state::State;
use crate::workers::{Pieces, RoundPieces, serve_pieces};
use auc_disk::Disk;
use auc_edge::Gate;
use auc_journal::Journal;
use auc_lines::JobPart;
use auc_memory::{Items, NoMemory, Stop};
use auc_world::{
    Closing, JobVectors, Premise, RoundRecord, SessionVerdict, Setting, closings, counts,
    round_premise, round_verdicts,
};
use std::alloc::Global;
use std::sync::Wait;
use std::thread::Threads;

/// A round to be served: its number, its jobs, and what they are served with.
#[derive(Drop)]
pub struct Round<'a> {
    /// Its number, from 1.
    pub number: u64,
    /// The lines of its jobs.
    pub jobs: &'a [JobPart],
    /// The subscribers and the keys.
    pub set: &'a Setting<'a>,
    /// Whether the vectors of the lines are printed.
    pub full: bool,
    /// By how many workers it is served, 1 to 64.
    pub workers: u32,
}

/// What a round did: its record, and in a full print the vectors of its jobs' lines.
#[derive(Drop)]
pub struct Ran {
    /// The record.
    pub round: RoundRecord,
    /// The vectors that each job's lines release, in the order of the jobs; none in a brief print.
    pub vectors: Items<JobVectors>,
    /// Why reservations ended in this round, if they did. That the journal is full is told only if a number was withheld.
    pub stop: Option<Stop>,
}

/// A round that was served, or why it wasn't, and the state and the journal then.
#[derive(Drop)]
pub struct Served<D: Disk + Drop> {
    /// The journal. If memory ran out, its limits may have risen.
    pub journal: Journal<D>,
    /// What the next round begins with. If memory ran out, it is the state before the round.
    pub state: State,
    /// What the round did.
    pub result: Result<Ran, NoMemory>,
}

/// Serves a round, by workers in threads of their own: opens each subscriber at its word of the state, has the workers claim the
/// jobs and serve them, each with its own copies of the USIMs that it holds and of what their homes and devices keep, closes the
/// subscribers, and puts the copies back. A number is released only if the journal has reserved it. If an append is refused, the
/// round goes on within the limits. The gate is told before a job and after its last line, by its number from 1.
pub fn serve<D: Disk + Drop + Send, G: Gate + Sync, R: Threads + Wait + Sync>(
    rt: &R,
    alloc: Global,
    round: &Round,
    mut state: State,
    journal: Journal<D>,
    gate: &G,
) -> Served<D>
    requires round { IsRound round.now.set.now round.now.jobs.now round.now.workers }
    requires state { (early : List LineRecord) × StandsAt round.now.set.now early state }
    requires journal { IsJournalOf round.now.set.now.rows journal }
    ensures served { IfOk result.result (λ ran. (early : List LineRecord) → StandsAt round.now.set.now early state
        → ServesRound D.seen D.may_leave D.moment D.left_since round.now.set.now early state round.now.jobs.now
        ran.round ran.stop journal result.state result.journal) }
    ensures next { IfOk result.result (λ ran. (early : List LineRecord)
        → StandsAt round.now.set.now early state
        → StandsAt round.now.set.now (early ++ all_lines ran.round.jobs) result.state) }
    ensures number { IfOk result.result (λ ran. ran.round.number ≡ round.now.number) }
    ensures vectors { IfOk result.result (λ ran. ran.vectors
        ≡ (if round.now.full then map (vectors_in round.now.set.now) ran.round.jobs else [])) }
    ensures kept { OnErr result.result (result.state ≡ state) }

    // The journal is of the same subscribers. An append failed exactly if reservations ended for a fault.
    ensures subscribers { result.journal.imsis ≡ journal.imsis }
    ensures all { result.journal.all ≡ journal.all }
    ensures ready { IfOk result.result (λ ran. (result.journal.failed ≡ true) ↔ (ran.stop ≡ Some Fault)) }
    ensures fault { IfOk result.result (λ ran. ran.stop ≡ Some Fault
        → Rose (D.faults journal.disk) (D.faults result.journal.disk)) }
    ensures quiet { IfOk result.result (λ ran. ran.stop ≢ Some Fault
        → D.faults result.journal.disk ≡ D.faults journal.disk) }
    ensures full { IfOk result.result (λ ran. ran.stop ≡ Some Full → 2 ^ 30 < result.journal.place + 20) }
    ensures leaves { LeavesMore D.seen D.may_leave D.moment D.left_since journal result.journal }
{
    let jobs = RoundJobs {
        round: &*round,
        state: &state,
    };
    let pieces = serve_pieces(rt, alloc, &jobs, journal, gate);
    let Pieces { journal, result } = pieces;
    let result = match result {
        Ok(done) => finish(alloc, round, &mut state, done),
        Err(error) => Err(error),
    };
    Served {
        journal,
        state,
        result,
    }
}

/// What the record of a round has beside its number and the records of its jobs.
#[derive(Drop)]
struct Summary {
    closings: Items<Closing>,
    sessions: Items<SessionVerdict>,
    premise: Premise,
}

/// The summary of a round whose jobs gave this. The state is led to the next round.
fn sum_up(
    alloc: Global,
    round: &Round,
    state: &mut State,
    done: &RoundPieces,
) -> Result<Summary, NoMemory>
    requires round { IsRound round.now.set.now round.now.jobs.now round.now.workers }
    requires state { (early : List LineRecord) × StandsAt round.now.set.now early state.old }
    requires served { (early : List LineRecord) → StandsAt round.now.set.now early state.old
        → AreServed round.now.set.now early state.old.kept state.old.words round.now.jobs.now
        done.now.jobs.records done.now.jobs.devices done.now.jobs.sessions done.now.words }
    requires withholds { Withholds done.now.stop (all_lines done.now.jobs.records) }
    requires bound { All (λ word. word ≤ max_seq + 64) done.now.words }
    ensures leads { IfOk result (λ s. (number : ℕ) (early : List LineRecord) → StandsAt round.now.set.now early state.old
        → LeadsOn round.now.set.now done.now.stop early state.old round.now.jobs.now (record {
          number = number;
          jobs = done.now.jobs.records;
          closings = s.closings;
          sessions = s.sessions;
          premise = s.premise;
        }) done.now.words state.new) }
    ensures kept { OnErr result (state.new ≡ state.old) }
{
    let set = round.set;
    let records = done.jobs.records.as_slice();
    let counts = counts(alloc, state.words.len(), records)?;
    let closings = closings(
        alloc,
        state.words.as_slice(),
        done.words.as_slice(),
        &counts,
    )?;
    let verdicts = round_verdicts(alloc, done.jobs.sessions.as_slice())?;
    let premise = round_premise(done.jobs.sessions.as_slice());
    state.advance(
        alloc,
        set.subs,
        records,
        done.jobs.devices.as_slice(),
        done.words.as_slice(),
    )?;
    Ok(Summary {
        closings,
        sessions: verdicts,
        premise,
    })
}

/// What a round did whose jobs gave this. It leads the state to the next round.
fn finish(
    alloc: Global,
    round: &Round,
    state: &mut State,
    done: RoundPieces,
) -> Result<Ran, NoMemory>
    requires round { IsRound round.now.set.now round.now.jobs.now round.now.workers }
    requires state { (early : List LineRecord) × StandsAt round.now.set.now early state.old }
    requires served { (early : List LineRecord) → StandsAt round.now.set.now early state.old
        → AreServed round.now.set.now early state.old.kept state.old.words round.now.jobs.now
        done.jobs.records done.jobs.devices done.jobs.sessions done.words }
    requires withholds { Withholds done.stop (all_lines done.jobs.records) }
    requires bound { All (λ word. word ≤ max_seq + 64) done.words }
    ensures leads { IfOk result (λ ran. (early : List LineRecord) → StandsAt round.now.set.now early state.old
        → LeadsOn round.now.set.now done.stop early state.old round.now.jobs.now ran.round done.words state.new) }
    ensures number { IfOk result (λ ran. ran.round.number ≡ round.now.number) }
    ensures parts { IfOk result (λ ran. (ran.round.jobs ≡ done.jobs.records)
        × (ran.vectors ≡ done.jobs.vectors) × (ran.stop ≡ done.stop)) }
    ensures kept { OnErr result (state.new ≡ state.old) }
{
    match sum_up(alloc, round, state, &done) {
        Ok(summary) => Ok(record_round(round.number, summary, done)),
        Err(error) => {
            give_back(done);
            Err(error)
        }
    }
}

/// Gives what the jobs of a round gave back.
fn give_back(_done: RoundPieces) {}

/// What a round of this number did, whose jobs gave this.
fn record_round(number: u64, summary: Summary, done: RoundPieces) -> Ran
    ensures { result ≡ record {
      round = record {
        number = number;
        jobs = done.jobs.records;
        closings = summary.closings;
        sessions = summary.sessions;
        premise = summary.premise;
      };
      vectors = done.jobs.vectors;
      stop = done.stop;
    } }
{
    let Summary {
        closings,
        sessions,
        premise,
    } = summary;
    let RoundPieces {
        jobs: given,
        stop,
        ..
    } = done;
    let ServedJobs {
        records,
        vectors,
        ..
    } = given;
    Ran {
        round: RoundRecord {
            number,
            jobs: records,
            closings,
            sessions,
            premise,
        },
        vectors,
        stop,
    }
}
