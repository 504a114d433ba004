//! A round of plain lines, served over the subscribers that its lines name.

ghost use Rattle.std.specs.Prelude.{◌≡◌, ◌<◌, ◌≤◌, List, [], true, All, length, map, slice_index, IfOk, OnErr, OnOk, if◌then◌else◌};
ghost use Rattle.auc_jobs.specs.Serving.{AreAllKnown};
ghost use Rattle.auc_jobs.specs.State.{StandsAt};
ghost use Rattle.auc_lines.specs.declared.part.Line.{Line as LineOf};
ghost use Rattle.auc_named.specs.Named.{AreNamed, ArePlain, put_words, records_of, round_of};
ghost use Rattle.auc_record.specs.Record.{NamesBelow};
ghost use Rattle.auc_subs.specs.Setting.{Setting as SettingOf};
ghost use Rattle.auc_record.specs.Vectors.{IsReleasableLine, vectors_in};
ghost use Rattle.auc_record.specs.declared.record.LineRecord.{LineRecord};
ghost use Rattle.auc_run.specs.InnerNamed.{IsLed, IsServed, MayServe};

use crate::rounds::RunOptions;
use auc_disk::Disk;
use auc_edge::Gate;
use auc_jobs::{Ran, Round, Served, State, serve};
use auc_journal::Journal;
use auc_lines::JobPart;
use auc_memory::{Imsi, Items, NoMemory};
use auc_named::{Named, are_plain, name};
use auc_world::{JobRecord, JobVectors, Setting, printed_vectors};
use std::alloc::Global;
use std::sync::Wait;
use std::thread::Threads;

/// What a round begins with.
#[derive(Drop)]
pub(crate) struct Start<D: Disk + Drop> {
    pub(crate) number: u64,
    pub(crate) state: State,
    pub(crate) journal: Journal<D>,
}

/// Some of the subscribers by themselves, with the state with which their round begins, and their identities.
#[derive(Drop)]
struct Own {
    named: Named,
    state: State,
    imsis: Vec<Imsi>,
}

/// Serves a round: over the subscribers that its lines name, if these are plain and fewer than the subscribers, so that it
/// costs what it names; otherwise over all.
pub(crate) fn serve_start<R: Threads + Wait + Sync, D: Disk + Drop + Send, G: Gate + Sync>(
    rt: &R,
    alloc: Global,
    options: &RunOptions,
    jobs: &[JobPart],
    start: Start<D>,
    gate: &G,
) -> Served<D>
    requires may { MayServe options.now.set options.now.workers jobs.now start.state start.journal }
    ensures { IsServed D.seen D.may_leave D.faults D.moment D.left_since options.now.set options.now.full jobs.now
        start.number start.state start.journal result.result result.state result.journal }
{
    if !are_fewer(jobs, options.set.subs.len()) || !are_plain(jobs) {
        return serve_all(rt, alloc, options, jobs, start, gate);
    }
    match own_start(alloc, &options.set, jobs, &start.state) {
        Ok(own) => serve_own(rt, alloc, options, own, start, gate),
        Err(error) => {
            let Start { state, journal, .. } = start;
            Served {
                journal,
                state,
                result: Err(error),
            }
        }
    }
}

/// Whether the lines of jobs are fewer than so many subscribers.
fn are_fewer(jobs: &[JobPart], subs: u32) -> bool {
    let mut left = subs as usize;
    for job in jobs {
        if job.len() >= left {
            return false;
        }
        left -= job.len();
    }
    true
}

/// Serves a round over all subscribers.
fn serve_all<R: Threads + Wait + Sync, D: Disk + Drop + Send, G: Gate + Sync>(
    rt: &R,
    alloc: Global,
    options: &RunOptions,
    jobs: &[JobPart],
    start: Start<D>,
    gate: &G,
) -> Served<D>
    requires { MayServe options.now.set options.now.workers jobs.now start.state start.journal }
    ensures { IsServed D.seen D.may_leave D.faults D.moment D.left_since options.now.set options.now.full jobs.now
        start.number start.state start.journal result.result result.state result.journal }
{
    let Start {
        number,
        state,
        journal,
    } = start;
    let round = Round {
        number,
        jobs,
        set: &options.set,
        full: options.full,
        workers: options.workers,
    };
    serve(rt, alloc, &round, state, journal, gate)
}

/// The subscribers that plain lines name, each opened at its word.
fn own_start(alloc: Global, set: &Setting, jobs: &[JobPart], state: &State) -> Result<Own, NoMemory>
    requires known { AreAllKnown set.now.rows jobs.now }
    requires plain { ArePlain jobs.now }
    requires stands { (early : List LineRecord) × StandsAt set.now early state.now }
    ensures named { IfOk result (λ own. AreNamed set.now.rows jobs.now own.named.places own.named.rows own.named.jobs) }
    ensures identities { IfOk result (λ own. own.imsis.items ≡ map (λ row. row.imsi) own.named.rows) }
    ensures words { IfOk result (λ own. own.state.words
        ≡ map (λ place. slice_index state.now.words place) own.named.places) }
    ensures stands { IfOk result (λ own. (set : SettingOf) → set.rows ≡ own.named.rows → StandsAt set [] own.state) }
{
    let named = name(alloc, set.subs, jobs)?;
    let words = words_at(alloc, state, named.places())?;
    let imsis = named.imsis(alloc)?;
    let mut own = State::new(alloc, named.subs())?;
    own.open_at(words);
    Ok(Own {
        named,
        state: own,
        imsis,
    })
}

/// The words of the subscribers at some places.
fn words_at(alloc: Global, state: &State, places: &[u32]) -> Result<Vec<u64>, NoMemory>
    requires { All (λ place. place < length state.now.words) places.now }
    ensures { IfOk result (λ words. words.items ≡ map (λ place. slice_index state.now.words place) places.now) }
{
    let mut words = Vec::new(alloc);
    for place in places {
        words.push(state.word(*place))?;
    }
    Ok(words)
}

/// Serves the round of some subscribers, and says of all what came of it.
fn serve_own<R: Threads + Wait + Sync, D: Disk + Drop + Send, G: Gate + Sync>(
    rt: &R,
    alloc: Global,
    options: &RunOptions,
    own: Own,
    mut start: Start<D>,
    gate: &G,
) -> Served<D>
    requires may { (jobs : List (List LineOf)) × MayServe options.now.set options.now.workers jobs start.state start.journal
        × AreNamed options.now.set.rows jobs own.named.places own.named.rows own.named.jobs }
    requires identities { own.imsis.items ≡ map (λ row. row.imsi) own.named.rows }
    requires words { own.state.words ≡ map (λ place. slice_index start.state.words place) own.named.places }
    requires stands { (set : SettingOf) → set.rows ≡ own.named.rows → StandsAt set [] own.state }
    ensures { (jobs : List (List LineOf)) → AreNamed options.now.set.rows jobs own.named.places own.named.rows own.named.jobs
        → IsServed D.seen D.may_leave D.faults D.moment D.left_since options.now.set options.now.full jobs
        start.number start.state start.journal result.result result.state result.journal }
{
    let Own {
        named,
        state: own,
        imsis,
    } = own;
    start.journal.name_some(imsis);
    let set = Setting {
        subs: named.subs(),
        rands: options.set.rands,
        names: options.set.names,
        realm: options.set.realm,
    };
    let round = Round {
        number: start.number,
        jobs: named.jobs(),
        set: &set,
        full: false,
        workers: options.workers,
    };
    let Served {
        mut journal,
        state: next,
        result,
    } = serve(rt, alloc, &round, own, start.journal, gate);
    journal.name_all();
    let result = match result {
        Ok(ran) => of_all(alloc, options, &named, &mut start.state, &next, ran),
        Err(error) => Err(error),
    };
    Served {
        journal,
        state: start.state,
        result,
    }
}

/// Says of all subscribers what came of a round of some, and leads the state to the round after it. All memory is taken before
/// the state changes.
fn of_all(
    alloc: Global,
    options: &RunOptions,
    named: &Named,
    state: &mut State,
    next: &State,
    ran: Ran,
) -> Result<Ran, NoMemory>
    requires names { NamesBelow (length named.now.places) ran.round }
    requires within { All (λ place. place < length state.old.words) named.now.places }
    requires size { length next.now.words ≡ length named.now.places }
    requires few { length named.now.places ≤ 65536 }
    requires releasable { All (All (IsReleasableLine options.now.set)) (records_of named.now.places ran.round.jobs) }
    ensures round { IfOk result (λ all. (all.round ≡ round_of named.now.places ran.round) × (all.stop ≡ ran.stop)) }
    ensures vectors { IfOk result (λ all. all.vectors
        ≡ (if options.now.full then map (vectors_in options.now.set) all.round.jobs else [])) }
    ensures led { OnOk result (IsLed named.now.places next.now.words (records_of named.now.places ran.round.jobs)
        state.old state.new) }
    ensures kept { OnErr result (state.new ≡ state.old) }
{
    let Ran { round, stop, .. } = ran;
    let round = named.of_all(alloc, round)?;
    let vectors = all_vectors(alloc, options, round.jobs.as_slice())?;
    state.note(round.jobs.as_slice())?;
    lead(state, next, named.places());
    Ok(Ran {
        round,
        vectors,
        stop,
    })
}

/// The vectors that jobs' lines release, if they are printed.
fn all_vectors(
    alloc: Global,
    options: &RunOptions,
    records: &[JobRecord],
) -> Result<Items<JobVectors>, NoMemory>
    requires { All (All (IsReleasableLine options.now.set)) records.now }
    ensures { IfOk result (λ vectors. vectors
        ≡ (if options.now.full then map (vectors_in options.now.set) records.now else [])) }
{
    let mut all = Items::new(alloc);
    if !options.full {
        return Ok(all);
    }
    for lines in records {
        all.push(printed_vectors(alloc, &options.set, lines.as_slice(), true)?)?;
    }
    Ok(all)
}

/// Opens the next round at the words of some subscribers' state, each at its place.
fn lead(state: &mut State, next: &State, places: &[u32])
    requires within { All (λ place. place < length state.old.words) places.now }
    requires size { length next.now.words ≡ length places.now }
    requires few { length places.now ≤ 65536 }
    ensures { state.new ≡ record state.old { words = put_words state.old.words places.now next.now.words } }
{
    for i in 0..places.len() {
        state.set_word(places[i], next.word(i as u32));
    }
}
