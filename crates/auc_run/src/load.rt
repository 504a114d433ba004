//! The form `load KEY SUBSCRIBERS JOBS WORKERS`: one round of draws over a journal in memory, and the digest of its vectors.

ghost use Rattle.std.specs.Prelude.{◌≡◌, ◌≤◌, ℕ, List, [], AllPairs, None, Some, OnOk, IfOk, IfErr, Err, length, map};
ghost use Rattle.auc_edge.specs.Sink.{Appends};
ghost use Rattle.auc_jobs.specs.Round.{IsJournalOf};
ghost use Rattle.auc_jobs.specs.Serving.{AreAllKnown};
ghost use Rattle.auc_lines.specs.Part.{AreApart};
ghost use Rattle.auc_load.specs.Input.{load_rows};
ghost use Rattle.auc_load.specs.Summary.{load_closings, load_text};
ghost use Rattle.auc_load.specs.Words.{IsLoad, load_named};
ghost use Rattle.auc_load.specs.declared.words.LoadWords.{LoadWords};
ghost use Rattle.auc_script.specs.Numbers.{most_jobs, most_workers};
ghost use Rattle.auc_subs.specs.Subscriber.{AreSubscribers};
ghost use Rattle.auc_world.specs.Round.{IsLawfulRound};
ghost use Rattle.auc_world.specs.Start.{Kept};
ghost use Rattle.auc_refusal.specs.Refusal.{status_in};
ghost use Rattle.auc_refusal.specs.Told.{OutputStops};
ghost use Rattle.auc_run.specs.Inner.{LoadStops};
ghost use Rattle.auc_refusal.specs.Faults.{RoseAt};
ghost use Rattle.auc_run.specs.Outcome.{EndsLoad, RunsLoad};

use auc_disk::{FailList, MemDisk};
use auc_edge::{Gate, Sink, write_whole};
use auc_ident::Names;
use auc_input::open_journal;
use auc_jobs::{Ran, Round, Served, State, serve};
use auc_journal::Journal;
use auc_lines::JobPart;
use auc_load::{LoadWords, jobs, key_of, load_words, subscribers, summary};
use auc_memory::{Items, NoMemory, Octets};
use auc_random::Rands;
use auc_refusal::Refusal;
use auc_subs::Subscribers;
use auc_world::{Closing, RoundRecord, Setting};
use std::alloc::Global;
use std::sync::Wait;
use std::thread::Threads;

/// Serves a load and writes its lines, if the words are those of a load.
pub(crate) fn run_load<R: Threads + Wait + Sync, K: Sink, G: Gate + Sync>(
    rt: &R,
    alloc: Global,
    words: &[Octets],
    out: &mut K,
    gate: &G,
) -> Result<(), Refusal>
    ensures done { OnOk result (RunsLoad words.now (K.written out.old) (K.written out.new)) }
    ensures refused { IfErr result (LoadStops words.now) }
    ensures ran { (load : LoadWords) → load_named words.now ≡ Some load
        → EndsLoad load (status_in result) (K.written out.old) (K.written out.new) }
    ensures silent { result ≡ Err Refusal.Usage → K.written out.new ≡ K.written out.old }
    ensures output { RoseAt Refusal.WriteFault result (K.faults out.old) (K.faults out.new) }
{
    match load_words(words) {
        Some(load) => write_load(rt, alloc, &load, out, gate),
        None => Err(Refusal::Usage),
    }
}

/// Serves a load, and then writes its lines.
fn write_load<R: Threads + Wait + Sync, K: Sink, G: Gate + Sync>(
    rt: &R,
    alloc: Global,
    load: &LoadWords,
    out: &mut K,
    gate: &G,
) -> Result<(), Refusal>
    requires { IsLoad load.now }
    ensures written { OnOk result (Appends (K.written out.old) (K.written out.new) (load_text load.now)) }
    ensures refused { IfErr result OutputStops }
    ensures ran { EndsLoad load.now (status_in result) (K.written out.old) (K.written out.new) }
    ensures output { RoseAt Refusal.WriteFault result (K.faults out.old) (K.faults out.new) }
{
    let text = load_lines(rt, alloc, load, gate)?;
    write_whole(out, text.as_slice())?;
    Ok(())
}

/// Serves a load, and makes its lines.
fn load_lines<R: Threads + Wait + Sync, G: Gate + Sync>(
    rt: &R,
    alloc: Global,
    load: &LoadWords,
    gate: &G,
) -> Result<Octets, NoMemory>
    requires { IsLoad load.now }
    ensures { IfOk result (λ text. text ≡ load_text load.now) }
{
    let subs = subscribers(alloc, load)?;
    let closings = serve_load(rt, alloc, load, &subs, gate)?;
    summary(rt, alloc, load, &subs, closings.as_slice())
}

/// Serves the round of a load, and gives its closings: each subscriber is closed after the vectors that its jobs draw.
fn serve_load<R: Threads + Wait + Sync, G: Gate + Sync>(
    rt: &R,
    alloc: Global,
    load: &LoadWords,
    subs: &Subscribers,
    gate: &G,
) -> Result<Items<Closing>, NoMemory>
    requires load { IsLoad load.now }
    requires subscribers { subs.now ≡ load_rows load.now }
    ensures { IfOk result (λ closings. closings ≡ load_closings load.now) }
{
    let key = key_of(load.key);
    let rands = Rands::new(key);
    let names = Names::new(key);
    let set = Setting {
        subs,
        rands: &rands,
        names: &names,
        realm: b"".as_slice(),
    };
    let jobs = jobs(alloc, load)?;
    let ran = serve_once(rt, alloc, &set, jobs.as_slice(), load.workers, gate)?;
    closings_of(ran)
}

/// Serves one round over an empty journal in memory.
fn serve_once<R: Threads + Wait + Sync, G: Gate + Sync>(
    rt: &R,
    alloc: Global,
    set: &Setting,
    jobs: &[JobPart],
    workers: u32,
    gate: &G,
) -> Result<Ran, NoMemory>
    requires known { AreAllKnown set.now.rows jobs.now }
    requires few { length jobs.now ≤ most_jobs }
    requires apart { AllPairs AreApart jobs.now }
    requires workers { (1 ≤ workers) × (workers ≤ most_workers) }
    ensures { IfOk result (λ ran. (kept : List Kept) × (words : List ℕ) × IsLawfulRound set.now ran.stop [] kept
        (map (λ row. row.seq) set.now.rows) jobs.now ran.round words) }
{
    let state = State::new(alloc, set.subs)?;
    // The value of the most parts is taken last: no early return has to give it back.
    let journal = empty_journal(alloc, set.subs)?;
    let round = Round {
        number: 1,
        jobs,
        set,
        full: false,
        workers,
    };
    ran_of(serve(rt, alloc, &round, state, journal, gate))
}

/// What a round did. The state and the journal are given back.
fn ran_of(served: Served<MemDisk>) -> Result<Ran, NoMemory>
    ensures { result ≡ served.result }
{
    let Served {
        journal,
        state,
        result,
    } = served;
    give_back(journal, state);
    result
}

/// Gives back the memory of a journal and of a state.
fn give_back(_journal: Journal<MemDisk>, _state: State) {}

/// The closings of a round in which reservations didn't end. All other memory is given back.
fn closings_of(ran: Ran) -> Result<Items<Closing>, NoMemory>
    ensures { IfOk result (λ closings. (ran.stop ≡ None) × (closings ≡ ran.round.closings)) }
{
    let stop = ran.stop;
    let closings = into_closings(ran);
    match stop {
        None => Ok(closings),
        Some(_) => Err(NoMemory),
    }
}

/// The closings of a round. All other memory is given back.
fn into_closings(ran: Ran) -> Items<Closing>
    ensures { result ≡ ran.round.closings }
{
    let Ran { round, .. } = ran;
    let RoundRecord { closings, .. } = round;
    closings
}

/// The journal of an empty disk in memory. A call of this disk fails only if memory runs out.
fn empty_journal(alloc: Global, subs: &Subscribers) -> Result<Journal<MemDisk>, NoMemory>
    ensures journal { IfOk result (IsJournalOf subs.now) }
    ensures subscribers { AreSubscribers subs.now }
{
    // (its clauses say what holds of all lists of subscribers)
    let _ = subs.len();
    let disk = MemDisk::new(alloc, Octets::new(alloc), FailList::new(alloc))?;
    match open_journal(alloc, disk, subs) {
        Ok(journal) => Ok(journal),
        Err(_) => Err(NoMemory),
    }
}
