//! The rounds and restarts of a scenario. A round is written when it has ended, and a restart with the round after it, or
//! at the end.

ghost use Rattle.std.specs.Prelude.{◌≡◌, ◌≢◌, ◌≤◌, ◌<◌, ◌+◌, ◌^◌, ◌++◌, ℕ, List, [], All, map, length, slice_index, OnOk, OnErr, IfOk, IfErr, Some, Err, if◌then◌else◌};
ghost use Rattle.auc_jobs.specs.State.{StandsAt};
ghost use Rattle.auc_journal.specs.Journal.{limits_of};
ghost use Rattle.auc_lines.specs.declared.part.Part.TheVariants as part;
ghost use Rattle.auc_print.specs.OneText.{RoundFits};
ghost use Rattle.auc_print.specs.Text.{restart_text, round_text};
ghost use Rattle.auc_script.specs.Numbers.{longest_realm, most_workers};
ghost use Rattle.auc_sqn.specs.Number.{max_seq};
ghost use Rattle.auc_subs.specs.Subscriber.{AreSubscribers};
ghost use Rattle.auc_world.specs.Limits.{opened};
ghost use Rattle.auc_record.specs.Record.{NamesBelow};
ghost use Rattle.auc_world.specs.Start.{fresh_kept};
ghost use Rattle.auc_world.specs.Transcript.{Course, beginning};
ghost use Rattle.auc_record.specs.Vectors.{vectors_in};
ghost use Rattle.auc_record.specs.declared.record.LineRecord.{LineRecord};
ghost use Rattle.auc_input.specs.Opening.{Begins};
ghost use Rattle.auc_refusal.specs.Refusal.{status_in, status_of};
ghost use Rattle.auc_run.specs.Inner.{AreEnough, Covers, EndsIn, GoesOn, IsKnownPart, MakesRound, RoundsStop, RunsParts, StandsAfter, StandsOn, WritesRound, stopped_by};
ghost use Rattle.auc_refusal.specs.Faults.{RoseAt, RoseOnDisk};
ghost use Rattle.auc_run.specs.InnerFaults.{RoseInRound};
ghost use Rattle.auc_run.specs.Outcome.{IsStopOf, IsWritten};
ghost use Rattle.auc_run.specs.Output.{setting_of};

use crate::ended::{Performed, refused};
use crate::named::{Start, serve_start};
use crate::resources::Resources;
use auc_disk::Disk;
use auc_edge::{Gate, Sink, write_whole};
use auc_ident::Names;
use auc_input::openings;
use auc_jobs::{Ran, Served, State};
use auc_journal::Journal;
use auc_lines::{Part, RoundPart};
use auc_memory::{Failed, NoMemory, Octets, Stop};
use auc_print::{print_restart, print_round};
use auc_random::Rands;
use auc_refusal::Refusal;
use auc_script::Script;
use auc_subs::Subscribers;
use auc_world::Setting;
use std::alloc::Global;
use std::sync::Wait;
use std::thread::Threads;

/// What all rounds of a scenario are served and printed with.
#[derive(Drop)]
pub(crate) struct RunOptions<'a> {
    pub(crate) set: Setting<'a>,
    pub(crate) full: bool,
    pub(crate) workers: u32,
}

/// What a part of a scenario leaves to the next one.
#[derive(Drop)]
pub(crate) struct Stand<D: Disk + Drop> {
    /// The number of the next round.
    pub(crate) number: u64,
    /// What the next round begins with.
    pub(crate) state: State,
    /// The journal.
    pub(crate) journal: Journal<D>,
    /// The lines of restarts that aren't written yet.
    pub(crate) text: Octets,
}

impl<D: Disk + Drop> Stand<D> {
    /// The disk of the journal. All memory is given back.
    pub(crate) fn into_disk(self) -> D
        ensures { result ≡ self.journal.disk }
    {
        let Stand { journal, .. } = self;
        journal.into_disk()
    }
}

/// What came of a part, and what it leaves.
#[derive(Drop)]
pub(crate) struct PartResult<D: Disk + Drop> {
    pub(crate) stand: Stand<D>,
    pub(crate) result: Result<(), Refusal>,
}

/// What came of a round whose text isn't written yet, and what it leaves.
#[derive(Drop)]
pub(crate) struct Made<D: Disk + Drop> {
    pub(crate) stand: Stand<D>,
    pub(crate) result: Result<Option<Stop>, NoMemory>,
}

/// Serves the jobs of a round, and appends its text to what isn't written yet. It answers whether reservations ended in it.
pub(crate) fn make_round<R: Threads + Wait + Sync, D: Disk + Drop + Send, G: Gate + Sync>(
    resources: &Resources<R, G>,
    options: &RunOptions,
    jobs: &RoundPart,
    stand: Stand<D>,
) -> Made<D>
    requires subscribers { AreSubscribers options.now.set.rows }
    requires known { IsKnownPart options.now.set.rows (part.Round jobs.now) }
    requires workers { (1 ≤ options.now.workers) × (options.now.workers ≤ most_workers) }
    requires number { stand.number + 1 < 2 ^ 64 }
    requires stands { (from : D) × (reserved : List ℕ) × (at : Course) × (known : List LineRecord)
        × StandsAfter D.seen D.may_leave D.moment D.left_since options.now.set
        from reserved at known stand.number stand.state stand.journal }

    ensures made { IfOk result.result (λ stop. MakesRound D.seen D.may_leave D.moment D.left_since
        options.now.set options.now.full
        stand.number stand.state stand.journal jobs.now stop result.stand.state result.stand.journal
        stand.text result.stand.text) }
    ensures ends { OnErr result.result ((from : D) (reserved : List ℕ) (at : Course) (known : List LineRecord)
        → StandsAfter D.seen D.may_leave D.moment D.left_since options.now.set
        from reserved at known stand.number stand.state stand.journal → AreEnough jobs.now at.early known
        → Covers D.seen D.may_leave D.moment D.left_since
        options.now.set.rows from reserved at.early result.stand.journal) }
    ensures number { result.stand.number ≡ stand.number + 1 }

    // A fault comes only with a risen count.
    ensures store { IfOk result.result (λ stop. RoseInRound stop (D.faults stand.journal.disk) (D.faults result.stand.journal.disk)) }
{
    let Stand {
        number,
        state,
        journal,
        text,
    } = stand;
    let start = Start {
        number,
        state,
        journal,
    };
    let Served {
        journal,
        state,
        result,
    } = serve_start(
        resources.rt,
        resources.alloc,
        options,
        jobs.as_slice(),
        start,
        resources.gate,
    );
    let mut stand = Stand {
        number: number + 1,
        state,
        journal,
        text,
    };
    match result {
        Ok(ran) => {
            let result = append_round(options, &ran, &mut stand.text);
            Made { stand, result }
        }
        Err(NoMemory) => Made {
            stand,
            result: Err(NoMemory),
        },
    }
}

/// Appends the text of a round, and answers whether reservations ended in it.
fn append_round(
    options: &RunOptions,
    ran: &Ran,
    text: &mut Octets,
) -> Result<Option<Stop>, NoMemory>
    requires named { NamesBelow (length options.now.set.rows) ran.now.round }
    requires vectors { ran.now.vectors
        ≡ (if options.now.full then map (vectors_in options.now.set) ran.now.round.jobs else []) }

    ensures stop { IfOk result (λ stop. stop ≡ ran.now.stop) }
    ensures appended { OnOk result (text.new
        ≡ text.old ++ round_text options.now.set options.now.full ran.now.round) }
    ensures fits { OnOk result (RoundFits ran.now.round) }
{
    let vectors = ran.vectors.as_slice();
    print_round(&ran.round, vectors, &options.set, options.full, text)?;
    Ok(ran.stop)
}

/// Writes a text with which reservations ended or not. If they ended, it is refused with why after it was written.
fn write_made<K: Sink>(
    alloc: Global,
    stop: Option<Stop>,
    text: &mut Octets,
    out: &mut K,
) -> Result<(), Refusal>
    ensures stopped { IsStopOf (status_in result) stop }
    ensures written { IsWritten (status_in result) (K.written out.old) (K.written out.new) text.old }
    ensures refused { IfErr result RoundsStop }
    ensures spared { result ≢ Err Refusal.NoMemory }
    ensures done { OnOk result (text.new ≡ []) }
    ensures output { RoseAt Refusal.WriteFault result (K.faults out.old) (K.faults out.new) }
{
    write_whole(out, text.as_slice())?;
    *text = Octets::new(alloc);
    stopped(stop)
}

/// The refusal of a round in which reservations ended.
pub(crate) fn stopped(stop: Option<Stop>) -> Result<(), Refusal>
    ensures { result ≡ stopped_by stop }
{
    match stop {
        None => Ok(()),
        Some(Stop::Fault) => Err(Refusal::StoreFault),
        Some(Stop::Full) => Err(Refusal::StoreFull),
    }
}

/// Writes the text with which a round was made. If reservations ended in the round, it is refused with why after it was
/// written.
fn write_round<K: Sink, D: Disk + Drop>(alloc: Global, made: Made<D>, out: &mut K) -> PartResult<D>
    ensures number { result.stand.number ≡ made.stand.number }
    ensures state { result.stand.state ≡ made.stand.state }
    ensures journal { result.stand.journal ≡ made.stand.journal }
    ensures wrote { WritesRound made.result made.stand.text result.result result.stand.text
        (K.written out.old) (K.written out.new) }
    ensures refused { IfErr result.result RoundsStop }
    ensures output { RoseAt Refusal.WriteFault result.result (K.faults out.old) (K.faults out.new) }
{
    let Made { mut stand, result } = made;
    match result {
        Ok(stop) => {
            let result = write_made(alloc, stop, &mut stand.text, out);
            PartResult { stand, result }
        }
        Err(NoMemory) => PartResult {
            stand,
            result: Err(Refusal::NoMemory),
        },
    }
}

/// Opens each subscriber anew at its limit, and appends the line of a restart to the text that isn't written yet. It makes
/// no call of the disk.
fn restart<D: Disk + Drop>(
    alloc: Global,
    subs: &Subscribers,
    stand: &mut Stand<D>,
) -> Result<(), Refusal>
    requires subscribers { stand.old.journal.imsis ≡ map (λ row. row.imsi) subs.now }
    requires size { length stand.old.state.words ≡ length subs.now }
    ensures opened { OnOk result (stand.new.state.words ≡ opened subs.now (limits_of stand.old.journal)) }
    ensures names { OnOk result (stand.new.state.kept ≡ stand.old.state.kept) }
    ensures stands { OnOk result ((set : Setting) (early : List LineRecord) → set.rows ≡ subs.now
        → StandsAt set early stand.old.state → StandsAt set early stand.new.state) }
    ensures limits { OnOk result ((sub : ℕ) → sub < length subs.now
        → slice_index (limits_of stand.old.journal) sub ≤ max_seq) }
    ensures text { OnOk result (stand.new.text ≡ stand.old.text ++ restart_text) }
    ensures kept { (stand.new.journal ≡ stand.old.journal) × (stand.new.number ≡ stand.old.number) }
    ensures refused { IfErr result (λ refusal. refusal ≡ Refusal.NoMemory) }
{
    let words = openings(alloc, subs, &stand.journal)?;
    print_restart(&mut stand.text)?;
    stand.state.open_at(words);
    Ok(())
}

/// Serves a part of a scenario.
fn serve_part<R: Threads + Wait + Sync, K: Sink, D: Disk + Drop + Send, G: Gate + Sync>(
    resources: &Resources<R, G>,
    options: &RunOptions,
    part: &Part,
    mut stand: Stand<D>,
    out: &mut K,
) -> PartResult<D>
    requires subscribers { AreSubscribers options.now.set.rows }
    requires known { IsKnownPart options.now.set.rows part.now }
    requires workers { (1 ≤ options.now.workers) × (options.now.workers ≤ most_workers) }
    requires number { stand.number + 1 < 2 ^ 64 }
    requires stands { (from : D) × (reserved : List ℕ) × (at : Course) × StandsOn
        D.seen D.may_leave D.moment D.left_since options.now.set
        from reserved at stand.number stand.state stand.journal }

    ensures goes { OnOk result.result ((from : D) (reserved : List ℕ) (at : Course)
        → StandsOn D.seen D.may_leave D.moment D.left_since
        options.now.set from reserved at stand.number stand.state stand.journal
        → GoesOn D.seen D.may_leave D.moment D.left_since options.now.set options.now.full from reserved at part.now
        result.stand.number result.stand.state result.stand.journal stand.text result.stand.text
        (K.written out.old) (K.written out.new)) }
    ensures ends { IfErr result.result (λ refusal. (from : D) (reserved : List ℕ) (at : Course)
        → StandsOn D.seen D.may_leave D.moment D.left_since
        options.now.set from reserved at stand.number stand.state stand.journal
        → EndsIn D.seen D.may_leave D.moment D.left_since options.now.set options.now.full from reserved at part.now
        (status_of refusal) result.stand.journal stand.text (K.written out.old) (K.written out.new)) }
    ensures number { result.stand.number ≤ stand.number + 1 }
    ensures refused { IfErr result.result RoundsStop }

    // A fault comes only with a risen count.
    ensures output { RoseAt Refusal.WriteFault result.result (K.faults out.old) (K.faults out.new) }
    ensures store { RoseOnDisk result.result (D.faults stand.journal.disk) (D.faults result.stand.journal.disk) }
{
    match part {
        Part::Round(jobs) => write_round(
            resources.alloc,
            make_round(resources, options, jobs, stand),
            out,
        ),
        Part::Restart => {
            let result = restart(resources.alloc, options.set.subs, &mut stand);
            PartResult { stand, result }
        }
    }
}

/// Serves parts of a scenario one after the other, up to the first that is refused, and writes what isn't written yet at the
/// end.
fn serve_all<R: Threads + Wait + Sync, K: Sink, D: Disk + Drop + Send, G: Gate + Sync>(
    resources: &Resources<R, G>,
    options: &RunOptions,
    parts: &[Part],
    mut stand: Stand<D>,
    out: &mut K,
) -> Performed<D>
    requires subscribers { AreSubscribers options.now.set.rows }
    requires known { All (IsKnownPart options.now.set.rows) parts.now }
    requires workers { (1 ≤ options.now.workers) × (options.now.workers ≤ most_workers) }
    requires number { stand.number + length parts.now < 2 ^ 64 }
    requires text { stand.text ≡ [] }
    requires stands { (from : D) × (reserved : List ℕ) × (at : Course) × StandsOn
        D.seen D.may_leave D.moment D.left_since options.now.set
        from reserved at stand.number stand.state stand.journal }

    ensures ran { (from : D) (reserved : List ℕ) (at : Course)
        → StandsOn D.seen D.may_leave D.moment D.left_since
        options.now.set from reserved at stand.number stand.state stand.journal
        → RunsParts D.seen D.may_leave D.moment D.left_since
        options.now.set options.now.full from reserved at parts.now
        (status_in result.result) result.disk (K.written out.old) (K.written out.new) }
    ensures refused { IfErr result.result RoundsStop }

    // A fault comes only with a risen count.
    ensures output { RoseAt Refusal.WriteFault result.result (K.faults out.old) (K.faults out.new) }
    ensures store { RoseOnDisk result.result (D.faults stand.journal.disk) (D.faults result.disk) }
{
    for part in parts {
        let PartResult {
            stand: next,
            result,
        } = serve_part(resources, options, part, stand, out);
        match result {
            Ok(()) => stand = next,
            Err(refusal) => {
                return Performed {
                    disk: next.into_disk(),
                    result: Err(refusal),
                };
            }
        }
    }
    let result = write_whole(out, stand.text.as_slice());
    let disk = stand.into_disk();
    match result {
        Ok(()) => Performed {
            disk,
            result: Ok(()),
        },
        Err(Failed) => Performed {
            disk,
            result: Err(Refusal::WriteFault),
        },
    }
}

/// Where the first round stands: each subscriber is opened at its limit.
pub(crate) fn first_state<D: Disk + Drop>(
    alloc: Global,
    subs: &Subscribers,
    journal: &Journal<D>,
) -> Result<State, NoMemory>
    requires { journal.now.imsis ≡ map (λ row. row.imsi) subs.now }
    ensures opened { IfOk result (λ state. state.words ≡ opened subs.now (limits_of journal.now)) }
    ensures names { IfOk result (λ state. state.kept ≡ map (λ row. fresh_kept) subs.now) }
    ensures stands { IfOk result (λ state. (set : Setting) → set.rows ≡ subs.now → StandsAt set [] state) }
    ensures limits { OnOk result ((sub : ℕ) → sub < length subs.now
        → slice_index (limits_of journal.now) sub ≤ max_seq) }
{
    let mut state = State::new(alloc, subs)?;
    state.open_at(openings(alloc, subs, journal)?);
    Ok(state)
}

/// Serves the parts of a scenario and writes each round when it has ended. It hands the disk back.
pub(crate) fn serve_parts<R: Threads + Wait + Sync, K: Sink, D: Disk + Drop + Send, G: Gate + Sync>(
    resources: &Resources<R, G>,
    script: &Script,
    subs: &Subscribers,
    journal: Journal<D>,
    out: &mut K,
) -> Performed<D>
    requires subscribers { AreSubscribers subs.now }
    requires known { All (IsKnownPart subs.now) script.now.parts }
    requires count { length script.now.parts + 1 < 2 ^ 64 }
    requires workers { (1 ≤ script.now.workers) × (script.now.workers ≤ most_workers) }
    requires realm { length script.now.realm ≤ longest_realm }
    requires journal { (from : D) × Begins D.seen D.may_leave D.moment D.left_since D.faults subs.now from journal }

    ensures ran { (from : D) → Begins D.seen D.may_leave D.moment D.left_since D.faults subs.now from journal
        → RunsParts D.seen D.may_leave D.moment D.left_since
        (setting_of subs.now script.now) script.now.full from (limits_of journal)
        (beginning subs.now (limits_of journal)) script.now.parts
        (status_in result.result) result.disk (K.written out.old) (K.written out.new) }
    ensures refused { IfErr result.result RoundsStop }

    // A fault comes only with a risen count.
    ensures output { RoseAt Refusal.WriteFault result.result (K.faults out.old) (K.faults out.new) }
    ensures store { RoseOnDisk result.result (D.faults journal.disk) (D.faults result.disk) }
{
    let rands = Rands::new(script.key);
    let names = Names::new(script.key);
    let options = RunOptions {
        set: Setting {
            subs,
            rands: &rands,
            names: &names,
            realm: script.realm.as_slice(),
        },
        full: script.full,
        workers: script.workers,
    };
    let Ok(state) = first_state(resources.alloc, subs, &journal) else {
        return refused(journal, Refusal::NoMemory);
    };
    let stand = Stand {
        number: 1,
        state,
        journal,
        text: Octets::new(resources.alloc),
    };
    serve_all(resources, &options, script.parts.as_slice(), stand, out)
}
