//! The top call.

ghost use Rattle.std.specs.Prelude.{◌≡◌, ◌≢◌, ◌≤◌, ◌⊎◌, ℕ, length, Option, List, [], Some, None, Ok, Err, OnOk, IfErr, IsErrOf};
ghost use Rattle.auc_memory.specs.Faults.{Rose};
ghost use Rattle.auc_edge.specs.Shelf.{File};
ghost use Rattle.auc_edge.specs.Sink.{Appends};
ghost use Rattle.auc_forms.specs.Algorithm.{algorithm_named, algorithm_text};
ghost use Rattle.auc_journal.specs.Durable.{IsTold};
ghost use Rattle.auc_journal.specs.Image.{Reading, read_image};
ghost use Rattle.auc_load.specs.Words.{load_named};
ghost use Rattle.auc_load.specs.declared.words.LoadWords.{LoadWords};
ghost use Rattle.auc_script.specs.Limits.{IsWithin};
ghost use Rattle.auc_script.specs.Numbers.{longest_realm};
ghost use Rattle.auc_script.specs.Reading.{script_of};
ghost use Rattle.auc_script.specs.declared.script.Script.{Script};
ghost use Rattle.auc_subs.specs.declared.row.Row.{Row};
ghost use Rattle.auc_world.specs.Agreement.{IsRealm};
ghost use Rattle.auc_run.specs.Crash.{IsFull, MayHaveLeft, MayLeave, Remembers, RemembersAlways};
ghost use Rattle.auc_input.specs.Reading.{IsRead, AreRead, AreWrong, IsReadNext};
ghost use Rattle.auc_input.specs.Words.{files_seen, journal_named, Files, files_named};
ghost use Rattle.auc_refusal.specs.Refusal.{status_in, MayRefuse};
ghost use Rattle.auc_refusal.specs.Told.{OutputStops};
ghost use Rattle.auc_run.specs.Inner.{FilesLeave, FilesStop, InputStops, IsBeforeJournal, IsSilent, LimitsLeave, Stops, TellingStops};
ghost use Rattle.auc_refusal.specs.Faults.{RoseAmong, RoseAt, RoseOnDisk, IsQuiet};
ghost use Rattle.auc_run.specs.Outcome.{AreUnknown, EndsAlgorithm, EndsBefore, EndsLoad, EndsUsage, IsCause, IsStop, MayPrint, MayRun, MayTell, NeedsNoJournal, PrintsAlgorithm, Refuses, RunsFiles, RunsFull, RunsLoad, RunsScenario};
ghost use Rattle.auc_run.specs.Telling.{EndsTelling, IsLongTold, IsTooLong, MayBeLong, PrintsJournal, TellsJournal};
ghost use Rattle.auc_input.specs.declared.forms.JournalForm.{JournalForm};

use crate::ended::{Ended, Performed};
use crate::law::laws_of_transcripts;
use crate::load::run_load;
use crate::resources::Resources;
use crate::rounds::serve_parts;
use crate::telling::write_limits;
use auc_disk::Disk;
use auc_edge::{Gate, Shelf, Sink, write_whole};
use auc_forms::{AlgorithmForm, algorithm_lines, algorithm_words};
use auc_input::{
    Input, InputFiles, JournalForm, input_files, journal_form, open_journal, read_input,
};
use auc_journal::{Journal, OpenRefused};
use auc_memory::Octets;
use auc_refusal::{Refusal, Status, tell};
use std::alloc::Global;
use std::sync::Wait;
use std::thread::Threads;

/// Runs the program with its words, and hands the disk back. What the clauses say of contents holds for a shelf, a disk
/// and an output that reveal what they hold, as those in memory do.
///
/// The words `run SCENARIO SUBSCRIBERS` read the subscribers and then the scenario from these files of the shelf, open the
/// journal of the disk, serve the scenario's rounds and restarts, and write the text of each round when it has ended;
/// `run SCENARIO` begins with no subscribers. If the journal fails or is full in a round, the round is written and the run
/// ends. The word `reserved` opens the journal and writes its limits, and the word `compact` the bytes of a journal that has the
/// same limits, each identity once. The words `vector K OPC RAND SQN AMF` write the seven
/// functions of Milenage at these values, and AUTN too if the word `autn` stands behind them; the words `auts K OPC RAND SQN`
/// write AUTS. The words `load KEY SUBSCRIBERS JOBS WORKERS` serve one round of draws over a journal in memory, and then write
/// five lines, which are a function of the words. Any other words are answered by `usage`.
///
/// As many workers as the scenario or the words say serve the jobs of a round. Each passes the gate as it begins a job
/// and after the job's last line. The clauses hold for every number of workers and however their steps interleave; none
/// says that a worker gets on, or that `run` returns.
pub fn run<R: Threads + Wait + Sync, H: Shelf, K: Sink, D: Disk + Drop + Send, G: Gate + Sync>(
    rt: &R,
    alloc: Global,
    words: &[Octets],
    shelf: &mut H,
    out: &mut K,
    disk: D,
    gate: &G,
) -> Ended<D>
    // A run does what its words ask for, is stopped, or is refused with its cause and that cause's line.
    ensures done { result.status ≡ Status.Done
        → RunsScenario words.now (H.files shelf.old) (D.seen disk) (MayLeave D.seen D.may_leave disk result.disk)
        (MayHaveLeft D.seen D.may_leave D.moment D.left_since disk result.disk) Status.Done
        (K.written out.old) (K.written out.new)
        ⊎ PrintsAlgorithm words.now (K.written out.old) (K.written out.new)
        ⊎ PrintsJournal words.now (D.seen disk) (K.written out.old) (K.written out.new)
        ⊎ RunsLoad words.now (K.written out.old) (K.written out.new) }
    ensures refused { (result.status ≡ Status.Done) ⊎ IsStop result.status
        ⊎ Refuses words.now (H.files shelf.old) (D.seen disk) result.status (K.written out.old) (K.written out.new)
        ⊎ IsTooLong words.now (D.seen disk) result.status (K.written out.old) (K.written out.new) }

    // However a run of a scenario ends: the rounds that were written are a lawful transcript of its first parts, and a
    // crash leaves a journal that reserves each number of their vectors; or no round began, and nothing was written but a
    // refusal's line or some first bytes of it.
    ensures ran { (files : Files) → files_named words.now ≡ Some files
        → RunsFiles (H.files shelf.old) files (D.seen disk) (MayLeave D.seen D.may_leave disk result.disk)
        (MayHaveLeft D.seen D.may_leave D.moment D.left_since disk result.disk) result.status
        (K.written out.old) (K.written out.new)
        ⊎ EndsBefore words.now (H.files shelf.old) (D.seen disk) result.status (K.written out.old) (K.written out.new) }
    ensures store_full { result.status ≡ Status.StoreFull
        → RunsScenario words.now (H.files shelf.old) (D.seen disk) (MayLeave D.seen D.may_leave disk result.disk)
        (MayHaveLeft D.seen D.may_leave D.moment D.left_since disk result.disk) Status.StoreFull
        (K.written out.old) (K.written out.new)
        × (IsTold D.seen D.may_leave disk → IsFull (D.seen result.disk)) }
    ensures drew_full { result.status ≡ Status.StoreFull → (files : Files) × (files_named words.now ≡ Some files)
        × RunsFull D.seen D.may_leave (H.files shelf.old) files disk result.disk (K.written out.old) (K.written out.new) }

    // A journal never forgets: however the run ends, a crash leaves for every identity at least what was reserved before, and so
    // did one at any moment of the run, also while threads ran.
    ensures remembers { Remembers D.seen D.may_leave result.status disk result.disk }
    ensures always { RemembersAlways D.seen D.may_leave D.moment D.left_since disk result.disk }
    ensures untouched { NeedsNoJournal words.now result.status → result.disk ≡ disk }
    ensures unopened { (there : List File) (files : Files) (cause : Refusal) → H.files shelf.old ≡ Some there
        → files_named words.now ≡ Some files → AreWrong (Some there) files cause → result.disk ≡ disk }

    // However another form ends: its lines were written, or some first bytes of them if the output failed, or nothing.
    ensures algorithm_ran { (form : AlgorithmForm) → algorithm_named words.now ≡ Some form
        → EndsAlgorithm form result.status (K.written out.old) (K.written out.new) }
    ensures journal_ran { (form : JournalForm) → journal_named words.now ≡ Some form
        → EndsTelling form (D.seen disk) result.status (K.written out.old) (K.written out.new) }
    ensures load_ran { (load : LoadWords) → load_named words.now ≡ Some load
        → EndsLoad load result.status (K.written out.old) (K.written out.new) }
    ensures usage_ran { AreUnknown words.now → EndsUsage result.status (K.written out.old) (K.written out.new) }

    // A fault comes only with a risen count: that of the file to be read next, of the output, or of the disk.
    ensures read_fault { result.status ≡ Status.ReadFault → (files : Files) × (files_named words.now ≡ Some files)
        × (name : List ℕ) × IsReadNext (H.files shelf.old) files name × Rose (H.faults shelf.old name) (H.faults shelf.new name)
        × Appends (K.written out.old) (K.written out.new) [] }
    ensures quiet_shelf { result.status ≢ Status.ReadFault
        → (name : List ℕ) → H.faults shelf.new name ≡ H.faults shelf.old name }
    ensures write_fault { result.status ≡ Status.WriteFault → Rose (K.faults out.old) (K.faults out.new) }
    ensures quiet_output { result.status ≢ Status.WriteFault → K.faults out.new ≡ K.faults out.old }
    ensures store_fault { result.status ≡ Status.StoreFault → Rose (D.faults disk) (D.faults result.disk) }
    ensures quiet_disk { IsQuiet result.status → D.faults result.disk ≡ D.faults disk }

    // If the shelf tells its files and the disk its bytes, each input comes to its status, unless a fault, a full journal or
    // want of memory comes before.
    ensures usage_comes { files_named words.now ≡ None → algorithm_named words.now ≡ None → load_named words.now ≡ None
        → journal_named words.now ≡ None → MayRefuse Refusal.Usage result.status }
    ensures refused_comes { (there : List File) (found : List ℕ) (cause : Refusal) → H.files shelf.old ≡ Some there
        → D.seen disk ≡ Some found → IsCause words.now (Some there) (Some found) cause → MayRefuse cause result.status }
    ensures done_comes { (there : List File) (found : List ℕ) (files : Files) (rows after : List Row) (text : List ℕ)
        (script : Script) (reading : Reading) → H.files shelf.old ≡ Some there → D.seen disk ≡ Some found
        → files_named words.now ≡ Some files → AreRead (Some there) files rows text
        → script_of rows text ≡ Ok (script, after) → read_image found ≡ Ok reading → MayRun result.status }
    ensures algorithm_comes { (form : AlgorithmForm) → algorithm_named words.now ≡ Some form → MayPrint result.status }
    ensures load_comes { (load : LoadWords) → load_named words.now ≡ Some load → MayPrint result.status }
    ensures journal_comes { (form : JournalForm) (found : List ℕ) (reading : Reading) → journal_named words.now ≡ Some form
        → D.seen disk ≡ Some found → read_image found ≡ Ok reading → MayTell form result.status }
    ensures long_comes { (form : JournalForm) (found : List ℕ) → journal_named words.now ≡ Some form
        → D.seen disk ≡ Some found → IsLongTold form (Some found) → MayBeLong result.status }
{
    let resources = Resources { rt, alloc, gate };
    let Performed { disk, result } = perform(&resources, words, shelf, out, disk);
    match result {
        Ok(()) => Ended {
            status: Status::Done,
            disk,
        },
        Err(refusal) => Ended {
            status: tell(alloc, refusal, out),
            disk,
        },
    }
}

/// Does what the words ask for.
#[tactic(auto, using(crate::proofs::RememberLemmas::remembers_same))]
fn perform<R: Threads + Wait + Sync, H: Shelf, K: Sink, D: Disk + Drop + Send, G: Gate + Sync>(
    resources: &Resources<R, G>,
    words: &[Octets],
    shelf: &mut H,
    out: &mut K,
    disk: D,
) -> Performed<D>
    ensures done { OnOk result.result (RunsScenario words.now (H.files shelf.old) (D.seen disk)
        (MayLeave D.seen D.may_leave disk result.disk)
        (MayHaveLeft D.seen D.may_leave D.moment D.left_since disk result.disk)
        Status.Done (K.written out.old) (K.written out.new)
        ⊎ PrintsAlgorithm words.now (K.written out.old) (K.written out.new)
        ⊎ PrintsJournal words.now (D.seen disk) (K.written out.old) (K.written out.new)
        ⊎ RunsLoad words.now (K.written out.old) (K.written out.new)) }
    ensures refused { IfErr result.result (Stops words.now (H.files shelf.old) (D.seen disk)) }
    ensures ran { (files : Files) → files_named words.now ≡ Some files → FilesLeave (H.files shelf.old) files (D.seen disk)
        (MayLeave D.seen D.may_leave disk result.disk)
        (MayHaveLeft D.seen D.may_leave D.moment D.left_since disk result.disk)
        (status_in result.result) (K.written out.old) (K.written out.new) }
    ensures silent { IfErr result.result (λ refusal. IsSilent refusal (K.written out.old) (K.written out.new)) }
    ensures store_full { IsErrOf result.result Refusal.StoreFull → IsTold D.seen D.may_leave disk
        → IsFull (D.seen result.disk) }
    ensures drew_full { (files : Files) → files_named words.now ≡ Some files → IsErrOf result.result Refusal.StoreFull
        → RunsFull D.seen D.may_leave (H.files shelf.old) files disk result.disk (K.written out.old) (K.written out.new) }
    ensures remembers { Remembers D.seen D.may_leave (status_in result.result) disk result.disk }
    ensures always { RemembersAlways D.seen D.may_leave D.moment D.left_since disk result.disk }
    ensures untouched { NeedsNoJournal words.now (status_in result.result) → result.disk ≡ disk }
    ensures unopened { (there : List File) (files : Files) (cause : Refusal) → H.files shelf.old ≡ Some there
        → files_named words.now ≡ Some files → AreWrong (Some there) files cause → result.disk ≡ disk }
    ensures algorithm_ran { (form : AlgorithmForm) → algorithm_named words.now ≡ Some form
        → EndsAlgorithm form (status_in result.result) (K.written out.old) (K.written out.new) }
    ensures limits_ran { (form : JournalForm) → journal_named words.now ≡ Some form
        → LimitsLeave form (D.seen disk) (status_in result.result) (K.written out.old) (K.written out.new) }
    ensures load_ran { (load : LoadWords) → load_named words.now ≡ Some load
        → EndsLoad load (status_in result.result) (K.written out.old) (K.written out.new) }

    // A fault comes only with a risen count.
    ensures shelf { RoseAmong (λ name. (files : Files) × (files_named words.now ≡ Some files)
        × IsReadNext (H.files shelf.old) files name) result.result (H.faults shelf.old) (H.faults shelf.new) }
    ensures output { RoseAt Refusal.WriteFault result.result (K.faults out.old) (K.faults out.new) }
    ensures store { RoseOnDisk result.result (D.faults disk) (D.faults result.disk) }
{
    if let Some(files) = input_files(words) {
        return run_files(resources, &files, shelf, out, disk);
    }
    if let Some(form) = algorithm_words(words) {
        let result = print_algorithm(resources.alloc, &form, out);
        return Performed { disk, result };
    }
    if let Some(form) = journal_form(words) {
        return print_journal(resources.alloc, form, out, disk);
    }
    let result = run_load(resources.rt, resources.alloc, words, out, resources.gate);
    Performed { disk, result }
}

/// Reads the subscribers, if a file of them is named, and then the scenario, opens the journal, and serves the rounds.
#[tactic(auto, using(crate::proofs::RefusalLemmas::reading_stops, crate::proofs::RefusalLemmas::input_stops, crate::proofs::RefusalLemmas::right_read, crate::proofs::RefusalLemmas::leave_unread, crate::proofs::RememberLemmas::remembers_same))]
fn run_files<R: Threads + Wait + Sync, H: Shelf, K: Sink, D: Disk + Drop + Send, G: Gate + Sync>(
    resources: &Resources<R, G>,
    files: &InputFiles,
    shelf: &mut H,
    out: &mut K,
    disk: D,
) -> Performed<D>
    ensures refused { IfErr result.result (FilesStop (H.files shelf.old) (files_seen files.now) (D.seen disk)) }
    ensures ran { FilesLeave (H.files shelf.old) (files_seen files.now) (D.seen disk)
        (MayLeave D.seen D.may_leave disk result.disk)
        (MayHaveLeft D.seen D.may_leave D.moment D.left_since disk result.disk)
        (status_in result.result) (K.written out.old) (K.written out.new) }
    ensures silent { IfErr result.result (λ refusal. IsSilent refusal (K.written out.old) (K.written out.new)) }
    ensures store_full { IsErrOf result.result Refusal.StoreFull → IsTold D.seen D.may_leave disk
        → IsFull (D.seen result.disk) }
    ensures drew_full { IsErrOf result.result Refusal.StoreFull → RunsFull D.seen D.may_leave (H.files shelf.old)
        (files_seen files.now) disk result.disk (K.written out.old) (K.written out.new) }
    ensures remembers { Remembers D.seen D.may_leave (status_in result.result) disk result.disk }
    ensures always { RemembersAlways D.seen D.may_leave D.moment D.left_since disk result.disk }
    ensures untouched { IsBeforeJournal (status_in result.result) → result.disk ≡ disk }
    ensures unopened { (there : List File) (cause : Refusal) → H.files shelf.old ≡ Some there
        → AreWrong (Some there) (files_seen files.now) cause → result.disk ≡ disk }

    // A fault comes only with a risen count.
    ensures shelf { RoseAmong (IsReadNext (H.files shelf.old) (files_seen files.now)) result.result
        (H.faults shelf.old) (H.faults shelf.new) }
    ensures output { RoseAt Refusal.WriteFault result.result (K.faults out.old) (K.faults out.new) }
    ensures store { RoseOnDisk result.result (D.faults disk) (D.faults result.disk) }
{
    match read_input(resources.alloc, files, shelf) {
        Ok(input) => run_input(resources, &input, out, disk),
        Err(refusal) => Performed {
            disk,
            result: Err(refusal),
        },
    }
}

/// Opens the journal for the subscribers of a run, and serves the rounds of its script.
#[tactic(auto, using(crate::proofs::RefusalLemmas::leave_unopened))]
fn run_input<R: Threads + Wait + Sync, K: Sink, D: Disk + Drop + Send, G: Gate + Sync>(
    resources: &Resources<R, G>,
    input: &Input,
    out: &mut K,
    disk: D,
) -> Performed<D>
    requires { IsWithin input.now.subs input.now.script }
    ensures ran { (told : Option (List File)) (files : Files) → IsRead told files input.now.subs input.now.script
        → FilesLeave told files (D.seen disk) (MayLeave D.seen D.may_leave disk result.disk)
        (MayHaveLeft D.seen D.may_leave D.moment D.left_since disk result.disk) (status_in result.result)
        (K.written out.old) (K.written out.new) }
    ensures refused { IfErr result.result (InputStops (D.seen disk)) }
    ensures remembers { Remembers D.seen D.may_leave (status_in result.result) disk result.disk }
    ensures always { RemembersAlways D.seen D.may_leave D.moment D.left_since disk result.disk }
    ensures silent { IfErr result.result (λ refusal. IsSilent refusal (K.written out.old) (K.written out.new)) }
    ensures store_full { IsErrOf result.result Refusal.StoreFull → IsTold D.seen D.may_leave disk
        → IsFull (D.seen result.disk) }
    ensures drew_full { (told : Option (List File)) (files : Files) → IsRead told files input.now.subs input.now.script
        → IsErrOf result.result Refusal.StoreFull
        → RunsFull D.seen D.may_leave told files disk result.disk (K.written out.old) (K.written out.new) }

    // A fault comes only with a risen count.
    ensures output { RoseAt Refusal.WriteFault result.result (K.faults out.old) (K.faults out.new) }
    ensures store { RoseOnDisk result.result (D.faults disk) (D.faults result.disk) }
{
    match open_journal(resources.alloc, disk, &input.subs) {
        Ok(journal) => {
            laws_of_transcripts();
            is_realm(input.script.realm.as_slice());
            serve_parts(resources, &input.script, &input.subs, journal, out)
        }
        Err(OpenRefused { disk, why }) => Performed {
            disk,
            result: Err(Refusal::from(why)),
        },
    }
}

/// At most 255 bytes are a realm.
pub(crate) fn is_realm(realm: &[u8])
    requires { length realm.now ≤ longest_realm }
    ensures { IsRealm realm.now }
{}

/// Tells a disk's journal in a form.
fn print_journal<K: Sink, D: Disk + Drop>(
    alloc: Global,
    form: JournalForm,
    out: &mut K,
    disk: D,
) -> Performed<D>
    ensures done { OnOk result.result ((text : List ℕ) × TellsJournal form (D.seen disk) text
        × Appends (K.written out.old) (K.written out.new) text) }
    ensures ran { LimitsLeave form (D.seen disk) (status_in result.result) (K.written out.old) (K.written out.new) }
    ensures refused { IfErr result.result (TellingStops form (D.seen disk)) }
    ensures remembers { Remembers D.seen D.may_leave (status_in result.result) disk result.disk }
    ensures always { RemembersAlways D.seen D.may_leave D.moment D.left_since disk result.disk }
    ensures silent { IfErr result.result (λ refusal. refusal ≢ Refusal.WriteFault
        → K.written out.new ≡ K.written out.old) }
    ensures output { RoseAt Refusal.WriteFault result.result (K.faults out.old) (K.faults out.new) }
    ensures store { RoseAt Refusal.StoreFault result.result (D.faults disk) (D.faults result.disk) }
{
    match Journal::open(alloc, disk, &[]) {
        Ok(journal) => {
            let result = write_limits(alloc, form, journal.listed(), out);
            Performed {
                disk: journal.into_disk(),
                result,
            }
        }
        Err(OpenRefused { disk, why }) => Performed {
            disk,
            result: Err(Refusal::from(why)),
        },
    }
}

/// Writes the lines of a form of `vector` or `auts`.
fn print_algorithm<K: Sink>(alloc: Global, form: &AlgorithmForm, out: &mut K) -> Result<(), Refusal>
    ensures written { OnOk result (Appends (K.written out.old) (K.written out.new) (algorithm_text form.now)) }
    ensures ran { EndsAlgorithm form.now (status_in result) (K.written out.old) (K.written out.new) }
    ensures refused { IfErr result OutputStops }
    ensures output { RoseAt Refusal.WriteFault result (K.faults out.old) (K.faults out.new) }
{
    let text = algorithm_lines(alloc, form)?;
    write_whole(out, text.as_slice())?;
    Ok(())
}
