//! The input files: the subscribers, then the scenario.

ghost use Rattle.std.specs.Prelude.{◌≡◌, ℕ, List, IfOk, IfErr, Some, Ok};
ghost use Rattle.std.specs.Option.{option_copied};
ghost use Rattle.auc_script.specs.Limits.{IsWithin};
ghost use Rattle.auc_script.specs.Reading.{script_of};
ghost use Rattle.auc_input.specs.Reading.{FileStops, SubscribersStop, ScenarioStops, BeginsWith, HasText};
ghost use Rattle.auc_refusal.specs.Faults.{RoseAmong, RoseOf};
ghost use Rattle.auc_input.specs.Reading.{AreRead, AreWrong, IsRead, IsReadNext, ReadingStops};
ghost use Rattle.auc_input.specs.Words.{files_seen};
ghost use Rattle.auc_input.specs.InnerRefusal.{script_refusal};

use crate::forms::InputFiles;
use auc_edge::{Shelf, read_all};
use auc_memory::Octets;
use auc_refusal::Refusal;
use auc_script::{Script, ScriptRefusal};
use auc_subs::Subscribers;
use std::alloc::Global;

/// How many bytes an input file may have.
pub const MAX_FILE: usize = 67108864;

/// The subscribers and the script of the files of a run.
#[derive(Drop)]
pub struct Input {
    /// The subscribers of the file that is named, if one is, and those of the scenario or the header.
    pub subs: Subscribers,
    /// The scenario, or the header.
    pub script: Script,
}

/// Reads the subscribers, if a file of them is named, and then the scenario.
#[tactic(auto, using(crate::proofs::ReadingLemmas::subscribers_stop, crate::proofs::ReadingLemmas::scenario_stops))]
pub fn read_input<H: Shelf>(
    alloc: Global,
    files: &InputFiles,
    shelf: &mut H,
) -> Result<Input, Refusal>
    ensures read { IfOk result (λ input. IsRead (H.files shelf.old) (files_seen files.now) input.subs input.script) }
    ensures within { IfOk result (λ input. IsWithin input.subs input.script) }
    ensures refused { IfErr result (ReadingStops (H.files shelf.old) (files_seen files.now)) }

    // A fault comes only with a risen count.
    ensures shelf { RoseAmong (IsReadNext (H.files shelf.old) (files_seen files.now)) result
        (H.faults shelf.old) (H.faults shelf.new) }
{
    let mut subs = read_subscribers(alloc, files.subscribers, shelf)?;
    let script = read_script(alloc, files.scenario, shelf, &mut subs)?;
    Ok(Input { subs, script })
}

/// Reads the whole file of a name.
fn read_text<H: Shelf>(alloc: Global, name: &[u8], shelf: &mut H) -> Result<Octets, Refusal>
    ensures read { IfOk result (HasText (H.files shelf.old) name.now) }
    ensures same { H.files shelf.new ≡ H.files shelf.old }

    // Why it is refused; only a fault raises a count.
    ensures refused { IfErr result (FileStops (H.files shelf.old) name.now) }
    ensures shelf { RoseOf name.now result (H.faults shelf.old) (H.faults shelf.new) }
{
    Ok(read_all(alloc, shelf, name, MAX_FILE)?)
}

/// Reads the subscribers of the file of a name, or begins with none if no name is given.
pub fn read_subscribers<H: Shelf>(
    alloc: Global,
    name: Option<&[u8]>,
    shelf: &mut H,
) -> Result<Subscribers, Refusal>
    ensures read { IfOk result (BeginsWith (H.files shelf.old) (option_copied name.entry)) }
    ensures same { H.files shelf.new ≡ H.files shelf.old }
    ensures refused { IfErr result (SubscribersStop (H.files shelf.old) (option_copied name.entry)) }
    ensures shelf { RoseAmong (λ file. option_copied name.entry ≡ Some file) result (H.faults shelf.old) (H.faults shelf.new) }
{
    match name {
        Some(name) => read_file(alloc, name, shelf),
        None => Ok(Subscribers::new(alloc)),
    }
}

/// Reads the subscribers of the file of a name.
fn read_file<H: Shelf>(alloc: Global, name: &[u8], shelf: &mut H) -> Result<Subscribers, Refusal>
    ensures read { IfOk result (BeginsWith (H.files shelf.old) (Some name.now)) }
    ensures same { H.files shelf.new ≡ H.files shelf.old }
    ensures refused { IfErr result (SubscribersStop (H.files shelf.old) (Some name.now)) }
    ensures shelf { RoseOf name.now result (H.faults shelf.old) (H.faults shelf.new) }
{
    let text = read_text(alloc, name, shelf)?;
    Ok(Subscribers::read(alloc, text.as_slice())?)
}

/// Reads the scenario of the file of a name, and adds its subscribers to those that there are.
fn read_script<H: Shelf>(
    alloc: Global,
    name: &[u8],
    shelf: &mut H,
    subs: &mut Subscribers,
) -> Result<Script, Refusal>
    ensures read { IfOk result (λ script. (text : List ℕ) × HasText (H.files shelf.old) name.now text
        × (script_of subs.old text ≡ Ok (script, subs.new))) }
    ensures within { IfOk result (IsWithin subs.new) }
    ensures refused { IfErr result (ScenarioStops (H.files shelf.old) name.now subs.old) }
    ensures shelf { RoseOf name.now result (H.faults shelf.old) (H.faults shelf.new) }
{
    let text = read_text(alloc, name, shelf)?;
    match Script::read(alloc, text.as_slice(), subs) {
        Ok(script) => Ok(script),
        Err(refusal) => Err(script_refusal(refusal)),
    }
}

/// The refusal of a scenario or a header, as that of a run.
pub(crate) fn script_refusal(refusal: ScriptRefusal) -> Refusal
    ensures { result ≡ script_refusal refusal }
{
    match refusal {
        ScriptRefusal::Line(line, why) => Refusal::Scenario(line, why),
        ScriptRefusal::NoMemory => Refusal::NoMemory,
    }
}
