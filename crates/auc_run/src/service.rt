//! The program's form that stays alive.

ghost use Rattle.std.specs.Prelude.{◌≡◌, ◌≢◌, ◌<◌, ◌⊎◌, ℕ, List, length, Option, Some, None, Err, OnOk, IfErr, IsErrOf, IsTrue};
ghost use Rattle.std.specs.Option.{option_copied};
ghost use Rattle.auc_block.specs.declared.turn.Turn.{Turn};
ghost use Rattle.auc_memory.specs.Faults.{Rose};
ghost use Rattle.auc_edge.specs.Shelf.{File};
ghost use Rattle.auc_journal.specs.Durable.{IsTold};
ghost use Rattle.auc_journal.specs.Journal.{limits_of};
ghost use Rattle.auc_script.specs.Limits.{IsWithin};
ghost use Rattle.auc_run.specs.Crash.{IsFull, MayHaveLeft, MayLeave, Remembers, RemembersAlways};
ghost use Rattle.auc_input.specs.Opening.{Begins, JournalStops};
ghost use Rattle.auc_refusal.specs.Refusal.{status_in};
ghost use Rattle.auc_refusal.specs.Faults.{RoseInService, RoseOnDisk, RoseOnWire, IsQuiet, HasQuietWire};
ghost use Rattle.auc_input.specs.Header.{HearsHeader, IsEarly, TookHeader};
ghost use Rattle.auc_run.specs.InnerService.{EndsReady, ServesOr, ServiceStops};
ghost use Rattle.auc_run.specs.Service.{EndsUnnamed, EndsUnserved, IsBeforeOpening, ServesBlocks};
ghost use Rattle.auc_input.specs.Words.{service_named};

use crate::blocks::serve_blocks;
use crate::ended::{Ended, Performed, refused};
use crate::law::laws_of_transcripts;
use crate::resources::Resources;
use crate::rounds::{Stand, first_state};
use crate::top_call::is_realm;
use auc_block::{Wire, say_whole};
use auc_disk::Disk;
use auc_edge::{Gate, Shelf};
use auc_input::{Ear, Input, ServiceWords, new_ear, open_journal, read_header, service_words};
use auc_journal::{Journal, OpenRefused};
use auc_memory::Octets;
use auc_refusal::{Refusal, Status, say_refusal};
use std::alloc::Global;
use std::sync::Wait;
use std::thread::Threads;

/// The reply to a header that is right.
const READY: &[u8] = b"ready\nend\n";

/// Serves blocks that are heard, and replies to each before the next one is heard.
///
/// The words are `serve` or `serve SUBSCRIBERS`. A block is the lines up to a line `end`. The first one is the header: the
/// lines of a scenario before its first round. It is answered by `ready`. Each further block is at most one round for the
/// header's subscribers. A right one is served, and the reply is the text of its round; a wrong one is refused by the line of
/// its first cause, and nothing is served. Each reply ends with a line `end`. A service goes on until the input ends, a call of
/// the outside fails, reservations end, or memory runs out.
pub fn serve<R: Threads + Wait + Sync, H: Shelf, W: Wire, D: Disk + Drop + Send, G: Gate + Sync>(
    rt: &R,
    alloc: Global,
    words: &[Octets],
    shelf: &mut H,
    wire: &mut W,
    disk: D,
    gate: &G,
) -> Ended<D>
    // However a service ends: the rounds of the blocks that it answered are a lawful transcript, each reply was said before more
    // was heard, and a crash leaves a journal that reserves each number of their vectors; or nothing was served, and nothing was
    // said but a refusal's line or some first bytes of it.
    ensures ran { (subscribers : Option (List ℕ)) → service_named words.now ≡ Some subscribers
        → ServesBlocks (H.files shelf.old) subscribers (D.seen disk) (MayLeave D.seen D.may_leave disk result.disk)
        (MayHaveLeft D.seen D.may_leave D.moment D.left_since disk result.disk)
        result.status (W.turns wire.old) (W.turns wire.new)
        ⊎ EndsUnserved (H.files shelf.old) subscribers (D.seen disk) result.status (W.turns wire.old) (W.turns wire.new) }
    ensures usage_ran { service_named words.now ≡ None
        → EndsUnnamed result.status (W.turns wire.old) (W.turns wire.new) }

    // It is done only at the end of the input, after blocks were served.
    ensures done { result.status ≡ Status.Done → IsTrue (W.ended wire.new)
        × (subscribers : Option (List ℕ)) × (service_named words.now ≡ Some subscribers)
        × ServesBlocks (H.files shelf.old) subscribers (D.seen disk) (MayLeave D.seen D.may_leave disk result.disk)
        (MayHaveLeft D.seen D.may_leave D.moment D.left_since disk result.disk)
        Status.Done (W.turns wire.old) (W.turns wire.new) }
    ensures store_full { result.status ≡ Status.StoreFull → IsTold D.seen D.may_leave disk
        → IsFull (D.seen result.disk) }

    // A journal never forgets: however the service ends, a crash leaves for every identity at least what was reserved before, and
    // so did one at any moment of the service, also while threads ran.
    ensures remembers { Remembers D.seen D.may_leave result.status disk result.disk }
    ensures always { RemembersAlways D.seen D.may_leave D.moment D.left_since disk result.disk }
    ensures untouched { service_named words.now ≡ None ⊎ IsBeforeOpening result.status → result.disk ≡ disk }

    // A fault comes only with a risen count: that of the subscribers' file, of the wire, or of the disk.
    ensures read_fault { result.status ≡ Status.ReadFault → Rose (W.faults wire.old) (W.faults wire.new)
        ⊎ ((name : List ℕ) × (service_named words.now ≡ Some (Some name))
        × Rose (H.faults shelf.old name) (H.faults shelf.new name)) }
    ensures quiet_shelf { result.status ≢ Status.ReadFault
        → (name : List ℕ) → H.faults shelf.new name ≡ H.faults shelf.old name }
    ensures write_fault { result.status ≡ Status.WriteFault → Rose (W.faults wire.old) (W.faults wire.new) }
    ensures quiet_wire { HasQuietWire result.status → W.faults wire.new ≡ W.faults wire.old }
    ensures store_fault { result.status ≡ Status.StoreFault → Rose (D.faults disk) (D.faults result.disk) }
    ensures quiet_disk { IsQuiet result.status → D.faults result.disk ≡ D.faults disk }
{
    let Some(form) = service_words(words) else {
        return Ended {
            status: say_refusal(alloc, Refusal::Usage, wire),
            disk,
        };
    };
    let resources = Resources { rt, alloc, gate };
    let Performed { disk, result } = serve_words(&resources, &form, shelf, wire, disk);
    match result {
        Ok(()) => Ended {
            status: Status::Done,
            disk,
        },
        Err(refusal) => Ended {
            status: say_refusal(alloc, refusal, wire),
            disk,
        },
    }
}

/// Reads the subscribers, if a file of them is named, hears the header, and serves what is heard behind it.
fn serve_words<R: Threads + Wait + Sync, H: Shelf, W: Wire, D: Disk + Drop + Send, G: Gate + Sync>(
    resources: &Resources<R, G>,
    form: &ServiceWords,
    shelf: &mut H,
    wire: &mut W,
    disk: D,
) -> Performed<D>
    ensures ran { ServesOr (λ refusal. IsEarly (H.files shelf.old) (option_copied form.now.subscribers) (D.seen disk)
        refusal (W.turns wire.old) (W.turns wire.new)) (H.files shelf.old) (option_copied form.now.subscribers)
        (D.seen disk) (MayLeave D.seen D.may_leave disk result.disk)
        (MayHaveLeft D.seen D.may_leave D.moment D.left_since disk result.disk)
        result.result (W.turns wire.old) (W.turns wire.new) }
    ensures done { OnOk result.result (IsTrue (W.ended wire.new)) }
    ensures store_full { IsErrOf result.result Refusal.StoreFull → IsTold D.seen D.may_leave disk
        → IsFull (D.seen result.disk) }
    ensures remembers { Remembers D.seen D.may_leave (status_in result.result) disk result.disk }
    ensures always { RemembersAlways D.seen D.may_leave D.moment D.left_since disk result.disk }
    ensures untouched { IsBeforeOpening (status_in result.result) → result.disk ≡ disk }

    // A fault comes only with a risen count.
    ensures input { RoseInService (λ name. option_copied form.now.subscribers ≡ Some name) result.result
        (H.faults shelf.old) (H.faults shelf.new) (W.faults wire.old) (W.faults wire.new) }
    ensures store { RoseOnDisk result.result (D.faults disk) (D.faults result.disk) }
{
    let Ok(mut ear) = new_ear(resources.alloc) else {
        return Performed {
            disk,
            result: Err(Refusal::NoMemory),
        };
    };
    match read_header(resources.alloc, form, shelf, wire, &mut ear) {
        Ok(mut input) => serve_input(resources, &mut input, wire, &mut ear, disk),
        Err(refusal) => Performed {
            disk,
            result: Err(refusal),
        },
    }
}

/// Opens the journal for the subscribers of a header, and serves what is heard behind it.
fn serve_input<R: Threads + Wait + Sync, W: Wire, D: Disk + Drop + Send, G: Gate + Sync>(
    resources: &Resources<R, G>,
    input: &mut Input,
    wire: &mut W,
    ear: &mut Ear,
    disk: D,
) -> Performed<D>
    requires within { IsWithin input.old.subs input.old.script }
    requires room { 0 < length ear.old.room.items }
    requires heard { (first : List ℕ) × (start : Option (List Turn))
        × TookHeader first ear.old.waiting.items start (W.turns wire.old) }

    ensures ran { (told : Option (List File)) (subscribers : Option (List ℕ)) (start : Option (List Turn))
        → HearsHeader told subscribers input.old.subs input.old.script ear.old.waiting.items start (W.turns wire.old)
        → ServesOr (λ refusal. IsEarly told subscribers (D.seen disk) refusal start (W.turns wire.new))
        told subscribers (D.seen disk) (MayLeave D.seen D.may_leave disk result.disk)
        (MayHaveLeft D.seen D.may_leave D.moment D.left_since disk result.disk)
        result.result start (W.turns wire.new) }
    ensures done { OnOk result.result (IsTrue (W.ended wire.new)) }
    ensures refused { IfErr result.result (λ refusal. JournalStops (D.seen disk) refusal ⊎ ServiceStops refusal) }
    ensures store_full { IsErrOf result.result Refusal.StoreFull → IsTold D.seen D.may_leave disk
        → IsFull (D.seen result.disk) }
    ensures remembers { Remembers D.seen D.may_leave (status_in result.result) disk result.disk }
    ensures always { RemembersAlways D.seen D.may_leave D.moment D.left_since disk result.disk }

    // A fault comes only with a risen count.
    ensures wire { RoseOnWire result.result (W.faults wire.old) (W.faults wire.new) }
    ensures store { RoseOnDisk result.result (D.faults disk) (D.faults result.disk) }
{
    match open_journal(resources.alloc, disk, &input.subs) {
        Ok(journal) => {
            laws_of_transcripts();
            is_realm(input.script.realm.as_slice());
            serve_ready(resources, input, journal, wire, ear)
        }
        Err(OpenRefused { disk, why }) => Performed {
            disk,
            result: Err(Refusal::from(why)),
        },
    }
}

/// Replies to the header, and serves what is heard behind it.
fn serve_ready<R: Threads + Wait + Sync, W: Wire, D: Disk + Drop + Send, G: Gate + Sync>(
    resources: &Resources<R, G>,
    input: &mut Input,
    journal: Journal<D>,
    wire: &mut W,
    ear: &mut Ear,
) -> Performed<D>
    requires within { IsWithin input.old.subs input.old.script }
    requires room { 0 < length ear.old.room.items }
    requires journal { (from : D) × Begins D.seen D.may_leave D.moment D.left_since
        D.faults input.old.subs from journal }
    requires heard { (first : List ℕ) × (start : Option (List Turn))
        × TookHeader first ear.old.waiting.items start (W.turns wire.old) }

    ensures ran { (from : D) (first : List ℕ) (start : Option (List Turn))
        → Begins D.seen D.may_leave D.moment D.left_since D.faults input.old.subs from journal
        → TookHeader first ear.old.waiting.items start (W.turns wire.old)
        → EndsReady D.seen D.may_leave D.moment D.left_since
        input.old.subs input.old.script from (limits_of journal) first
        (status_in result.result) result.disk start (W.turns wire.old) (W.turns wire.new) }
    ensures done { OnOk result.result (IsTrue (W.ended wire.new)) }
    ensures refused { IfErr result.result ServiceStops }
    ensures store_full { IsErrOf result.result Refusal.StoreFull → (from : D)
        → Begins D.seen D.may_leave D.moment D.left_since
        D.faults input.old.subs from journal → IsTold D.seen D.may_leave from
        → IsFull (D.seen result.disk) }
    ensures remembers { (from : D) → Begins D.seen D.may_leave D.moment D.left_since
        D.faults input.old.subs from journal
        → Remembers D.seen D.may_leave (status_in result.result) from result.disk }
    ensures always { (from : D) → Begins D.seen D.may_leave D.moment D.left_since D.faults input.old.subs from journal
        → RemembersAlways D.seen D.may_leave D.moment D.left_since from result.disk }

    // A fault comes only with a risen count.
    ensures wire { RoseOnWire result.result (W.faults wire.old) (W.faults wire.new) }
    ensures store { RoseOnDisk result.result (D.faults journal.disk) (D.faults result.disk) }
{
    let Ok(state) = first_state(resources.alloc, &input.subs, &journal) else {
        return refused(journal, Refusal::NoMemory);
    };
    let stand = Stand {
        number: 1,
        state,
        journal,
        text: Octets::new(resources.alloc),
    };
    match say_whole(wire, READY) {
        Ok(()) => serve_blocks(resources, input, stand, wire, ear),
        Err(failed) => Performed {
            disk: stand.into_disk(),
            result: Err(Refusal::from(failed)),
        },
    }
}
