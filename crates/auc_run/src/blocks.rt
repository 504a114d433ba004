//! The blocks of a service, one after the other.

ghost use Rattle.std.specs.Prelude.{◌≡◌, ◌≤◌, ◌<◌, ◌+◌, ◌^◌, ◌∷◌, ℕ, List, [], false, length, Some, Ok, Err, OnOk, OnErr, IfOk, IfErr, IsOk, IsTrue, true};
ghost use Rattle.auc_script.specs.Limits.{IsBlock, IsWithin};
ghost use Rattle.auc_world.specs.Transcript.{Course};
ghost use Rattle.auc_record.specs.declared.record.LineRecord.{LineRecord};
ghost use Rattle.auc_refusal.specs.Refusal.{status_in};
ghost use Rattle.auc_run.specs.Inner.{AreEnough, Covers, MakesRound, RoundsStop, StandsAfter};
ghost use Rattle.auc_refusal.specs.Faults.{RoseAt, RoseOnDisk, RoseOnWire};
ghost use Rattle.auc_run.specs.InnerFaults.{RoseInRound};
ghost use Rattle.auc_run.specs.InnerService.{EndsServing, IsServingAny, IsTurned, ServiceStops, round_answer, turned_by};
ghost use Rattle.auc_run.specs.Output.{setting_of};
ghost use Rattle.auc_refusal.specs.Replies.{most_block, reply_to_rest};
ghost use Rattle.auc_run.specs.Service.{asked_of};

use crate::ended::Performed;
use crate::resources::Resources;
use crate::rounds::{Made, RunOptions, Stand, make_round, stopped};
use auc_block::{NextBlock, Wire, each_block_is_split_off, earlier_blocks_stand, hear_block};
use auc_disk::Disk;
use auc_edge::Gate;
use auc_ident::Names;
use auc_input::{Ear, Input};
use auc_lines::RoundPart;
use auc_memory::{NoMemory, Octets, Stop};
use auc_random::Rands;
use auc_refusal::{Refusal, reply_refusal, reply_to_rest, say_end, say_reply};
use auc_script::{ScriptRefusal, ScriptWhy, read_block};
use auc_world::Setting;
use std::sync::Wait;
use std::thread::Threads;

/// How many blocks a service hears after its header.
const MOST_BLOCKS: u64 = 18_446_744_073_709_551_614;

/// What came of a block: whether the next one is heard.
#[derive(Drop)]
struct BlockStep<D: Disk + Drop> {
    stand: Stand<D>,
    result: Result<bool, Refusal>,
}

/// Serves blocks one after the other, up to the end of the input or to what ends the service.
pub(crate) fn serve_blocks<
    R: Threads + Wait + Sync,
    W: Wire,
    D: Disk + Drop + Send,
    G: Gate + Sync,
>(
    resources: &Resources<R, G>,
    input: &mut Input,
    mut stand: Stand<D>,
    wire: &mut W,
    ear: &mut Ear,
) -> Performed<D>
    requires within { IsWithin input.old.subs input.old.script }
    requires number { stand.number ≤ 1 }
    requires text { stand.text ≡ [] }
    requires room { 0 < length ear.old.room.items }
    requires serving { IsServingAny D.seen D.may_leave D.moment D.left_since input.old.subs input.old.script []
        ear.old.waiting.items stand.number stand.state stand.journal (W.turns wire.old) }

    ensures ends { EndsServing D.seen D.may_leave D.moment D.left_since
        input.old.subs input.old.script [] ear.old.waiting.items
        stand.number stand.state stand.journal (status_in result.result) result.disk (W.turns wire.old) (W.turns wire.new) }
    ensures done { OnOk result.result (IsTrue (W.ended wire.new)) }
    ensures refused { IfErr result.result ServiceStops }

    // A fault comes only with a risen count.
    ensures wire { RoseOnWire result.result (W.faults wire.old) (W.faults wire.new) }
    ensures store { RoseOnDisk result.result (D.faults stand.journal.disk) (D.faults result.disk) }
{
    for _ in 0..MOST_BLOCKS {
        let BlockStep {
            stand: next,
            result,
        } = serve_next(resources, input, stand, wire, ear);
        match result {
            Ok(true) => stand = next,
            Ok(false) => {
                return Performed {
                    disk: next.into_disk(),
                    result: Ok(()),
                };
            }
            Err(refusal) => {
                return Performed {
                    disk: next.into_disk(),
                    result: Err(refusal),
                };
            }
        }
    }
    Performed {
        disk: stand.into_disk(),
        result: Err(Refusal::TooLong),
    }
}

/// Hears the next block, and replies to it.
fn serve_next<R: Threads + Wait + Sync, W: Wire, D: Disk + Drop + Send, G: Gate + Sync>(
    resources: &Resources<R, G>,
    input: &mut Input,
    stand: Stand<D>,
    wire: &mut W,
    ear: &mut Ear,
) -> BlockStep<D>
    requires within { IsWithin input.old.subs input.old.script }
    requires number { stand.number + 1 < 2 ^ 64 }
    requires text { stand.text ≡ [] }
    requires room { 0 < length ear.old.room.items }
    requires serving { IsServingAny D.seen D.may_leave D.moment D.left_since input.old.subs input.old.script []
        ear.old.waiting.items stand.number stand.state stand.journal (W.turns wire.old) }

    ensures turned { IsTurned D.seen D.may_leave D.moment D.left_since
        input.old.subs input.old.script [] ear.old.waiting.items ear.new.waiting.items
        stand.number result.stand.number stand.state result.stand.state stand.journal result.stand.journal
        result.result (W.turns wire.old) (W.turns wire.new) }
    ensures text { IsOk result.result → result.stand.text ≡ [] }
    ensures number { result.stand.number ≤ stand.number + 1 }
    ensures refused { IfErr result.result ServiceStops }
    ensures input { input.new ≡ input.old }
    ensures room { length ear.new.room.items ≡ length ear.old.room.items }
    ensures done { IfOk result.result (λ more. more ≡ false → IsTrue (W.ended wire.new)) }

    // A fault comes only with a risen count.
    ensures wire { RoseOnWire result.result (W.faults wire.old) (W.faults wire.new) }
    ensures store { RoseOnDisk result.result (D.faults stand.journal.disk) (D.faults result.stand.journal.disk) }
{
    each_block_is_split_off();
    earlier_blocks_stand();
    match hear_block(
        resources.alloc,
        wire,
        &mut ear.waiting,
        ear.room.as_mut_slice(),
    ) {
        Ok(NextBlock::Whole(block)) => serve_block(resources, input, block, stand, wire),
        Ok(NextBlock::TooLong) => {
            let result = reply_refusal(resources.alloc, 0, ScriptWhy::Limit, wire);
            turned(stand, result, true)
        }
        Ok(NextBlock::Ended) => {
            let result = reply_to_rest(resources.alloc, ear.waiting.as_slice(), wire);
            turned(stand, result, false)
        }
        Ok(NextBlock::EndedTooLong) => {
            let result = reply_refusal(resources.alloc, 0, ScriptWhy::Limit, wire);
            turned(stand, result, false)
        }
        Err(trouble) => turned(stand, Err(Refusal::from(trouble)), false),
    }
}

/// What came of a block that served nothing.
fn turned<D: Disk + Drop>(stand: Stand<D>, said: Result<(), Refusal>, more: bool) -> BlockStep<D>
    ensures stand { result.stand ≡ stand }
    ensures answer { result.result ≡ turned_by said more }
{
    let result = match said {
        Ok(()) => Ok(more),
        Err(refusal) => Err(refusal),
    };
    BlockStep { stand, result }
}

/// Serves a block if it is right, and replies to it.
fn serve_block<R: Threads + Wait + Sync, W: Wire, D: Disk + Drop + Send, G: Gate + Sync>(
    resources: &Resources<R, G>,
    input: &mut Input,
    block: Octets,
    stand: Stand<D>,
    wire: &mut W,
) -> BlockStep<D>
    requires within { IsWithin input.old.subs input.old.script }
    requires number { stand.number + 1 < 2 ^ 64 }
    requires text { stand.text ≡ [] }
    requires short { length block ≤ most_block }
    requires serving { (waiting : List ℕ) × IsServingAny D.seen D.may_leave D.moment D.left_since
        input.old.subs input.old.script
        (block ∷ []) waiting stand.number stand.state stand.journal (W.turns wire.old) }

    ensures turned { (waiting : List ℕ) → IsTurned D.seen D.may_leave D.moment D.left_since
        input.old.subs input.old.script
        (block ∷ []) waiting waiting stand.number result.stand.number stand.state result.stand.state
        stand.journal result.stand.journal result.result (W.turns wire.old) (W.turns wire.new) }
    ensures goes { IfOk result.result (λ more. more ≡ true) }
    ensures text { IsOk result.result → result.stand.text ≡ [] }
    ensures number { result.stand.number ≤ stand.number + 1 }
    ensures refused { IfErr result.result RoundsStop }
    ensures input { input.new ≡ input.old }

    // A fault comes only with a risen count.
    ensures wire { RoseAt Refusal.WriteFault result.result (W.faults wire.old) (W.faults wire.new) }
    ensures store { RoseOnDisk result.result (D.faults stand.journal.disk) (D.faults result.stand.journal.disk) }
{
    match read_block(resources.alloc, block.as_slice(), &mut input.subs) {
        Ok(Some(jobs)) => serve_jobs(resources, input, jobs, stand, wire),
        Ok(None) => {
            let result = say_end(wire);
            turned(stand, result, true)
        }
        Err(ScriptRefusal::Line(line, why)) => {
            let result = reply_refusal(resources.alloc, line, why, wire);
            turned(stand, result, true)
        }
        Err(ScriptRefusal::NoMemory) => turned(stand, Err(Refusal::NoMemory), true),
    }
}

/// Serves the round of a block, and says its text and `end` at once. No line of a block asks which vectors were released
/// before, so the state forgets them after each.
fn serve_jobs<R: Threads + Wait + Sync, W: Wire, D: Disk + Drop + Send, G: Gate + Sync>(
    resources: &Resources<R, G>,
    input: &Input,
    jobs: RoundPart,
    stand: Stand<D>,
    wire: &mut W,
) -> BlockStep<D>
    requires within { IsWithin input.now.subs input.now.script }
    requires known { IsBlock input.now.subs jobs }
    requires number { stand.number + 1 < 2 ^ 64 }
    requires text { stand.text ≡ [] }
    requires serving { (block waiting : List ℕ) × (asked_of input.now.subs block ≡ Ok (Some jobs))
        × IsServingAny D.seen D.may_leave D.moment D.left_since input.now.subs input.now.script
        (block ∷ []) waiting stand.number stand.state stand.journal (W.turns wire.old) }

    ensures turned { (block waiting : List ℕ) → asked_of input.now.subs block ≡ Ok (Some jobs)
        → IsTurned D.seen D.may_leave D.moment D.left_since input.now.subs input.now.script
        (block ∷ []) waiting waiting stand.number result.stand.number stand.state result.stand.state
        stand.journal result.stand.journal result.result (W.turns wire.old) (W.turns wire.new) }
    ensures goes { IfOk result.result (λ more. more ≡ true) }
    ensures text { IsOk result.result → result.stand.text ≡ [] }
    ensures number { result.stand.number ≤ stand.number + 1 }
    ensures refused { IfErr result.result RoundsStop }

    // A fault comes only with a risen count.
    ensures wire { RoseAt Refusal.WriteFault result.result (W.faults wire.old) (W.faults wire.new) }
    ensures store { RoseOnDisk result.result (D.faults stand.journal.disk) (D.faults result.stand.journal.disk) }
{
    let Made { mut stand, result } = make_jobs(resources, input, &jobs, stand);
    match result {
        Ok(stop) => {
            stand.state.forget(resources.alloc);
            let said = say_reply(resources.alloc, &mut stand.text, wire);
            turned(stand, round_answer(said, stop), true)
        }
        Err(NoMemory) => turned(stand, Err(Refusal::NoMemory), true),
    }
}

/// Serves jobs as the header says.
fn make_jobs<R: Threads + Wait + Sync, D: Disk + Drop + Send, G: Gate + Sync>(
    resources: &Resources<R, G>,
    input: &Input,
    jobs: &RoundPart,
    stand: Stand<D>,
) -> Made<D>
    requires within { IsWithin input.now.subs input.now.script }
    requires known { IsBlock input.now.subs jobs.now }
    requires number { stand.number + 1 < 2 ^ 64 }
    requires text { stand.text ≡ [] }
    requires stands { (from : D) × (reserved : List ℕ) × (at : Course) × (known : List LineRecord)
        × StandsAfter D.seen D.may_leave D.moment D.left_since (setting_of input.now.subs input.now.script)
        from reserved at known stand.number stand.state stand.journal }

    ensures made { IfOk result.result (λ stop. MakesRound D.seen D.may_leave D.moment D.left_since
        (setting_of input.now.subs input.now.script) input.now.script.full
        stand.number stand.state stand.journal jobs.now stop result.stand.state result.stand.journal
        [] result.stand.text) }
    ensures ends { OnErr result.result ((from : D) (reserved : List ℕ) (at : Course) (known : List LineRecord)
        → StandsAfter D.seen D.may_leave D.moment D.left_since (setting_of input.now.subs input.now.script)
        from reserved at known stand.number stand.state stand.journal → AreEnough jobs.now at.early known
        → Covers D.seen D.may_leave D.moment D.left_since input.now.subs from reserved at.early result.stand.journal) }
    ensures number { result.stand.number ≡ stand.number + 1 }

    // A fault comes only with a risen count.
    ensures store { IfOk result.result (λ stop. RoseInRound stop (D.faults stand.journal.disk) (D.faults result.stand.journal.disk)) }
{
    let rands = Rands::new(input.script.key);
    let names = Names::new(input.script.key);
    let options = RunOptions {
        set: Setting {
            subs: &input.subs,
            rands: &rands,
            names: &names,
            realm: input.script.realm.as_slice(),
        },
        full: input.script.full,
        workers: input.script.workers,
    };
    make_round(resources, &options, jobs, stand)
}

/// What a round comes to whose text was said or wasn't: in it, reservations ended or didn't.
fn round_answer(said: Result<(), Refusal>, stop: Option<Stop>) -> Result<(), Refusal>
    ensures { result ≡ round_answer said stop }
{
    match said {
        Ok(()) => stopped(stop),
        Err(refusal) => Err(refusal),
    }
}
