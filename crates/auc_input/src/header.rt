//! The header of a service.

ghost use Rattle.std.specs.Prelude.{◌≡◌, ◌<◌, ℕ, List, [], length, Option, Some, Err, IfOk, IfErr};
ghost use Rattle.std.specs.Option.{option_copied};
ghost use Rattle.auc_script.specs.Limits.{IsWithin};
ghost use Rattle.auc_refusal.specs.Faults.{RoseAt, RoseInService};
ghost use Rattle.auc_input.specs.Header.{HeaderStops, HearsFirst, HearsHeader, IsEarly, IsHeaderStop};
ghost use Rattle.auc_block.specs.declared.turn.Turn.{Turn};

use crate::forms::ServiceWords;
use crate::input::{Input, read_subscribers, script_refusal};
use auc_block::{NextBlock, Wire, each_block_is_split_off, hear_block};
use auc_edge::Shelf;
use auc_refusal::{Refusal, last_line};
use auc_script::{Script, ScriptWhy};
use auc_subs::Subscribers;
use std::alloc::{AllocError, Global};

/// How many bytes are heard at once.
const ROOM: usize = 65_536;

/// The bytes that were heard and are no whole block yet, and room for what is heard at once.
#[derive(Drop)]
pub struct Ear {
    /// The bytes that wait.
    pub waiting: Vec<u8>,
    /// The room, whose bytes say nothing.
    pub room: Vec<u8>,
}

/// Nothing was heard yet.
pub fn new_ear(alloc: Global) -> Result<Ear, AllocError>
    ensures { IfOk result (λ ear. (ear.waiting.items ≡ []) × (0 < length ear.room.items)) }
{
    let room = vec![in alloc; 0u8; ROOM]?;
    Ok(Ear {
        waiting: Vec::new(alloc),
        room,
    })
}

/// Reads the subscribers, if a file of them is named, and hears the header.
pub fn read_header<H: Shelf, W: Wire>(
    alloc: Global,
    form: &ServiceWords,
    shelf: &mut H,
    wire: &mut W,
    ear: &mut Ear,
) -> Result<Input, Refusal>
    requires room { 0 < length ear.old.room.items }
    requires nothing { ear.old.waiting.items ≡ [] }

    ensures read { IfOk result (λ input. HearsHeader (H.files shelf.old) (option_copied form.now.subscribers)
        input.subs input.script ear.new.waiting.items (W.turns wire.old) (W.turns wire.new)) }
    ensures within { IfOk result (λ input. IsWithin input.subs input.script) }
    ensures room { length ear.new.room.items ≡ length ear.old.room.items }
    ensures refused { (seen : Option (List ℕ)) → IfErr result (λ refusal. IsEarly (H.files shelf.old)
        (option_copied form.now.subscribers) seen refusal (W.turns wire.old) (W.turns wire.new)) }
    ensures causes { IfErr result HeaderStops }

    // A fault comes only with a risen count.
    ensures input { RoseInService (λ name. option_copied form.now.subscribers ≡ Some name) result
        (H.faults shelf.old) (H.faults shelf.new) (W.faults wire.old) (W.faults wire.new) }
{
    let mut subs = read_subscribers(alloc, form.subscribers, shelf)?;
    let script = hear_header(alloc, wire, ear, &mut subs)?;
    Ok(Input { subs, script })
}

/// Hears the header, and adds its subscribers to those that there are.
fn hear_header<W: Wire>(
    alloc: Global,
    wire: &mut W,
    ear: &mut Ear,
    subs: &mut Subscribers,
) -> Result<Script, Refusal>
    requires room { 0 < length ear.old.room.items }
    requires nothing { ear.old.waiting.items ≡ [] }

    ensures read { IfOk result (λ script. HearsFirst subs.old subs.new script ear.new.waiting.items
        (W.turns wire.old) (W.turns wire.new)) }
    ensures within { IfOk result (IsWithin subs.new) }
    ensures room { length ear.new.room.items ≡ length ear.old.room.items }
    ensures refused { IfErr result (IsHeaderStop subs.old (W.turns wire.old) (W.turns wire.new)) }
    ensures wire { RoseAt Refusal.ReadFault result (W.faults wire.old) (W.faults wire.new) }
{
    each_block_is_split_off();
    match hear_block(alloc, wire, &mut ear.waiting, ear.room.as_mut_slice())? {
        NextBlock::Whole(block) => match Script::read_header(alloc, block.as_slice(), subs) {
            Ok(script) => Ok(script),
            Err(refusal) => Err(script_refusal(refusal)),
        },
        NextBlock::TooLong => Err(Refusal::Scenario(0, ScriptWhy::Limit)),
        NextBlock::EndedTooLong => Err(Refusal::Scenario(0, ScriptWhy::Limit)),
        NextBlock::Ended => Err(Refusal::Scenario(
            last_line(ear.waiting.as_slice()),
            ScriptWhy::Unfinished,
        )),
    }
}
