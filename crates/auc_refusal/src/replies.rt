//! What a service says: its replies, and the line of a refusal with which it ends.

ghost use Rattle.std.specs.Prelude.{◌≡◌, ◌≢◌, ◌≤◌, ◌++◌, [], None, length, Err, OnOk, OnErr, IfErr};
ghost use Rattle.auc_memory.specs.Faults.{Rose};
ghost use Rattle.auc_block.specs.Turns.{Says, SaysFront};
ghost use Rattle.auc_refusal.specs.Told.{IsUntold, Tells, IsSaidUpTo, SaysTold};
ghost use Rattle.auc_refusal.specs.Faults.{RoseAt};
ghost use Rattle.auc_refusal.specs.Refusal.{line_of, status_of};
ghost use Rattle.auc_refusal.specs.Replies.{end_line, last_line, most_block, refusal_reply};
ghost use Rattle.auc_refusal.specs.Replies.{reply_to_rest};

use crate::refusal::Refusal;
use crate::refusing::refusal_line;
use crate::status::Status;
use auc_block::{Wire, say_whole};
use auc_memory::{NoMemory, Octets};
use auc_reading::ScriptWhy;
use std::alloc::Global;

/// The last line of a reply.
const END: &[u8] = b"end\n";

/// Says the line of a refusal, if it has one. It answers the refusal's status, or that of what stopped the line.
pub fn say_refusal<W: Wire>(alloc: Global, refusal: Refusal, wire: &mut W) -> Status
    ensures told { SaysTold refusal result (W.turns wire.old) (W.turns wire.new) }
    ensures tells { Tells refusal result None None }
    ensures wordless { line_of refusal ≡ [] → W.turns wire.new ≡ W.turns wire.old }
    ensures spared { refusal ≡ Refusal.Usage → result ≢ Status.NoMemory }
    ensures same { W.ended wire.new ≡ W.ended wire.old }
    ensures fault { refusal ≢ Refusal.WriteFault → result ≡ Status.WriteFault
        → Rose (W.faults wire.old) (W.faults wire.new) }
    ensures quiet { result ≢ Status.WriteFault → W.faults wire.new ≡ W.faults wire.old }
    ensures silent { refusal ≡ Refusal.WriteFault → W.faults wire.new ≡ W.faults wire.old }
{
    match say_line(alloc, refusal, wire) {
        Ok(()) => refusal.status(),
        Err(stop) => stop.status(),
    }
}

/// Says the line of a refusal, if it has one. No memory is taken for the word `usage`.
fn say_line<W: Wire>(alloc: Global, refusal: Refusal, wire: &mut W) -> Result<(), Refusal>
    ensures said { OnOk result (Says (W.turns wire.old) (W.turns wire.new) (line_of refusal)) }
    ensures stopped { IfErr result (IsSaidUpTo (line_of refusal) (W.turns wire.old) (W.turns wire.new)) }
    ensures untold { IfErr result (λ stop. IsUntold refusal (status_of stop)) }
    ensures wordless { line_of refusal ≡ [] → W.turns wire.new ≡ W.turns wire.old }
    ensures spared { refusal ≡ Refusal.Usage → result ≢ Err Refusal.NoMemory }
    ensures same { W.ended wire.new ≡ W.ended wire.old }
    ensures wire { RoseAt Refusal.WriteFault result (W.faults wire.old) (W.faults wire.new) }
{
    match refusal {
        Refusal::Usage => Ok(say_whole(wire, b"usage\n".as_slice())?),
        Refusal::Subscribers(_, _) | Refusal::Scenario(_, _) | Refusal::NotJournal(_) => {
            let text = refusal_line(alloc, refusal)?;
            say_text(text, wire)
        }
        Refusal::ReadFault
        | Refusal::WriteFault
        | Refusal::StoreFault
        | Refusal::StoreFull
        | Refusal::TooLong
        | Refusal::NoMemory => Ok(()),
    }
}

/// Replies that the line of a number is refused.
pub fn reply_refusal<W: Wire>(
    alloc: Global,
    line: u32,
    why: ScriptWhy,
    wire: &mut W,
) -> Result<(), Refusal>
    ensures said { OnOk result (Says (W.turns wire.old) (W.turns wire.new) (refusal_reply line why)) }
    ensures stopped { IfErr result (IsSaidUpTo (refusal_reply line why) (W.turns wire.old) (W.turns wire.new)) }
    ensures same { W.ended wire.new ≡ W.ended wire.old }
    ensures wire { RoseAt Refusal.WriteFault result (W.faults wire.old) (W.faults wire.new) }
{
    let mut text = refusal_line(alloc, Refusal::Scenario(line, why))?;
    say_reply(alloc, &mut text, wire)
}

/// Says the last line of a reply alone.
pub fn say_end<W: Wire>(wire: &mut W) -> Result<(), Refusal>
    ensures said { OnOk result (Says (W.turns wire.old) (W.turns wire.new) end_line) }
    ensures stopped { IfErr result (IsSaidUpTo end_line (W.turns wire.old) (W.turns wire.new)) }
    ensures wire { RoseAt Refusal.WriteFault result (W.faults wire.old) (W.faults wire.new) }
{
    Ok(say_whole(wire, END)?)
}

/// Replies to an unfinished block at the end of the input, if there is one.
pub fn reply_to_rest<W: Wire>(alloc: Global, rest: &[u8], wire: &mut W) -> Result<(), Refusal>
    requires { length rest.now ≤ most_block }
    ensures said { OnOk result (Says (W.turns wire.old) (W.turns wire.new) (reply_to_rest rest.now)) }
    ensures stopped { IfErr result (IsSaidUpTo (reply_to_rest rest.now) (W.turns wire.old) (W.turns wire.new)) }
    ensures same { W.ended wire.new ≡ W.ended wire.old }
    ensures wire { RoseAt Refusal.WriteFault result (W.faults wire.old) (W.faults wire.new) }
{
    if rest.is_empty() {
        return Ok(());
    }
    reply_refusal(alloc, last_line(rest), ScriptWhy::Unfinished, wire)
}

/// Says a text and `end`.
pub fn say_reply<W: Wire>(alloc: Global, text: &mut Octets, wire: &mut W) -> Result<(), Refusal>
    ensures said { OnOk result (Says (W.turns wire.old) (W.turns wire.new) (text.old ++ end_line)) }
    ensures done { OnOk result (text.new ≡ []) }
    ensures stopped { IfErr result (IsSaidUpTo (text.old ++ end_line) (W.turns wire.old) (W.turns wire.new)) }
    ensures same { W.ended wire.new ≡ W.ended wire.old }
    ensures wire { RoseAt Refusal.WriteFault result (W.faults wire.old) (W.faults wire.new) }
{
    text.append(END)?;
    say_whole(wire, text.as_slice())?;
    *text = Octets::new(alloc);
    Ok(())
}

/// Says a text, and gives its memory back.
fn say_text<W: Wire>(text: Octets, wire: &mut W) -> Result<(), Refusal>
    ensures said { OnOk result (Says (W.turns wire.old) (W.turns wire.new) text) }
    ensures front { OnErr result (SaysFront (W.turns wire.old) (W.turns wire.new) text) }
    ensures stopped { IfErr result (λ stop. stop ≡ Refusal.WriteFault) }
    ensures same { W.ended wire.new ≡ W.ended wire.old }
    ensures fault { OnErr result (Rose (W.faults wire.old) (W.faults wire.new)) }
    ensures quiet { OnOk result (W.faults wire.new ≡ W.faults wire.old) }
{
    Ok(say_whole(wire, text.as_slice())?)
}

/// The number of the last line of a text, from 1. The text may end in it or with the LF before it.
pub fn last_line(text: &[u8]) -> u32
    requires { length text.now ≤ most_block }
    ensures { result ≡ last_line text.now }
{
    text.iter().filter(|byte| **byte == b'\n').count() as u32 + 1
}
