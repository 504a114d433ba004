//! The packets of a job, and the bytes that ends send.

ghost use Rattle.std.specs.Prelude.{◌≡◌, ◌≤◌, ◌+◌, ◌++◌, ◌∷◌, [], length, Some, IfOk, OnOk};
ghost use Rattle.std.specs.Option.{option_copied};
ghost use Rattle.auc_server.specs.Steps.{bytes_of};
ghost use Rattle.auc_world.specs.Happened.{sent_by};
ghost use Rattle.auc_world.specs.InnerWorld.{HasPlace, number_after};
ghost use Rattle.auc_world.specs.Net.{copies, posted};

use crate::net::{Inputs, SentPacket};
use auc_lines::End;
use auc_memory::{NoMemory, Octets, Room};
use auc_server::ServerWhy;
use auc_vector::Step;
use std::alloc::Global;

/// The bytes that a step sends, if it sends some.
fn sent_in<W>(step: &Step<W>) -> Option<&[u8]>
    ensures { option_copied result ≡ sent_by step.now }
{
    match step {
        Step::Sent(bytes) => Some(bytes.as_slice()),
        Step::Ended(_, bytes) if !bytes.is_empty() => Some(bytes.as_slice()),
        Step::Ended(..) | Step::Ignored(_) => None,
    }
}

/// A copy of the bytes that a step sends.
pub(crate) fn copy_sent<W>(alloc: Global, step: &Step<W>) -> Result<Option<Octets>, NoMemory>
    ensures { IfOk result (λ sent. sent ≡ sent_by step.now) }
{
    match sent_in(step) {
        Some(bytes) => Ok(Some(Octets::copied_from(alloc, bytes)?)),
        None => Ok(None),
    }
}

/// The same in memory that was taken before.
pub(crate) fn put_sent(room: Room, step: &Step<ServerWhy>) -> Option<Octets>
    requires empty { room.written ≡ [] }
    requires left { length (bytes_of step.now) ≤ room.left }
    ensures { result ≡ sent_by step.now }
{
    let bytes = sent_in(step)?;
    let mut room = room;
    room.put(bytes);
    Some(room.into_octets())
}

/// Makes a place for one more packet. If no number is left for it, that is a lack of memory.
pub(crate) fn make_place(packets: &mut Vec<SentPacket>) -> Result<(), NoMemory>
    ensures same { packets.new.items ≡ packets.old.items }
    ensures place { OnOk result (HasPlace packets.new) }
{
    if packets.len() >= u32::MAX as usize {
        return Err(NoMemory);
    }
    packets.reserve(1)?;
    Ok(())
}

/// Puts a packet behind the others, and answers its number.
fn add(packets: &mut Vec<SentPacket>, packet: SentPacket) -> u32
    requires { HasPlace packets.old }
    ensures added { packets.new.items ≡ packets.old.items ++ packet ∷ [] }
    ensures number { result ≡ length packets.old.items + 1 }
{
    packets.push_reserved(packet);
    packets.len() as u32
}

/// Posts what an end sent, if it sent something, and answers the packet's number.
pub(crate) fn post(
    packets: &mut Vec<SentPacket>,
    sender: End,
    inputs: Option<Inputs>,
    sent: Option<Octets>,
) -> Option<u32>
    requires { HasPlace packets.old }
    ensures posted { packets.new.items ≡ posted packets.old.items sender inputs sent }
    ensures number { result ≡ number_after packets.old.items sent }
{
    let bytes = sent?;
    let packet = SentPacket {
        bytes,
        sender: Some(sender),
        inputs,
    };
    Some(add(packets, packet))
}

/// Posts a changed copy of a packet, and answers its number.
pub(crate) fn post_made(packets: &mut Vec<SentPacket>, bytes: Octets) -> u32
    requires { HasPlace packets.old }
    ensures made { packets.new.items ≡ packets.old.items ++ copies (Some bytes) }
    ensures number { result ≡ length packets.old.items + 1 }
{
    let packet = SentPacket {
        bytes,
        sender: None,
        inputs: None,
    };
    add(packets, packet)
}
