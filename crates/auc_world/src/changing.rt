//! Changed copies of packets, which the network makes.

ghost use Rattle.std.specs.Prelude.{◌≡◌, ◌<◌, ◌++◌, Some, length, slice_set, IfOk, OnErr};
ghost use Rattle.std.specs.Option.{option_copied};
ghost use Rattle.auc_world.specs.Came.{came_changed};
ghost use Rattle.auc_world.specs.InnerWorld.{copy_by};
ghost use Rattle.auc_world.specs.Net.{copies, packet_at};

use crate::acting::{Came, note};
use crate::net::SentPacket;
use crate::posting::{make_place, post_made};
use auc_memory::{NoMemory, Octets, Room};
use auc_record::{NoteStep, WorldRefusal, copy_of};
use std::alloc::Global;

/// How the copy of a packet differs from it.
#[derive(Clone, Copy)]
pub(crate) enum Change {
    /// The byte at the place, from 0, is this one.
    Byte { place: u32, byte: u8 },
    /// So many bytes stay, from the front.
    Cut(u32),
}

/// A copy of some bytes with another byte at a place.
fn with_byte(alloc: Global, bytes: &[u8], place: usize, byte: u8) -> Result<Octets, NoMemory>
    requires { place < length bytes.now }
    ensures { IfOk result (λ copy. copy ≡ slice_set bytes.now place byte) }
{
    let mut room = Room::new(alloc, bytes.len())?;
    room.put(&bytes[..place]);
    room.put(&[byte]);
    room.put(&bytes[place + 1..]);
    Ok(room.into_octets())
}

/// The changed copy of a packet, if the packet has the place.
fn changed(alloc: Global, sent: &SentPacket, change: Change) -> Result<Option<Octets>, NoMemory>
    ensures { IfOk result (λ copy. copy ≡ copy_by change (Some sent.now)) }
{
    let bytes = sent.bytes.as_slice();
    let (Change::Byte { place, .. } | Change::Cut(place)) = change;
    let place = place as usize;
    if bytes.len() <= place {
        return Ok(None);
    }
    match change {
        Change::Byte { byte, .. } => Ok(Some(with_byte(alloc, bytes, place, byte)?)),
        Change::Cut(_) => Ok(Some(Octets::copied_from(alloc, &bytes[..place])?)),
    }
}

/// The packet of a number, if it is there.
fn packet_of(packets: &[SentPacket], packet: u32) -> Option<&SentPacket>
    ensures { option_copied result ≡ packet_at packets.now packet }
{
    let place = packet.checked_sub(1)?;
    packets.get(place as usize)
}

/// Makes a changed copy of a packet, which is a packet that no end sent.
pub(crate) fn change_packet(
    alloc: Global,
    packets: &mut Vec<SentPacket>,
    packet: u32,
    change: Change,
) -> Result<Came, NoMemory>
    ensures came { IfOk result (λ came. came ≡ came_changed packets.old.items (packet_at packets.old.items packet)
        (copy_by change (packet_at packets.old.items packet))) }
    ensures made { IfOk result (λ _. packets.new.items ≡ packets.old.items ++ copies (copy_by change (packet_at packets.old.items packet))) }
    ensures kept { OnErr result (packets.new.items ≡ packets.old.items) }
{
    let Some(sent) = packet_of(packets, packet) else {
        return Ok(Err(WorldRefusal::NoSuchPacket));
    };
    let Some(bytes) = changed(alloc, sent, change)? else {
        return Ok(Err(WorldRefusal::NoSuchPlace));
    };
    let copy = copy_of(alloc, &bytes)?;
    make_place(packets)?;
    let number = post_made(packets, copy);
    Ok(Ok(note(NoteStep::Made(bytes), Some(number))))
}
