//! Packets as bytes.

ghost use Rattle.std.specs.Prelude.{◌≡◌, ◌+◌, ◌≤◌, ◌++◌, length, IsTrue, ◌↔◌, OnOk, OnErr, [], ◌∷◌};
ghost use Rattle.std.specs.Int.{w16, to_be_bytes};
ghost use Rattle.auc_attr.specs.Frame.{end_code, message_code};
ghost use Rattle.auc_memory.specs.Reserved.{wrote};
ghost use Rattle.auc_packet.specs.Spelling.{packet_text, whole, MayBeWritten};

use crate::packet::Packet;
use crate::subtype::subtype_number;
use auc_attr::put_attrs;
use auc_hmac::method_type;
use auc_memory::{NoMemory, Octets, Room};

/// Appends a packet to `out`, with zeros as reserved bytes and fill. If memory runs out, `out` stays as it was.
pub fn write_packet(packet: &Packet, out: &mut Octets) -> Result<(), NoMemory>
    requires { MayBeWritten packet.now }

    ensures written { OnOk result (out.new ≡ out.old ++ packet_text packet.now) }
    ensures kept { OnErr result (out.new ≡ out.old) }
{
    let mut room = out.room(size_of(packet))?;
    put_packet(packet, &mut room);
    out.append(room.as_slice())
}

/// Writes a packet into memory that was taken before this call.
pub fn put_packet(packet: &Packet, room: &mut Room)
    requires writable { MayBeWritten packet.now }
    requires room { length (packet_text packet.now) ≤ room.old.left }
    ensures { room.new ≡ wrote room.old (packet_text packet.now) }
{
    let size = size_of(packet);
    match packet {
        Packet::Success(id) => put_head(room, 3, *id, size),
        Packet::Failure(id) => put_head(room, 4, *id, size),
        Packet::Identity { request, id, text } => {
            put_head(room, message_code(*request), *id, size);
            room.put(&[1]);
            room.put(text.as_slice());
        }
        Packet::Aka {
            request,
            id,
            method,
            subtype,
            attrs,
        } => {
            put_head(room, message_code(*request), *id, size);
            room.put(&[method_type(*method), subtype_number(*subtype), 0, 0]);
            put_attrs(attrs, room);
        }
    }
}

/// How many bytes a written packet takes.
pub fn size_of(packet: &Packet) -> usize
    requires { MayBeWritten packet.now }
    ensures { result ≡ length (packet_text packet.now) }
{
    match packet {
        Packet::Success(_) | Packet::Failure(_) => 4,
        Packet::Identity {
            request: _,
            id: _,
            text,
        } => 5 + text.len(),
        Packet::Aka {
            request: _,
            id: _,
            method: _,
            subtype: _,
            attrs,
        } => 8 + attrs.size(),
    }
}

impl Packet {
    /// Whether the packet may be written: its attributes may, and it has at most 4096 bytes.
    pub fn writable(&self) -> bool
        ensures { IsTrue result ↔ MayBeWritten self.now }
    {
        match self {
            Packet::Success(_) | Packet::Failure(_) => true,
            Packet::Identity {
                request: _,
                id: _,
                text,
            } => text.len() <= 4091,
            Packet::Aka {
                request: _,
                id: _,
                method: _,
                subtype: _,
                attrs,
            } => attrs.writable() && attrs.is_within(4088),
        }
    }
}

/// Code, Identifier and Length.
pub(crate) fn put_head(room: &mut Room, code: u8, id: u8, size: usize)
    requires small { size ≤ 4096 }
    requires room { 4 ≤ room.old.left }
    ensures { room.new ≡ wrote room.old (code ∷ id ∷ to_be_bytes w16 size) }
{
    room.put(&[code, id]);
    room.put(&(size as u16).to_be_bytes());
}

pub(crate) fn message_code(request: bool) -> u8
    ensures { result ≡ message_code request }
{
    if request { 1 } else { 2 }
}
