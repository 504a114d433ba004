//! Packets as bytes.

ghost use Rattle.std.specs.Prelude.{◌≡◌, ◌+◌, ◌≤◌, ◌++◌, length, true, OnOk, OnErr, ◌∷◌};
ghost use Rattle.std.specs.Int.{w16, to_be_bytes};
ghost use Rattle.auc_attr.specs.Frame.{message_code};
ghost use Rattle.auc_attr.specs.Spelling.{fits_item_in, item_text_in};
ghost use Rattle.auc_attr.specs.declared.table.Table.TheVariants as tables;
ghost use Rattle.auc_memory.specs.Reserved.{wrote};
ghost use Rattle.auc_sim_packet.specs.Attributes.{item_of};
ghost use Rattle.auc_sim_packet.specs.Spelling.{sim_text, spelling, writable, MayBeWrittenSim};

use crate::attr::SimAttr;
use crate::attr_list::SimList;
use crate::conversion::parts_of;
use crate::packet::SimPacket;
use auc_attr::{Table, put_item, size_of_item};
use auc_memory::{NoMemory, Octets, Room};

/// Appends a packet to `out`, with zeros as reserved bytes and fill. If memory runs out, `out` stays as it was.
pub fn write_sim(packet: &SimPacket, out: &mut Octets) -> Result<(), NoMemory>
    requires { MayBeWrittenSim packet.now }

    ensures written { OnOk result (out.new ≡ out.old ++ sim_text packet.now) }
    ensures kept { OnErr result (out.new ≡ out.old) }
{
    let mut room = out.room(size_of(packet))?;
    put_packet(packet, &mut room);
    out.append(room.as_slice())
}

/// Writes a packet into memory that was taken before this call.
fn put_packet(packet: &SimPacket, room: &mut Room)
    requires writable { MayBeWrittenSim packet.now }
    requires room { length (sim_text packet.now) ≤ room.old.left }
    ensures { room.new ≡ wrote room.old (sim_text packet.now) }
{
    let size = size_of(packet);
    match packet {
        SimPacket::Success(id) => put_head(room, 3, *id, size),
        SimPacket::Failure(id) => put_head(room, 4, *id, size),
        SimPacket::Sim {
            request,
            id,
            subtype,
            attrs,
        } => {
            put_head(room, message_code(*request), *id, size);
            room.put(&[18, *subtype, 0, 0]);
            put_attrs(attrs, room);
        }
    }
}

/// How many bytes a written packet takes.
fn size_of(packet: &SimPacket) -> usize
    requires { MayBeWrittenSim packet.now }
    ensures { result ≡ length (sim_text packet.now) }
{
    match packet {
        SimPacket::Success(_) | SimPacket::Failure(_) => 4,
        SimPacket::Sim {
            request: _,
            id: _,
            subtype: _,
            attrs,
        } => 8 + size_of_attrs(attrs),
    }
}

/// How many bytes written attributes take.
pub(crate) fn size_of_attrs(attrs: &SimList) -> usize
    requires writable { writable attrs.now ≡ true }
    requires small { length (spelling attrs.now) ≤ 4096 }
    ensures { result ≡ length (spelling attrs.now) }
{
    let mut size: usize = 0;
    for attr in attrs.as_slice() {
        size += size_of_attr(attr);
    }
    size
}

/// Writes attributes into memory that was taken before this call.
pub(crate) fn put_attrs(attrs: &SimList, room: &mut Room)
    requires writable { writable attrs.now ≡ true }
    requires room { length (spelling attrs.now) ≤ room.old.left }
    ensures { room.new ≡ wrote room.old (spelling attrs.now) }
{
    for attr in attrs.as_slice() {
        put_attr(attr, room);
    }
}

fn put_attr(attr: &SimAttr, room: &mut Room)
    requires fits { fits_item_in tables.Sim (item_of attr.now) ≡ true }
    requires room { length (item_text_in tables.Sim (item_of attr.now)) ≤ room.old.left }
    ensures { room.new ≡ wrote room.old (item_text_in tables.Sim (item_of attr.now)) }
{
    let parts = parts_of(attr);
    put_item(Table::Sim, parts.kind, parts.value.as_slice(), room);
}

/// How many bytes a written attribute takes.
pub(crate) fn size_of_attr(attr: &SimAttr) -> usize
    requires { fits_item_in tables.Sim (item_of attr.now) ≡ true }
    ensures { result ≡ length (item_text_in tables.Sim (item_of attr.now)) }
{
    let parts = parts_of(attr);
    size_of_item(Table::Sim, parts.kind, parts.value.as_slice())
}

/// Code, Identifier and Length.
pub(crate) fn put_head(room: &mut Room, code: u8, id: u8, size: usize)
    requires small { size ≤ 4096 }
    requires room { 4 ≤ room.old.left }
    ensures { room.new ≡ wrote room.old (code ∷ id ∷ to_be_bytes w16 size) }
{
    room.put(&[code, id]);
    room.put(&(size as u16).to_be_bytes());
}

pub(crate) fn message_code(request: bool) -> u8
    ensures { result ≡ message_code request }
{
    if request { 1 } else { 2 }
}
