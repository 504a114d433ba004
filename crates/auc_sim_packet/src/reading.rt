//! Packets from bytes.

ghost use Rattle.std.specs.Prelude.{◌≡◌, true, IfOk, IfErr, Err, ℕ, List};
ghost use Rattle.std.specs.List.{list_all};
ghost use Rattle.auc_attr.specs.Frame.{frame_at_in};
ghost use Rattle.auc_attr.specs.Grammar.{FirstFaultIn};
ghost use Rattle.auc_attr.specs.declared.table.Table.TheVariants as tables;
ghost use Rattle.auc_sim_packet.specs.Attributes.{is_value};
ghost use Rattle.auc_sim_packet.specs.Packet.{IsFaultWithinSim, ReadsSim, ReadsSimAttrs, FirstSimFault, has_values};

use crate::attr_list::SimList;
use crate::conversion::attr_of;
use crate::packet::SimPacket;
use crate::refusal::SimRefusal;
use auc_attr::{AttrRefusal, FrameFault, Framed, Seen, Table, item_at, read_frame_in};
use std::alloc::Global;

/// The packet that bytes are, or their first fault: one of EAP (RFC 3748 §4), else one of the method (RFC 4186
/// §8.1), else one of the attributes. Reserved bytes, fill and the bytes after Length are skipped.
pub fn read_sim(alloc: Global, bytes: &[u8]) -> Result<SimPacket, SimRefusal>
    ensures read { IfOk result (λ packet. ReadsSim bytes.now packet) }
    ensures values { IfOk result (λ packet. has_values packet ≡ true) }
    ensures fault { IfErr result (λ fault. FirstSimFault bytes.now fault) }
{
    match read_frame_in(Table::Sim, bytes) {
        Err(fault) => Err(refusal_before(fault)),
        Ok(Framed::Ended { success: true, id }) => Ok(SimPacket::Success(id)),
        Ok(Framed::Ended { success: false, id }) => Ok(SimPacket::Failure(id)),
        Ok(Framed::Named { .. }) => unreachable!(),
        Ok(
            Framed::Message {
                request,
                id,
                kind: _,
                subtype,
                attrs,
            },
        ) => match read_attrs(alloc, attrs) {
            Ok(attrs) => Ok(SimPacket::Sim {
                request,
                id,
                subtype,
                attrs,
            }),
            Err(fault) => Err(refusal_within(fault)),
        },
    }
}

/// The attributes that bytes are, or their first fault. An unknown type from 128 on is `Skipped`.
fn read_attrs(alloc: Global, bytes: &[u8]) -> Result<SimList, AttrRefusal>
    ensures read { IfOk result (λ list. ReadsSimAttrs bytes.now list) }
    ensures values { IfOk result (λ list. list_all is_value list ≡ true) }
    ensures fault { IfErr result (λ fault. FirstFaultIn tables.Sim bytes.now fault) }
{
    let mut list = SimList::new(alloc);
    let mut seen = Seen::new();
    let mut rest = bytes;
    while !rest.is_empty() {
        let found = item_at(Table::Sim, seen.is_marked(rest[0]), rest)?;
        let attr = attr_of(alloc, found.kind, found.value)?;
        list.push(attr)?;
        seen.mark(found.kind);
        rest = found.rest;
    }
    Ok(list)
}

/// The refusal of a packet with a fault before its attributes.
fn refusal_before(fault: FrameFault) -> SimRefusal
    ensures { (bytes : List ℕ) → frame_at_in tables.Sim bytes ≡ Err fault → FirstSimFault bytes result }
{
    match fault {
        FrameFault::Short => SimRefusal::Short,
        FrameFault::BadCode => SimRefusal::BadCode,
        FrameFault::LengthDisagrees => SimRefusal::LengthDisagrees,
        FrameFault::OtherType(kind) => SimRefusal::OtherType(kind),
        FrameFault::UnknownSubtype(number) => SimRefusal::UnknownSubtype(number),
    }
}

/// The refusal of a packet with a fault in its attributes.
fn refusal_within(fault: AttrRefusal) -> SimRefusal
    ensures { (bytes : List ℕ) → IsFaultWithinSim bytes fault → FirstSimFault bytes result }
{
    match fault {
        AttrRefusal::NoMemory => SimRefusal::NoMemory,
        _ => SimRefusal::Attr(fault),
    }
}
