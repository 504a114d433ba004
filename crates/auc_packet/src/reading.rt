//! Packets from bytes.

ghost use Rattle.std.specs.Prelude.{◌≡◌, ◌≢◌, true, IfOk, IfErr, Err, ℕ, List};
ghost use Rattle.auc_attr.specs.Frame.{Ended, Named, Message, frame_at, IsFramed};
ghost use Rattle.auc_attr.specs.FrameView.{frame_of};
ghost use Rattle.auc_attr.specs.Grammar.{FirstFault};
ghost use Rattle.auc_attr.specs.PacketFault.{IsFaultWithin};
ghost use Rattle.auc_packet.specs.Laws.{has_values};
ghost use Rattle.auc_packet.specs.Packet.{ReadsPacket, FirstPacketFault};

use crate::packet::Packet;
use crate::refusal::PacketRefusal;
use crate::subtype::{method_of, subtype_of};
use auc_attr::{AttrRefusal, FrameFault, Framed, read_attrs, read_frame};
use auc_memory::Octets;
use std::alloc::Global;

/// The packet that bytes are, or their first fault: one of EAP (RFC 3748 §4), else one of the method (RFC 4187
/// §8.1), else one of the attributes. Reserved bytes, fill and the bytes after Length are skipped.
pub fn read_packet(alloc: Global, bytes: &[u8]) -> Result<Packet, PacketRefusal>
    ensures read { IfOk result (λ packet. ReadsPacket bytes.now packet) }
    ensures values { IfOk result (λ packet. has_values packet ≡ true) }
    ensures fault { IfErr result (λ fault. FirstPacketFault bytes.now fault) }
{
    match read_frame(bytes) {
        Err(fault) => Err(refusal_before(fault)),
        Ok(Framed::Ended { success: true, id }) => Ok(Packet::Success(id)),
        Ok(Framed::Ended { success: false, id }) => Ok(Packet::Failure(id)),
        Ok(Framed::Named { request, id, text }) => Ok(Packet::Identity {
            request,
            id,
            text: Octets::copied_from(alloc, text)?,
        }),
        Ok(
            Framed::Message {
                request,
                id,
                kind,
                subtype: number,
                attrs,
            },
        ) => {
            let Some(method) = method_of(kind) else {
                return Err(PacketRefusal::OtherType(kind));
            };
            let Some(subtype) = subtype_of(number) else {
                return Err(PacketRefusal::UnknownSubtype(number));
            };
            match read_attrs(alloc, attrs) {
                Ok(attrs) => Ok(Packet::Aka {
                    request,
                    id,
                    method,
                    subtype,
                    attrs,
                }),
                Err(fault) => Err(refusal_within(fault)),
            }
        }
    }
}

/// The refusal of a packet with a fault before its attributes.
fn refusal_before(fault: FrameFault) -> PacketRefusal
    ensures { (bytes : List ℕ) → frame_at bytes ≡ Err fault → FirstPacketFault bytes result }
{
    match fault {
        FrameFault::Short => PacketRefusal::Short,
        FrameFault::BadCode => PacketRefusal::BadCode,
        FrameFault::LengthDisagrees => PacketRefusal::LengthDisagrees,
        FrameFault::OtherType(kind) => PacketRefusal::OtherType(kind),
        FrameFault::UnknownSubtype(number) => PacketRefusal::UnknownSubtype(number),
    }
}

/// The refusal of a packet with a fault in its attributes.
fn refusal_within(fault: AttrRefusal) -> PacketRefusal
    ensures { (bytes : List ℕ) → IsFaultWithin bytes fault → FirstPacketFault bytes result }
{
    match fault {
        AttrRefusal::NoMemory => PacketRefusal::NoMemory,
        _ => PacketRefusal::Attr(fault),
    }
}
