//! Bytes as they are received.

ghost use Rattle.std.specs.Prelude.{◌≡◌, ℕ, List, Some, IfOk};
ghost use Rattle.auc_attr.specs.Mac.{IsMacPlace};
ghost use Rattle.auc_packet.specs.Packet.{FirstPacketFault};
ghost use Rattle.auc_packet.specs.Received.{IsReading, IsReceived, attrs_in, is_sealed, is_sealed_at, packet_in, seen_of};

use crate::packet::Packet;
use crate::reading::read_packet;
use crate::refusal::PacketRefusal;
use auc_attr::{Attr, length_of, mac_place};
use auc_hmac::{Method, mac_at, piece_of};
use auc_memory::NoMemory;
use std::alloc::Global;

/// What bytes are.
#[derive(Drop)]
pub enum Reading {
    /// They are this packet.
    Read(Packet),
    /// They are no packet, and have this first fault, which isn't `NoMemory`.
    Fault(PacketRefusal),
}

/// Bytes that were received, with all that they are. Contracts see it as its `Seen` (`seen_of`).
#[derive(Drop)]
pub struct Received<'a> {
    /// The bytes, with those past Length.
    pub bytes: &'a [u8],
    /// The packet, or the first fault.
    pub reading: Reading,
    /// The place of the first of the 16 bytes of AT_MAC's value, or `None` if the bytes have a fault or no AT_MAC.
    pub place: Option<usize>,
}

/// Receives bytes: reads them as a packet or as their first fault, and finds their AT_MAC. It fails only if memory
/// runs out.
pub fn receive(alloc: Global, bytes: &[u8]) -> Result<Received<'_>, NoMemory>
    ensures bytes { IfOk result (λ received. (seen_of received).bytes ≡ bytes.now) }
    ensures received { IfOk result (λ received. IsReceived (seen_of received)) }
{
    let reading = read(alloc, bytes)?;
    Ok(Received {
        bytes,
        reading,
        place: mac_place(bytes),
    })
}

fn read(alloc: Global, bytes: &[u8]) -> Result<Reading, NoMemory>
    ensures { IfOk result (λ reading. IsReading bytes.now reading) }
{
    match read_packet(alloc, bytes) {
        Ok(packet) => Ok(Reading::Read(packet)),
        Err(fault) => reading_of(fault),
    }
}

/// The reading of bytes with a fault.
fn reading_of(fault: PacketRefusal) -> Result<Reading, NoMemory>
    ensures { (bytes : List ℕ) → FirstPacketFault bytes fault → IfOk result (λ reading. IsReading bytes reading) }
{
    match fault {
        PacketRefusal::NoMemory => Err(NoMemory),
        _ => Ok(Reading::Fault(fault)),
    }
}

/// The attributes of a message; another packet has none.
pub fn attrs_in(reading: &Reading) -> &[Attr]
    ensures { result.now ≡ attrs_in reading.now }
{
    match reading {
        Reading::Read(Packet::Aka { attrs, .. }) => attrs.as_slice(),
        _ => &[],
    }
}

/// The packet at the front of received bytes, as long as Length says; all bytes if there are no more.
pub fn packet_in(bytes: &[u8]) -> &[u8]
    ensures { result.now ≡ packet_in bytes.now }
{
    if bytes.len() < 4 {
        return bytes;
    }
    let size = length_of(bytes);
    if bytes.len() <= size {
        return bytes;
    }
    &bytes[..size]
}

/// Whether received bytes have AT_MAC, and its value is right (RFC 4187 §10.15, RFC 9048 §3.4.2). The message
/// authenticates `extra` besides the packet. The key of EAP-AKA is the first 16 bytes of `k_aut`, that of EAP-AKA'
/// all 32. Takes no memory.
#[tactic(auto, unfolding(crate::specs::Received::is_sealed))]
pub fn is_sealed(received: &Received, method: Method, k_aut: &[u8; 32], extra: &[u8]) -> bool
    requires { IsReceived (seen_of received.now) }
    ensures { result ≡ is_sealed method k_aut.now extra.now (seen_of received.now) }
{
    match received.place {
        None => false,
        Some(place) => is_sealed_at(received.bytes, place, method, k_aut, extra),
    }
}

/// Whether the value of AT_MAC that begins at a place is right.
fn is_sealed_at(packet: &[u8], place: usize, method: Method, k_aut: &[u8; 32], extra: &[u8]) -> bool
    requires { IsMacPlace packet.now (Some place) }
    ensures { result ≡ is_sealed_at method k_aut.now extra.now packet.now (Some place) }
{
    let size = length_of(packet);
    piece_of::<16>(packet, place) == mac_at(method, k_aut, size, packet, place, extra)
}
