//! Bytes as they are received.

ghost use Rattle.std.specs.Prelude.{◌≡◌, ℕ, List, Some, IfOk};
ghost use Rattle.auc_attr.specs.Mac.{IsMacPlaceIn};
ghost use Rattle.auc_attr.specs.declared.table.Table.TheVariants as tables;
ghost use Rattle.auc_sim_packet.specs.Packet.{FirstSimFault};
ghost use Rattle.auc_sim_packet.specs.Received.{IsSimReading, IsSimReceived, is_sim_sealed, is_sim_sealed_at, sim_seen_of};

use crate::packet::SimPacket;
use crate::reading::read_sim;
use crate::refusal::SimRefusal;
use auc_attr::{Table, length_of, mac_place_in};
use auc_hmac::{Method, mac_at, piece_of};
use auc_memory::NoMemory;
use std::alloc::Global;

/// Bytes that were received, with all that they are. Contracts see it as its `SimSeen` (`sim_seen_of`).
#[derive(Drop)]
pub struct SimReceived<'a> {
    /// The bytes, with those past Length.
    pub bytes: &'a [u8],
    /// The packet, or `None` if the bytes have a fault.
    pub packet: Option<SimPacket>,
    /// The place of the first of the 16 bytes of AT_MAC's value, or `None` if the bytes have a fault or no AT_MAC.
    pub place: Option<usize>,
}

/// Receives bytes: reads them as a packet, and finds their AT_MAC. It fails only if memory runs out.
pub fn receive_sim(alloc: Global, bytes: &[u8]) -> Result<SimReceived<'_>, NoMemory>
    ensures bytes { IfOk result (λ received. (sim_seen_of received).bytes ≡ bytes.now) }
    ensures received { IfOk result (λ received. IsSimReceived (sim_seen_of received)) }
{
    let packet = read(alloc, bytes)?;
    Ok(SimReceived {
        bytes,
        packet,
        place: mac_place_in(Table::Sim, bytes),
    })
}

fn read(alloc: Global, bytes: &[u8]) -> Result<Option<SimPacket>, NoMemory>
    ensures { IfOk result (λ packet. IsSimReading bytes.now packet) }
{
    match read_sim(alloc, bytes) {
        Ok(packet) => Ok(Some(packet)),
        Err(fault) => reading_of(fault),
    }
}

/// The reading of bytes with a fault.
fn reading_of(fault: SimRefusal) -> Result<Option<SimPacket>, NoMemory>
    ensures { (bytes : List ℕ) → FirstSimFault bytes fault → IfOk result (λ packet. IsSimReading bytes packet) }
{
    match fault {
        SimRefusal::NoMemory => Err(NoMemory),
        _ => Ok(None),
    }
}

/// Whether received bytes have AT_MAC, and its value is right (RFC 4186 §10.14). The message authenticates `extra`
/// besides the packet. The key is the first 16 bytes of `k_aut`. Takes no memory.
#[tactic(auto, unfolding(crate::specs::Received::is_sim_sealed))]
pub fn is_sim_sealed(received: &SimReceived, k_aut: &[u8; 32], extra: &[u8]) -> bool
    requires { IsSimReceived (sim_seen_of received.now) }
    ensures { result ≡ is_sim_sealed k_aut.now extra.now (sim_seen_of received.now) }
{
    match received.place {
        None => false,
        Some(place) => is_sim_sealed_at(received.bytes, place, k_aut, extra),
    }
}

/// Whether the value of AT_MAC that begins at a place is right.
fn is_sim_sealed_at(packet: &[u8], place: usize, k_aut: &[u8; 32], extra: &[u8]) -> bool
    requires { IsMacPlaceIn tables.Sim packet.now (Some place) }
    ensures { result ≡ is_sim_sealed_at k_aut.now extra.now packet.now (Some place) }
{
    let size = length_of(packet);
    piece_of::<16>(packet, place) == mac_at(Method::Aka, k_aut, size, packet, place, extra)
}
