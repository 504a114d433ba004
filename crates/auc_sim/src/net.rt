//! Both ends of a session in memory, with the packets between them.

ghost use Rattle.std.specs.Prelude.{◌≡◌, ◌<◌, ◌≤◌, ◌+◌, ◌^◌, ◌-◌, IfOk, OnOk, length, option_copied};
ghost use Rattle.auc_sim.specs.Session.{number_sent, packet_numbered, sent_in, with_sent};

use crate::peer::{SimPeer, SimWait};
use crate::server::{SimAwait, SimServer};
use auc_hmac::KeySet;
use auc_lines::{End, SimDelivery};
use auc_memory::{Items, NoMemory, Octets};
use auc_milenage::Secret;
use auc_sim_packet::Triplet;
use auc_vector::{Outcome, SimBecame, SimWhy, Step};
use std::alloc::Global;
use std::marker::Model;

/// Both ends of a session, and the packets that they sent, which are numbered from 1. Contracts see a `SimNet`.
#[derive(Drop)]
pub(crate) struct Net {
    server: SimServer,
    peer: SimPeer,
    packets: Items<Octets>,
}

impl Model for Net {
    ghost use Rattle.auc_sim.specs.Session.{SimNet};

    ghost Value = { SimNet };

    ghost view = { λ n. record { server = n.server; peer = n.peer; packets = n.packets } };
}

/// The bytes that an end sent in a step. They are empty if it sent nothing.
fn sent_in(step: &Step<SimWhy>) -> &[u8]
    ensures { result.now ≡ sent_in step.now }
{
    match step {
        Step::Sent(bytes) => bytes.as_slice(),
        Step::Ended(_, bytes) => bytes.as_slice(),
        Step::Ignored(_) => &[],
    }
}

/// The packet of a number, or `None` if there is none.
fn packet_numbered(packets: &Items<Octets>, packet: u32) -> Option<&Octets>
    ensures { option_copied result ≡ packet_numbered packets.now packet }
{
    let place = packet.checked_sub(1)?;
    packets.get(place as usize)
}

/// Sends bytes as the next packet, unless they are empty. The answer is the number of the packet.
fn send(alloc: Global, packets: &mut Items<Octets>, bytes: &[u8]) -> Result<Option<u32>, NoMemory>
    requires room { length packets.old < 2 ^ 32 - 1 }
    ensures number { IfOk result (λ sent. sent ≡ number_sent packets.old bytes.now) }
    ensures after { OnOk result (packets.new ≡ with_sent packets.old bytes.now) }
{
    if bytes.is_empty() {
        return Ok(None);
    }
    packets.push(Octets::copied_from(alloc, bytes)?)?;
    Ok(Some(packets.len() as u32))
}

impl Net {
    ghost use Rattle.auc_sim.specs.Session.{Delivers, Starts, peer_keys, server_keys};
    ghost use Rattle.auc_sim.specs.SessionParts.{Turned};

    /// Both ends, with what each of them knows, and a copy of the server's first request, which is packet 1. The identity has
    /// at most 1016 bytes, and there are 2 or 3 triplets.
    pub(crate) fn start(
        alloc: Global,
        identity: &[u8],
        triplets: &[Triplet],
        secret: &Secret,
        nonce: [u8; 16],
    ) -> Result<(Net, Octets), NoMemory>
        requires least { 2 ≤ length triplets.now }
        requires most { length triplets.now ≤ 3 }
        requires short { length identity.now ≤ 1016 }
        ensures { IfOk result (λ started. Starts
            (record { identity = identity.now; triplets = triplets.now; secret = secret.now; nonce = nonce }) started.1 started.0) }
    {
        let peer = SimPeer::new(alloc, *secret, identity, nonce)?;
        let (server, first) = SimServer::start(alloc, identity, triplets)?;
        let mut packets = Items::new(alloc);
        packets.push(Octets::copied_from(alloc, first.as_slice())?)?;
        let net = Net {
            server,
            peer,
            packets,
        };
        Ok((net, first))
    }

    /// An end receives a packet, if there is one. The packets stay as they are.
    fn turn(
        &mut self,
        alloc: Global,
        end: End,
        packet: u32,
    ) -> Result<Option<Step<SimWhy>>, NoMemory>
        ensures { IfOk result (λ turned. Turned end self.old (packet_numbered self.old.packets packet) turned self.new) }
    {
        let Some(bytes) = packet_numbered(&self.packets, packet) else {
            return Ok(None);
        };
        let step = match end {
            End::Server => self.server.on_bytes(alloc, bytes.as_slice())?,
            End::Peer => self.peer.on_bytes(alloc, bytes.as_slice())?,
        };
        Ok(Some(step))
    }

    /// A packet is delivered to an end, and what the end sends is the next packet.
    pub(crate) fn deliver(&mut self, alloc: Global, d: SimDelivery) -> Result<SimBecame, NoMemory>
        requires { length self.old.packets < 2 ^ 32 - 1 }
        ensures delivered { IfOk result (λ became. Delivers self.old d became self.new) }
    {
        match self.turn(alloc, d.end, d.packet)? {
            None => Ok(SimBecame::NoSuchPacket),
            Some(step) => {
                let sent = send(alloc, &mut self.packets, sent_in(&step))?;
                Ok(SimBecame::Did { step, sent })
            }
        }
    }

    /// The keys of the server, if it ended in Success.
    pub(crate) fn server_keys(&self) -> Option<KeySet>
        ensures { result ≡ server_keys self.now.server.at }
    {
        match self.server.at() {
            SimAwait::Ended(Outcome::Success(keys)) => Some(keys),
            _ => None,
        }
    }

    /// The keys of the peer, if it ended in Success.
    pub(crate) fn peer_keys(&self) -> Option<KeySet>
        ensures { result ≡ peer_keys self.now.peer.at }
    {
        match &self.peer.at {
            SimWait::Ended(Outcome::Success(keys)) => Some(*keys),
            _ => None,
        }
    }
}
