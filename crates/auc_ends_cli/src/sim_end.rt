//! Both ends of EAP-SIM. A line takes an end from session to session.

use crate::peer_end::secret;
use crate::server_end::random_key;
use crate::text::Text;
use crate::turn::{put_sent, put_sim_step};
use auc_memory::NoMemory;
use auc_random::Rands;
use auc_sim::{SimPeer, SimServer, Triplet, card};
use auc_sqn::MAX_SEQ;
use std::alloc::Global;

/// The permanent identity of the subscriber (RFC 4186 §4.2.1.6).
const IDENTITY: &[u8] = b"1001010000000001";

/// A server, whose triplets are those of the RANDs of the subscriber's next numbers.
#[derive(Drop)]
pub struct SimServerEnd {
    server: SimServer,
    has_three: bool,
    last: u64,
}

impl SimServerEnd {
    /// A server that challenges with two or three triplets, of the numbers after a last one. Its first request is printed.
    pub fn begin(
        alloc: Global,
        last: u64,
        has_three: bool,
        text: &mut Text,
    ) -> Result<SimServerEnd, NoMemory> {
        let triplets = triplets_after(last);
        let count = if has_three { 3 } else { 2 };
        let (server, first) = SimServer::start(alloc, IDENTITY, &triplets[..count])?;
        put_sent(first.as_slice(), text);
        Ok(SimServerEnd {
            server,
            has_three,
            last: last.wrapping_add(count as u64),
        })
    }

    /// The server of the next session.
    pub fn next(&mut self, alloc: Global, text: &mut Text) {
        match SimServerEnd::begin(alloc, self.last, self.has_three, text) {
            Ok(next) => *self = next,
            Err(NoMemory) => text.fail(),
        }
    }

    /// Receives bytes.
    pub fn receive(&mut self, alloc: Global, bytes: &[u8], text: &mut Text) {
        match self.server.on_bytes(alloc, bytes) {
            Ok(step) => put_sim_step(&step, text),
            Err(NoMemory) => text.fail(),
        }
    }
}

/// The triplets of the three numbers after a last one.
fn triplets_after(last: u64) -> [Triplet; 3] {
    let rands = Rands::new(random_key());
    [
        triplet_of(&rands, last.wrapping_add(1)),
        triplet_of(&rands, last.wrapping_add(2)),
        triplet_of(&rands, last.wrapping_add(3)),
    ]
}

/// The triplet of a number.
fn triplet_of(rands: &Rands, n: u64) -> Triplet {
    card(&secret(), rands.rand_of(0, n))
}

/// A peer, whose NONCE_MT is that of a number.
#[derive(Drop)]
pub struct SimPeerEnd {
    peer: SimPeer,
    number: u64,
}

impl SimPeerEnd {
    /// A peer with the NONCE_MT of a number.
    pub fn begin(alloc: Global, number: u64) -> Result<SimPeerEnd, NoMemory> {
        let nonce = Rands::new(random_key()).sim_nonce(0, number);
        let peer = SimPeer::new(alloc, secret(), IDENTITY, nonce)?;
        Ok(SimPeerEnd { peer, number })
    }

    /// The peer of the next session, with the NONCE_MT of the next number; after the last one that of number 1.
    pub fn next(&mut self, alloc: Global, text: &mut Text) {
        match SimPeerEnd::begin(alloc, self.number % MAX_SEQ + 1) {
            Ok(next) => {
                *self = next;
                text.put("peer");
            }
            Err(NoMemory) => text.fail(),
        }
    }

    /// Receives bytes.
    pub fn receive(&mut self, alloc: Global, bytes: &[u8], text: &mut Text) {
        match self.peer.on_bytes(alloc, bytes) {
            Ok(step) => put_sim_step(&step, text),
            Err(NoMemory) => text.fail(),
        }
    }
}
