//! A peer with its device.

ghost use Rattle.std.specs.Prelude.{◌≤◌};
ghost use Rattle.auc_sqn.specs.Number.{top_of};

use crate::server_end::random_key;
use crate::text::Text;
use crate::turn::{put_peer_step, put_peer_turn};
use auc_memory::{Imsi, NoMemory, Octets};
use auc_milenage::Secret;
use auc_peer::{Device, Peer, PeerOptions};
use auc_random::Rands;
use auc_reauth::DeviceStore;
use auc_usim::Usim;
use std::alloc::Global;

/// The index length of the subscriber.
pub const BITS: u8 = 5;

/// A peer with its device.
#[derive(Drop)]
pub struct PeerEnd {
    rands: Rands,
    peer: Peer,
    device: Device,
    sessions: u32,
}

impl PeerEnd {
    /// A peer whose USIM counts the numbers up to a word as accepted.
    pub fn begin(alloc: Global, options: PeerOptions, word: u64) -> Result<PeerEnd, NoMemory>
        requires { word ≤ top_of 5 }
    {
        let Some(imsi) = Imsi::read(b"001010000000001") else {
            return Err(NoMemory);
        };
        let usim = Usim::new(secret(), word, BITS, None);
        let realm = Octets::new(alloc);
        Ok(PeerEnd {
            rands: Rands::new(random_key()),
            peer: Peer::new(options, alloc),
            device: Device {
                imsi,
                usim,
                store: DeviceStore::new(),
                realm,
            },
            sessions: 1,
        })
    }

    /// The number of the device's next session.
    pub fn next_session(&self) -> u32 {
        self.sessions.wrapping_add(1)
    }

    /// The device's next session begins.
    pub fn next(&mut self, alloc: Global, options: PeerOptions) {
        self.sessions = options.session;
        self.peer = Peer::new(options, alloc);
    }

    /// Receives bytes.
    pub fn receive(&mut self, alloc: Global, bytes: &[u8], text: &mut Text) {
        let device = &mut self.device;
        match self.peer.on_bytes(alloc, &self.rands, device, bytes) {
            Ok(turn) => put_peer_turn(&turn, text),
            Err(NoMemory) => text.fail(),
        }
    }

    /// The peer gives up.
    pub fn give_up(&mut self, alloc: Global, text: &mut Text) {
        let step = self.peer.give_up(alloc);
        put_peer_step(&step, text);
    }
}

/// K and OPc of TS 35.208 §4.3, test set 1.
pub fn secret() -> Secret {
    Secret {
        k: 0x465b5ce8b199b49faa5f0a2ee238a6bc_u128.to_be_bytes(),
        opc: 0xcd63cb71954a9f4e48a5994e37a02baf_u128.to_be_bytes(),
    }
}
