//! The network of a job's sessions: packets and sessions.

use auc_hmac::{KeySet, Master, Method};
use auc_lines::End;
use auc_memory::Octets;
use auc_peer::Peer;
use auc_server::{Server, ServerOptions};

/// What an end derives its keys from in a full authentication (RFC 4187 §7, RFC 9048 §3.3): the method and the network's
/// name, which is empty for EAP-AKA; the subscriber, with its secret; RAND and AUTN of the challenge; and the identity.
#[derive(Drop)]
pub struct FullInputs {
    pub method: Method,
    pub name: Octets,
    pub sub: u32,
    pub rand: [u8; 16],
    pub autn: [u8; 16],
    pub identity: Octets,
}

/// What an end derives its keys from in a fast re-authentication, beside the counter and NONCE_S that its messages carry
/// (RFC 4187 §7, RFC 9048 §3.3): the method; the subscriber; the identity; and K_encr, K_aut and the master key of the context.
#[derive(Drop)]
pub struct FastInputs {
    pub method: Method,
    pub sub: u32,
    pub identity: Octets,
    pub k_encr: [u8; 16],
    pub k_aut: [u8; 32],
    pub master: Master,
}

/// What an end derives its keys from.
#[derive(Drop)]
pub enum Inputs {
    /// In a full authentication.
    Full(FullInputs),
    /// In a fast re-authentication.
    Fast(FastInputs),
}

/// A packet that an end sent, or a changed copy of one.
#[derive(Drop)]
pub struct SentPacket {
    pub bytes: Octets,
    /// The end that sent it, or `None` if the network made it of another.
    pub sender: Option<End>,
    /// What the sender derived its keys from when it sent the packet, or `None` if it had no keys.
    pub inputs: Option<Inputs>,
}

/// A session.
#[derive(Drop)]
pub struct Session {
    /// The number under which it was opened, by which events name it.
    pub number: u32,
    /// The subscriber at whose device it was opened.
    pub sub: u32,
    /// The place of this device.
    pub device: u32,
    /// What its server starts with.
    pub options: ServerOptions,
    /// The server, or `None` before it starts.
    pub server: Option<Server>,
    pub peer: Peer,
    /// The keys under which the peer ended in Success, or `None` if it didn't.
    pub peer_keys: Option<KeySet>,
}
