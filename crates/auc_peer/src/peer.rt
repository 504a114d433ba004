//! The peer of a session.

ghost use Rattle.std.specs.Prelude.{◌≡◌, ◌≤◌, length, IfOk, OnErr};
ghost use Rattle.auc_request.specs.Request.{text_or_none};
ghost use Rattle.auc_peer.specs.Peer.{answer_or_none, network_named};
ghost use Rattle.auc_peer.specs.Subscription.{subscription_of};
ghost use Rattle.auc_peer.specs.Table.{gave_up, new_peer};
ghost use Rattle.auc_peer.specs.Turn.{Steps};

use crate::decrypted::Decrypted;
use crate::device::Device;
use crate::next::NextContext;
use crate::options::PeerOptions;
use auc_hmac::{KeySet, Method};
use auc_memory::{NoMemory, Octets};
use auc_packet::receive;
use auc_random::Rands;
use auc_reauth::Context;
use auc_seal::IdentityPackets;
use auc_vector::{Outcome, PeerWhy, Reason, Step, Turn};
use std::alloc::Global;
use std::marker::Model;

/// What an AKA-Challenge hands the USIM (RFC 4187 §9.3).
#[derive(Clone, Copy)]
pub struct Challenge {
    /// RAND.
    pub rand: [u8; 16],
    /// AUTN.
    pub autn: [u8; 16],
}

/// What a peer's keys are made from, beside the identity that it sent last (RFC 4187 §7): what the last request with a right
/// AT_MAC gave.
#[derive(Drop)]
pub enum Source {
    /// No request had a right AT_MAC yet.
    Nothing,
    /// A challenge that the USIM accepted, and the network's name in it (RFC 9048 §3.1), which is empty for EAP-AKA.
    Challenge(Challenge, Octets),
    /// The context of a fast re-authentication, as it was then.
    Context(Context),
}

/// Where a peer stands in its session.
#[derive(Clone, Copy)]
pub enum PeerState {
    /// It waits for a request.
    Waiting,
    /// It has answered a Challenge or a Reauthentication whose AT_MAC was right, and has these keys.
    Answered(KeySet),
    /// It has refused for this cause, and waits for EAP-Failure.
    Refusing(PeerWhy),
    /// The session has ended.
    Ended,
}

/// The request that a peer answered last.
#[derive(Drop)]
pub struct Last {
    /// The Identifier of the request.
    pub id: u8,
    /// All its bytes.
    pub request: Octets,
    /// The answer.
    pub answer: Octets,
}

/// The peer of a session. Contracts see its `PeerEnd`.
#[derive(Drop)]
pub struct Peer {
    pub(crate) options: PeerOptions,
    pub(crate) state: PeerState,
    /// The request that was answered last.
    pub(crate) last: Option<Last>,
    /// The identity that was sent last.
    pub(crate) identity: Option<Octets>,
    /// What its keys are made from.
    pub(crate) source: Source,
    /// The AKA-Identity packets that were received and sent.
    pub(crate) packets: IdentityPackets,
    /// What was decrypted last. The device adopts its pseudonym when the session ends in Success.
    pub(crate) inner: Decrypted,
    /// What becomes of the device's context when the session ends in Success.
    pub(crate) next: NextContext,
    /// The index of the next initialisation vector: the odd ones are the peer's.
    pub(crate) next_iv: u32,
}

impl Model for Peer {
    ghost use Rattle.auc_peer.specs.InnerPeer.{IsBrief};
    ghost use Rattle.auc_peer.specs.Peer.{PeerEnd};

    ghost Value = { PeerEnd };

    ghost view = { λ p. record { options = p.options; state = p.state; last = p.last; identity = p.identity; source = p.source; packets = p.packets; inner = p.inner; next = p.next; next_iv = p.next_iv } };

    ghost invariant = { λ p. IsBrief p.last p.identity p.source };
}

impl Peer {
    /// A peer that has received nothing.
    pub fn new(options: PeerOptions, alloc: Global) -> Peer
        ensures { result ≡ new_peer options }
    {
        Peer {
            options,
            state: PeerState::Waiting,
            last: None,
            identity: None,
            source: Source::Nothing,
            packets: IdentityPackets::new(alloc),
            inner: Decrypted::Unreadable,
            next: NextContext::Same,
            next_iv: 1,
        }
    }

    /// Takes a packet at the subscriber's device: answers it, ends or ignores it, by the table of `specs/Rows` and
    /// `specs/Table`. The USIM is asked at most once, and a counter accepted, only after all memory is taken: if memory runs
    /// out, peer and device stay as they were.
    pub fn on_bytes(
        &mut self,
        alloc: Global,
        rands: &Rands,
        device: &mut Device,
        bytes: &[u8],
    ) -> Result<Turn<PeerWhy>, NoMemory>
        ensures step { IfOk result (λ turn. Steps rands.now (subscription_of device.old) device.old.store self.old bytes.now
            device.old.usim.array self.new turn device.new.store device.new.usim.array) }
        ensures subscription { subscription_of device.new ≡ subscription_of device.old }
        ensures bits { device.new.usim.array.bits ≡ device.old.usim.array.bits }
        ensures age { device.new.usim.array.age ≡ device.old.usim.array.age }
        ensures peer { OnErr result (self.new ≡ self.old) }
        ensures device { OnErr result (device.new ≡ device.old) }
    {
        let received = receive(alloc, bytes)?;
        let row = self.row(&received);
        self.on_row(alloc, rands, device, &received, row)
    }

    /// The method.
    pub fn method(&self) -> Method
        ensures { result ≡ self.now.options.method }
    {
        self.options.method
    }

    /// The identity that it sent last, or the empty text. It has at most 511 bytes.
    pub fn identity(&self) -> &[u8]
        ensures text { result.now ≡ text_or_none self.now.identity }
        ensures size { length result.now ≤ 511 }
    {
        match &self.identity {
            Some(text) => text.as_slice(),
            None => &[],
        }
    }

    /// What its keys are made from. A network's name has at most 1016 bytes.
    pub fn source(&self) -> &Source
        ensures source { result.now ≡ self.now.source }
        ensures size { length (network_named result.now) ≤ 1016 }
    {
        &self.source
    }

    /// The answer that it sent last, or no bytes. It has at most 526.
    pub fn last_answer(&self) -> &[u8]
        ensures bytes { result.now ≡ answer_or_none self.now.last }
        ensures size { length result.now ≤ 526 }
    {
        match &self.last {
            Some(last) => last.answer.as_slice(),
            None => &[],
        }
    }

    /// Ends the session in failure, unless it has ended. It sends nothing.
    pub fn give_up(&mut self, alloc: Global) -> Step<PeerWhy>
        ensures { (self.new, result) ≡ gave_up self.old self.old.state }
    {
        if let PeerState::Ended = self.state {
            return Step::Ignored(Reason::Closed);
        }
        self.state = PeerState::Ended;
        Step::Ended(Outcome::Failure(PeerWhy::GivenUp), Octets::new(alloc))
    }
}
