//! The peer of a session.

ghost use Rattle.std.specs.Prelude.{◌≡◌, ◌≤◌, length, IfOk, OnErr};
ghost use Rattle.auc_sim.specs.InnerPeer.{HasRands, kept_with, responded, row_does, started};
ghost use Rattle.auc_sim.specs.InnerSeveral.{listed};
ghost use Rattle.auc_sim.specs.Peer.{PeerTurns, ended, last_of, new_peer, peer_turn, refused, unless_repeated};
ghost use Rattle.auc_sim_packet.specs.Received.{IsSimReceived, sim_seen_of};

use crate::rows::{Row, row_of};
use crate::several::Several;
use auc_hmac::KeySet;
use auc_memory::{NoMemory, Octets};
use auc_milenage::Secret;
use auc_sim_packet::{
    SimPacket, SimReceived, challenge_response, client_error, receive_sim, start_response,
};
use auc_vector::{Outcome, Reason, SimWhy, Step};
use std::alloc::Global;
use std::marker::Model;

/// Where a peer stands in its session.
#[derive(Drop)]
pub enum SimWait {
    /// It waits for Start.
    WaitStart,
    /// It has answered Start, whose AT_VERSION_LIST had these versions, two bytes each, and waits for a Challenge.
    WaitChallenge(Octets),
    /// It has answered a Challenge whose AT_MAC was right, and has these keys.
    Answered(KeySet),
    /// It has refused for this cause, and waits for EAP-Failure.
    Refusing(SimWhy),
    /// The session has ended so.
    Ended(Outcome<SimWhy>),
}

/// The request that a peer answered last.
#[derive(Drop)]
pub struct SimLast {
    /// The Identifier of the request.
    pub id: u8,
    /// All its bytes.
    pub request: Octets,
    /// The answer.
    pub answer: Octets,
}

/// The peer of a session. Contracts see a `SimPeerState`.
#[derive(Drop)]
pub struct SimPeer {
    pub(crate) secret: Secret,
    pub(crate) nonce: [u8; 16],
    pub(crate) identity: Octets,
    pub(crate) last: Option<SimLast>,
    pub(crate) at: SimWait,
}

impl Model for SimPeer {
    ghost use Rattle.std.specs.Prelude.{◌≤◌, length};
    ghost use Rattle.auc_sim.specs.Peer.{SimPeerState};

    ghost Value = { SimPeerState };

    ghost view = { λ p. record { secret = p.secret; identity = p.identity; nonce = p.nonce; last = p.last; at = p.at } };

    ghost invariant = { λ p. length p.identity ≤ 1016 };
}

impl SimPeer {
    /// A peer of an identity of at most 1016 bytes, which has received nothing. Its USIM has the secret, and the nonce is
    /// NONCE_MT.
    pub fn new(
        alloc: Global,
        s: Secret,
        identity: &[u8],
        nonce: [u8; 16],
    ) -> Result<SimPeer, NoMemory>
        requires { length identity.now ≤ 1016 }
        ensures { IfOk result (λ peer. peer ≡ new_peer s identity.now nonce) }
    {
        let identity = Octets::copied_from(alloc, identity)?;
        Ok(SimPeer {
            secret: s,
            nonce,
            identity,
            last: None,
            at: SimWait::WaitStart,
        })
    }

    /// Takes received bytes: answers them, ends or ignores them, by the table of `specs/Peer`. If memory runs out, the peer
    /// stays as it was.
    pub fn on_bytes(&mut self, alloc: Global, bytes: &[u8]) -> Result<Step<SimWhy>, NoMemory>
        ensures turn { IfOk result (λ did. PeerTurns self.old bytes.now did self.new) }
        ensures kept { OnErr result (self.new ≡ self.old) }
    {
        let received = receive_sim(alloc, bytes)?;
        self.on_received(alloc, &received)
    }

    fn on_received(
        &mut self,
        alloc: Global,
        received: &SimReceived,
    ) -> Result<Step<SimWhy>, NoMemory>
        requires { IsSimReceived (sim_seen_of received.now) }
        ensures turn { IfOk result (λ did. (self.new, did) ≡ peer_turn self.old (sim_seen_of received.now)) }
        ensures kept { OnErr result (self.new ≡ self.old) }
    {
        if let SimWait::Ended(_) = &self.at {
            return Ok(Step::Ignored(Reason::Closed));
        }
        match &received.packet {
            None | Some(SimPacket::Sim { request: false, .. }) => {
                Ok(Step::Ignored(Reason::NotForMe))
            }
            Some(packet) => self.unless_repeated(alloc, received, packet),
        }
    }

    /// Answers the bytes of the request that was answered last by the same bytes, and takes any other packet.
    fn unless_repeated(
        &mut self,
        alloc: Global,
        received: &SimReceived,
        packet: &SimPacket,
    ) -> Result<Step<SimWhy>, NoMemory>
        requires rands { HasRands packet.now }
        requires received { IsSimReceived (sim_seen_of received.now) }
        ensures turn { IfOk result (λ did. (self.new, did) ≡ unless_repeated self.old (sim_seen_of received.now) self.old.last packet.now) }
        ensures kept { OnErr result (self.new ≡ self.old) }
    {
        if let Some(last) = &self.last {
            if received.bytes == last.request.as_slice() {
                let answer = Octets::copied_from(alloc, last.answer.as_slice())?;
                return Ok(Step::Sent(answer));
            }
        }
        let row = row_of(self, received, packet);
        self.on_row(alloc, received, row)
    }

    /// Does what a row says. If memory runs out, the peer stays as it was.
    fn on_row(
        &mut self,
        alloc: Global,
        received: &SimReceived,
        row: Row,
    ) -> Result<Step<SimWhy>, NoMemory>
        ensures turn { IfOk result (λ did. (self.new, did) ≡ row_does self.old (sim_seen_of received.now) row.entry) }
        ensures kept { OnErr result (self.new ≡ self.old) }
    {
        match row {
            Row::Ignore => Ok(Step::Ignored(Reason::Unexpected)),
            Row::Start(id, versions) => self.start(alloc, received, id, versions),
            Row::Refuse(id, why, code) => self.refuse(alloc, received, id, why, code),
            Row::Challenge(id, keys, triplets) => {
                self.respond(alloc, received, id, keys, triplets)
            }
            Row::End(outcome) => Ok(self.end(alloc, outcome)),
        }
    }

    /// Answers Start.
    fn start(
        &mut self,
        alloc: Global,
        received: &SimReceived,
        id: u8,
        versions: &[u8],
    ) -> Result<Step<SimWhy>, NoMemory>
        ensures turn { IfOk result (λ did. (self.new, did) ≡ started self.old (sim_seen_of received.now) id versions.now) }
        ensures kept { OnErr result (self.new ≡ self.old) }
    {
        let versions = Octets::copied_from(alloc, versions)?;
        let bytes = start_response(alloc, id, self.nonce, self.identity.as_slice())?;
        let sent = Sent::new(alloc, id, received.bytes, bytes)?;
        Ok(self.answer(SimWait::WaitChallenge(versions), sent))
    }

    /// Refuses a request by Client-Error.
    fn refuse(
        &mut self,
        alloc: Global,
        received: &SimReceived,
        id: u8,
        why: SimWhy,
        code: u16,
    ) -> Result<Step<SimWhy>, NoMemory>
        ensures turn { IfOk result (λ did. (self.new, did) ≡ refused self.old (sim_seen_of received.now) id why code) }
        ensures kept { OnErr result (self.new ≡ self.old) }
    {
        let bytes = client_error(alloc, id, code)?;
        let sent = Sent::new(alloc, id, received.bytes, bytes)?;
        Ok(self.answer(SimWait::Refusing(why), sent))
    }

    /// Answers a Challenge.
    fn respond(
        &mut self,
        alloc: Global,
        received: &SimReceived,
        id: u8,
        keys: KeySet,
        triplets: Several,
    ) -> Result<Step<SimWhy>, NoMemory>
        ensures turn { IfOk result (λ did. (self.new, did) ≡ responded self.old (sim_seen_of received.now) id keys (listed triplets)) }
        ensures kept { OnErr result (self.new ≡ self.old) }
    {
        let bytes = challenge_response(alloc, id, &keys.k_aut, triplets.as_slice())?;
        let sent = Sent::new(alloc, id, received.bytes, bytes)?;
        Ok(self.answer(SimWait::Answered(keys), sent))
    }

    /// Keeps a request and its answer, and sends the answer.
    fn answer(&mut self, at: SimWait, sent: Sent) -> Step<SimWhy>
        ensures { (self.new, result) ≡ kept_with self.old sent.last at sent.bytes }
    {
        let Sent { last, bytes } = sent;
        self.last = Some(last);
        self.at = at;
        Step::Sent(bytes)
    }

    /// Ends the session.
    fn end(&mut self, alloc: Global, outcome: Outcome<SimWhy>) -> Step<SimWhy>
        ensures { (self.new, result) ≡ ended self.old outcome }
    {
        self.at = SimWait::Ended(outcome);
        Step::Ended(outcome, Octets::new(alloc))
    }
}

/// The answer to a request, and what is kept of both.
#[derive(Drop)]
struct Sent {
    last: SimLast,
    bytes: Octets,
}

impl Sent {
    /// An answer to a request.
    fn new(alloc: Global, id: u8, request: &[u8], bytes: Octets) -> Result<Sent, NoMemory>
        ensures last { IfOk result (λ sent. sent.last ≡ last_of id request.now bytes) }
        ensures bytes { IfOk result (λ sent. sent.bytes ≡ bytes) }
    {
        let request = Octets::copied_from(alloc, request)?;
        let answer = Octets::copied_from(alloc, bytes.as_slice())?;
        Ok(Sent {
            last: SimLast {
                id,
                request,
                answer,
            },
            bytes,
        })
    }
}
