//! The server of a session.

ghost use Rattle.std.specs.Prelude.{◌≡◌, ◌≤◌, length, IfOk, OnErr};
ghost use Rattle.std.specs.Option.{option_copied};
ghost use Rattle.auc_sim.specs.Server.{ServerTurns, challenged, current_id, ended, new_server, on_challenge, on_code, on_parts, on_response, server_turn};
ghost use Rattle.auc_sim_packet.specs.Messages.{start_request};
ghost use Rattle.auc_sim_packet.specs.Received.{IsSimReceived, sim_seen_of};
ghost use Rattle.auc_sim_packet.specs.Spelling.{sim_text};

use crate::several::Several;
use auc_hmac::KeySet;
use auc_memory::{NoMemory, Octets};
use auc_sim_packet::{
    SimList, SimPacket, SimReceived, Triplet, all_sres, challenge_request, code_in, has_mac,
    identity_in, is_sim_sealed, nonce_in, receive_sim, selected_in, sim_keys, start_request,
    write_sim,
};
use auc_vector::{Outcome, Reason, SimWhy, Step};
use std::alloc::Global;
use std::marker::Model;

/// Where a server stands in its session.
#[derive(Clone, Copy)]
pub enum SimAwait {
    /// It has sent Start, and waits for the response.
    AwaitStart,
    /// It has sent a Challenge under these keys, and waits for the response.
    AwaitChallenge(KeySet),
    /// The session has ended so.
    Ended(Outcome<SimWhy>),
}

/// The server of a session. Contracts see a `SimServerState`.
#[derive(Drop)]
pub struct SimServer {
    triplets: Several,
    at: SimAwait,
    identity: Octets,
}

impl Model for SimServer {
    ghost use Rattle.auc_sim.specs.InnerSeveral.{listed};
    ghost use Rattle.auc_sim.specs.Server.{SimServerState};

    ghost Value = { SimServerState };

    ghost view = { λ s. record { identity = s.identity; triplets = listed s.triplets; at = s.at } };
}

impl SimServer {
    /// Begins a session with the peer of an identity, under two or three triplets. The bytes are its Start request.
    pub fn start(
        alloc: Global,
        identity: &[u8],
        triplets: &[Triplet],
    ) -> Result<(SimServer, Octets), NoMemory>
        requires least { 2 ≤ length triplets.now }
        requires most { length triplets.now ≤ 3 }

        ensures server { IfOk result (λ made. made.0 ≡ new_server identity.now triplets.now) }
        ensures sent { IfOk result (λ made. made.1 ≡ sim_text start_request) }
    {
        let identity = Octets::copied_from(alloc, identity)?;
        let bytes = start_request(alloc)?;
        let server = SimServer {
            triplets: Several::of(triplets),
            at: SimAwait::AwaitStart,
            identity,
        };
        Ok((server, bytes))
    }

    /// Where it stands.
    pub fn at(&self) -> SimAwait
        ensures { result ≡ self.now.at }
    {
        self.at
    }

    /// Takes received bytes: answers them, ends or ignores them, by the table of `specs/Server`. If memory runs out, the
    /// server stays as it was.
    pub fn on_bytes(&mut self, alloc: Global, bytes: &[u8]) -> Result<Step<SimWhy>, NoMemory>
        ensures turn { IfOk result (λ did. ServerTurns self.old bytes.now did self.new) }
        ensures kept { OnErr result (self.new ≡ self.old) }
    {
        let received = receive_sim(alloc, bytes)?;
        self.on_received(alloc, &received)
    }

    fn on_received(
        &mut self,
        alloc: Global,
        received: &SimReceived,
    ) -> Result<Step<SimWhy>, NoMemory>
        requires { IsSimReceived (sim_seen_of received.now) }
        ensures turn { IfOk result (λ did. (self.new, did) ≡ server_turn self.old (sim_seen_of received.now)) }
        ensures kept { OnErr result (self.new ≡ self.old) }
    {
        if let SimAwait::Ended(_) = self.at {
            return Ok(Step::Ignored(Reason::Closed));
        }
        match &received.packet {
            Some(
                SimPacket::Sim {
                    request: false,
                    id,
                    subtype,
                    attrs,
                },
            ) if *id == self.current_id() => self.on_response(alloc, received, *subtype, attrs),
            _ => Ok(Step::Ignored(Reason::NotForMe)),
        }
    }

    /// The Identifier of its last request.
    fn current_id(&self) -> u8
        ensures { result ≡ current_id self.now.at }
    {
        match self.at {
            SimAwait::AwaitStart => 1,
            _ => 2,
        }
    }

    /// Takes a response to its last request.
    fn on_response(
        &mut self,
        alloc: Global,
        received: &SimReceived,
        subtype: u8,
        attrs: &SimList,
    ) -> Result<Step<SimWhy>, NoMemory>
        requires { IsSimReceived (sim_seen_of received.now) }
        ensures turn { IfOk result (λ did. (self.new, did) ≡ on_response self.old (sim_seen_of received.now) subtype attrs.now) }
        ensures kept { OnErr result (self.new ≡ self.old) }
    {
        if subtype == 14 {
            return self.on_code(alloc, code_in(attrs));
        }
        match self.at {
            SimAwait::AwaitStart if subtype == 10 => {
                self.on_parts(
                    alloc,
                    nonce_in(attrs),
                    identity_in(attrs),
                    selected_in(attrs),
                )
            }
            SimAwait::AwaitChallenge(keys) if subtype == 11 => {
                self.on_challenge(alloc, &keys, received, attrs)
            }
            _ => Ok(Step::Ignored(Reason::Unexpected)),
        }
    }

    /// Takes what a Start response has: AT_NONCE_MT, AT_IDENTITY and AT_SELECTED_VERSION.
    fn on_parts(
        &mut self,
        alloc: Global,
        nonce: Option<[u8; 16]>,
        identity: Option<&[u8]>,
        version: Option<u16>,
    ) -> Result<Step<SimWhy>, NoMemory>
        ensures turn { IfOk result (λ did. (self.new, did) ≡ on_parts self.old nonce (option_copied identity.entry) version) }
        ensures kept { OnErr result (self.new ≡ self.old) }
    {
        match (nonce, identity, version) {
            (Some(nonce), Some(_), Some(1)) => self.challenge(alloc, nonce),
            _ => Ok(Step::Ignored(Reason::Unexpected)),
        }
    }

    /// Sends the Challenge to a peer with this NONCE_MT.
    fn challenge(&mut self, alloc: Global, nonce: [u8; 16]) -> Result<Step<SimWhy>, NoMemory>
        ensures turn { IfOk result (λ did. (self.new, did) ≡ challenged self.old nonce) }
        ensures kept { OnErr result (self.new ≡ self.old) }
    {
        let triplets = self.triplets.as_slice();
        let keys = sim_keys(self.identity.as_slice(), triplets, nonce, &[0, 1]);
        let bytes = challenge_request(alloc, &keys.k_aut, nonce, triplets)?;
        self.at = SimAwait::AwaitChallenge(keys);
        Ok(Step::Sent(bytes))
    }

    /// Takes a Challenge response under some keys.
    fn on_challenge(
        &mut self,
        alloc: Global,
        keys: &KeySet,
        received: &SimReceived,
        attrs: &SimList,
    ) -> Result<Step<SimWhy>, NoMemory>
        requires { IsSimReceived (sim_seen_of received.now) }
        ensures turn { IfOk result (λ did. (self.new, did) ≡ on_challenge self.old keys.now (sim_seen_of received.now) attrs.now) }
        ensures kept { OnErr result (self.new ≡ self.old) }
    {
        if !has_mac(attrs) {
            return Ok(Step::Ignored(Reason::Unexpected));
        }
        let triplets = self.triplets.as_slice();
        let sres = all_sres(triplets);
        if is_sim_sealed(received, &keys.k_aut, &sres[..4 * triplets.len()]) {
            return self.end(alloc, Outcome::Success(*keys));
        }
        self.end(alloc, Outcome::Failure(SimWhy::WrongMac))
    }

    /// Takes the code of a Client-Error.
    fn on_code(&mut self, alloc: Global, code: Option<u16>) -> Result<Step<SimWhy>, NoMemory>
        ensures turn { IfOk result (λ did. (self.new, did) ≡ on_code self.old code) }
        ensures kept { OnErr result (self.new ≡ self.old) }
    {
        match code {
            None => Ok(Step::Ignored(Reason::Unexpected)),
            Some(code) => self.end(alloc, Outcome::Failure(SimWhy::ClientError(code))),
        }
    }

    /// Ends the session with Success or Failure.
    fn end(&mut self, alloc: Global, outcome: Outcome<SimWhy>) -> Result<Step<SimWhy>, NoMemory>
        ensures turn { IfOk result (λ did. (self.new, did) ≡ ended self.old outcome) }
        ensures kept { OnErr result (self.new ≡ self.old) }
    {
        let packet = match outcome {
            Outcome::Success(_) => SimPacket::Success(self.current_id()),
            Outcome::Failure(_) => SimPacket::Failure(self.current_id()),
        };
        let mut bytes = Octets::new(alloc);
        write_sim(&packet, &mut bytes)?;
        self.at = SimAwait::Ended(outcome);
        Ok(Step::Ended(outcome, bytes))
    }
}
