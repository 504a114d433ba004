//! A Challenge, as the USIM answers it (RFC 4187 §6.3.1 and §9.3, RFC 9048 §3).

ghost use Rattle.std.specs.Prelude.{◌≡◌, ◌≤◌, [], false, true, length, IfOk, OnErr, Some};
ghost use Rattle.auc_packet.specs.Received.{IsReceived, attrs_in, seen_of};
ghost use Rattle.auc_seal.specs.Checkcode.{IsHash, differs, value_bytes};
ghost use Rattle.auc_seal.specs.Encrypted.{ciphertext_of};
ghost use Rattle.auc_sqn.specs.Past.{Past, Remembers};
ghost use Rattle.auc_peer.specs.Asking.{note_of as note_by};
ghost use Rattle.auc_peer.specs.Attributes.{checkcode, id_of, is_there};
ghost use Rattle.auc_peer.specs.InnerRooms.{HasRoom};
ghost use Rattle.auc_peer.specs.Messages.{response_bytes};
ghost use Rattle.auc_peer.specs.Subscription.{subscription_of};
ghost use Rattle.auc_peer.specs.Table.{accepted, answered, by_answer, challenged, context_from, keys_for, network_in, opened, origin_of, own_code, text_or_none, with_next};
ghost use Rattle.auc_vector.specs.Keys.{ck_by, ik_by, master_of as master_by_method};
ghost use Rattle.auc_peer.specs.Turn.{AskedUsim, Decrypts, IsInner, SendsLast, decryption_by, decryption_noted, decryption_under, inner_of};

use crate::decrypted::Decrypted;
use crate::device::Device;
use crate::messages::{OwnCode, Plain, challenge_response, value};
use crate::next::NextContext;
use crate::peer::{Challenge, Peer, PeerState, Source};
use crate::reading::{checkcode, has_checkcode, inner_in, network_in};
use crate::rooms::{ChallengeRooms, Parts, Reply, Sent, give_back};
use crate::turns::noted;
use auc_hmac::{KeySet, Master};
use auc_ident::Name;
use auc_memory::{NoMemory, Octets, Room};
use auc_packet::{Received, attrs_in, is_sealed};
use auc_reauth::Context;
use auc_seal::{CheckValue, ciphertext_size};
use auc_usim::Answer;
use auc_vector::{PeerWhy, Turn, UsimNote, keys_by, keys_of, master_of};
use std::alloc::Global;

/// An SQN as a number.
fn origin_of(sqn: [u8; 6]) -> u64
    ensures { result ≡ origin_of sqn }
{
    let [a, b, c, d, e, f] = sqn;
    u64::from_be_bytes([0, 0, a, b, c, d, e, f])
}

/// The context that a Challenge leaves, if it gives the next identity.
fn context_from(keys: KeySet, master: Master, sqn: [u8; 6], identity: Option<Name>) -> NextContext
    ensures { result ≡ context_from keys master sqn identity }
{
    let KeySet { k_encr, k_aut, .. } = keys;
    match identity {
        None => NextContext::Same,
        Some(identity) => NextContext::New(Context {
            origin: origin_of(sqn),
            identity,
            k_encr,
            k_aut,
            master,
            counter: 1,
        }),
    }
}

/// What a Challenge that the USIM accepted gives: RES, the SQN, and the keys.
#[derive(Clone, Copy)]
struct Granted {
    res: [u8; 8],
    sqn: [u8; 6],
    keys: KeySet,
    master: Master,
}

impl Peer {
    /// The keys of a received challenge and its master key, under the identity that was sent last or the empty text.
    fn keys_at(
        &self,
        network: &[u8],
        challenge: Challenge,
        ik: [u8; 16],
        ck: [u8; 16],
    ) -> (KeySet, Master)
        requires { length network.now ≤ 65535 }
        ensures keys { result.0 ≡ keys_for self.now.options.method network.now challenge (text_or_none self.now.identity) ik ck }
        ensures master { result.1 ≡ master_by_method self.now.options.method (text_or_none self.now.identity)
            (ik_by self.now.options.method network.now challenge.autn ck ik)
            (ck_by self.now.options.method network.now challenge.autn ck ik) }
    {
        let method = self.options.method;
        let (ck, ik) = keys_by(method, network, challenge.autn, ck, ik);
        let keys = keys_of(method, self.identity(), ik, ck);
        (keys, master_of(method, self.identity(), ik, ck))
    }

    /// Hands a Challenge to the USIM, and does what its answer says. If memory runs out, peer and device stay as they were.
    pub(crate) fn on_challenge(
        &mut self,
        alloc: Global,
        device: &mut Device,
        received: &Received,
        challenge: Challenge,
    ) -> Result<Turn<PeerWhy>, NoMemory>
        requires { IsReceived (seen_of received.now) }

        ensures step { IfOk result (λ turn. (past : Past) → Remembers device.old.usim.array past
            → (self.new, turn) ≡ challenged (subscription_of device.old) self.old (seen_of received.now)
            challenge turn.notes.usim (inner_of self.new)) }
        ensures usim { IfOk result (λ turn. AskedUsim (subscription_of device.old) (Some challenge) turn.notes.usim
            device.old.usim.array device.new.usim.array) }
        ensures decrypts { IfOk result (λ turn. (past : Past) → Remembers device.old.usim.array past
            → Decrypts (decryption_noted (subscription_of device.old) self.old (seen_of received.now) (Some challenge)
            turn.notes.usim) (inner_of self.new)) }
        ensures sent { IfOk result (λ turn. SendsLast self.new.last turn.step) }
        ensures store { device.new.store ≡ device.old.store }
        ensures subscription { subscription_of device.new ≡ subscription_of device.old }
        ensures bits { device.new.usim.array.bits ≡ device.old.usim.array.bits }
        ensures age { device.new.usim.array.age ≡ device.old.usim.array.age }
        ensures peer { OnErr result (self.new ≡ self.old) }
        ensures device { OnErr result (device.new ≡ device.old) }
    {
        let network = Octets::copied_from(alloc, network_in(self.method(), received))?;
        let inner = Room::new(alloc, ciphertext_size(attrs_in(&received.reading)))?;
        let rooms = ChallengeRooms::new(alloc, received)?;
        let parts = Parts { network, inner };
        let answer = device.ask(challenge);
        Ok(self.on_answer(received, parts, challenge, answer, rooms))
    }

    /// Does what the USIM's answer to a Challenge says.
    fn on_answer(
        &mut self,
        received: &Received,
        parts: Parts,
        challenge: Challenge,
        answer: Answer,
        rooms: ChallengeRooms,
    ) -> Turn<PeerWhy>
        requires is { IsReceived (seen_of received.now) }
        requires request { rooms ≡ (seen_of received.now).bytes }
        requires network { parts.network ≡ network_in self.old (seen_of received.now) }
        requires name { length parts.network ≤ 1016 }
        requires empty { parts.inner.written ≡ [] }
        requires room { length (ciphertext_of (attrs_in received.now.reading)) ≤ parts.inner.left }

        ensures step { (self.new, result) ≡ by_answer self.old (seen_of received.now) challenge answer
            (inner_of self.new) }
        ensures note { result.notes.usim ≡ Some (note_by answer) }
        ensures decrypts { Decrypts (decryption_by self.old (seen_of received.now) challenge answer) (inner_of self.new) }
    {
        match answer {
            Answer::WrongMac => {
                give_back(parts);
                let note = Some(UsimNote::WrongMac);
                self.reject(received, PeerWhy::WrongAutn, note, rooms.into_reply())
            }
            Answer::SyncFailure { auts, sqn } => {
                give_back(parts);
                let message = Plain::SyncFailure(auts);
                let sent = rooms.into_reply().plain(self.heading(received), message);
                let notes = noted(Some(UsimNote::Sync(sqn)));
                self.answer(received, PeerState::Waiting, sent, notes, false)
            }
            Answer::Accepted {
                res,
                ck,
                ik,
                sqn,
                ..
            } => {
                let (keys, master) = self.keys_at(parts.network.as_slice(), challenge, ik, ck);
                let granted = Granted {
                    res,
                    sqn,
                    keys,
                    master,
                };
                self.on_accepted(received, parts, challenge, granted, rooms)
            }
        }
    }

    /// Takes a Challenge that the USIM accepted. AT_MAC is tested first, before RES is sent.
    fn on_accepted(
        &mut self,
        received: &Received,
        parts: Parts,
        challenge: Challenge,
        granted: Granted,
        rooms: ChallengeRooms,
    ) -> Turn<PeerWhy>
        requires is { IsReceived (seen_of received.now) }
        requires request { rooms ≡ (seen_of received.now).bytes }
        requires network { parts.network ≡ network_in self.old (seen_of received.now) }
        requires name { length parts.network ≤ 1016 }
        requires empty { parts.inner.written ≡ [] }
        requires room { length (ciphertext_of (attrs_in received.now.reading)) ≤ parts.inner.left }

        ensures step { (self.new, result) ≡ accepted self.old (seen_of received.now) challenge granted.res granted.sqn
            granted.keys granted.master (inner_of self.new) }
        ensures note { result.notes.usim ≡ Some (UsimNote.Accepted granted.sqn) }
        ensures decrypts { Decrypts (decryption_under self.old (seen_of received.now) granted.keys) (inner_of self.new) }
    {
        let Parts { network, inner } = parts;
        let note = Some(UsimNote::Accepted(granted.sqn));
        if !is_sealed(received, self.method(), &granted.keys.k_aut, &[]) {
            return self.client(received, PeerWhy::WrongMac, note, false, rooms.into_reply());
        }
        self.accept(challenge, network);
        if self.differs(received) {
            let why = PeerWhy::WrongCheckcode;
            return self.client(received, why, note, true, rooms.into_reply());
        }
        self.opened(received, inner, granted, rooms)
    }

    /// Takes a challenge of a network, whose AT_MAC is right, as the one from which keys are derived.
    fn accept(&mut self, challenge: Challenge, network: Octets)
        requires { length network ≤ 1016 }
        ensures { self.new ≡ record self.old { source = Source.Challenge challenge network } }
    {
        self.source = Source::Challenge(challenge, network);
    }

    /// Takes a Challenge whose AT_MAC and AT_CHECKCODE are right.
    fn opened(
        &mut self,
        received: &Received,
        inner: Room,
        granted: Granted,
        rooms: ChallengeRooms,
    ) -> Turn<PeerWhy>
        requires request { rooms ≡ (seen_of received.now).bytes }
        requires empty { inner.written ≡ [] }
        requires room { length (ciphertext_of (attrs_in received.now.reading)) ≤ inner.left }

        ensures step { (self.new, result) ≡ opened self.old (seen_of received.now) granted.res granted.sqn granted.keys
            granted.master (inner_of self.new) }
        ensures note { result.notes.usim ≡ Some (UsimNote.Accepted granted.sqn) }
        ensures decrypts { IsInner granted.keys.k_encr (attrs_in received.now.reading) (inner_of self.new) }
    {
        let decrypted = inner_in(granted.keys.k_encr, &received.reading, inner);
        self.inner = decrypted;
        match &decrypted {
            Decrypted::Attributes(given) => {
                self.respond(received, granted, given.identity, rooms)
            }
            Decrypted::Unreadable => {
                let note = Some(UsimNote::Accepted(granted.sqn));
                let why = PeerWhy::Undecryptable;
                self.client(received, why, note, true, rooms.into_reply())
            }
        }
    }

    /// Sends RES, and keeps the context that a Challenge leaves if it gives this next identity.
    fn respond(
        &mut self,
        received: &Received,
        granted: Granted,
        identity: Option<Name>,
        rooms: ChallengeRooms,
    ) -> Turn<PeerWhy>
        requires { rooms ≡ (seen_of received.now).bytes }
        ensures { (self.new, result) ≡ answered
            (with_next self.old (context_from granted.keys granted.master granted.sqn identity))
            (seen_of received.now) (PeerState.Answered granted.keys)
            (response_bytes self.old.options.method (id_of (seen_of received.now)) granted.keys.k_aut granted.res
            (is_there (checkcode (seen_of received.now))) (own_code self.old))
            (Some (UsimNote.Accepted granted.sqn)) true }
    {
        let ChallengeRooms {
            res,
            code,
            reply,
            ..
        } = rooms;
        let Reply {
            request,
            places,
            bytes,
            kept,
        } = reply;
        let Granted {
            res: given,
            sqn,
            keys,
            master,
        } = granted;
        let heading = self.heading(received);
        let res = value(&given, res);
        let own = self.own_checkcode(received, code);
        let bytes = challenge_response(heading, &keys.k_aut, res, own, places, bytes);
        self.next = context_from(keys, master, sqn, identity);
        let sent = Sent {
            request,
            bytes,
            kept,
        };
        let notes = noted(Some(UsimNote::Accepted(sqn)));
        self.answer(received, PeerState::Answered(keys), sent, notes, true)
    }

    /// The value of AT_CHECKCODE for the AKA-Identity packets that the peer has counted.
    pub(crate) fn own_code(&self) -> CheckValue
        ensures { value_bytes result ≡ own_code self.now }
    {
        self.packets.value(self.options.method)
    }

    /// Whether a message has AT_CHECKCODE with another value than the peer's own.
    pub(crate) fn differs(&self, received: &Received) -> bool
        ensures { result ≡ differs (own_code self.now) (checkcode (seen_of received.now)) }
    {
        self.own_code().differs(checkcode(received))
    }

    /// AT_CHECKCODE of the answer to a request.
    pub(crate) fn own_checkcode(&self, received: &Received, room: Room) -> OwnCode
        requires { HasRoom room 32 }
        ensures has { result.has ≡ is_there (checkcode (seen_of received.now)) }
        ensures value { result.value ≡ own_code self.now }
        ensures size { IsHash result.value }
    {
        OwnCode {
            has: has_checkcode(received),
            value: value(self.own_code().as_slice(), room),
        }
    }
}
