//! What each row of the table does. Challenges, identities and fast re-authentications have files of their own.

ghost use Rattle.std.specs.Prelude.{◌≡◌, [], None, IfOk, OnErr};
ghost use Rattle.auc_packet.specs.Received.{IsReceived, seen_of};
ghost use Rattle.auc_peer.specs.Attributes.{id_of};
ghost use Rattle.auc_peer.specs.Rows.{peer_row};
ghost use Rattle.auc_peer.specs.Identities.{first_text};
ghost use Rattle.auc_peer.specs.Subscription.{subscription_of};
ghost use Rattle.auc_peer.specs.Table.{again, answered_noting, client, ended, first, ignored, noted, notify, pseudonym_given, rejected, succeeded, taken_up};
ghost use Rattle.auc_peer.specs.Turn.{Steps};

use crate::decrypted::Decrypted;
use crate::device::Device;
use crate::messages::{Heading, Plain, identity_response};
use crate::peer::{Last, Peer, PeerState};
use crate::reading::id_of;
use crate::rooms::{Reply, Sent};
use crate::rows::Row;
use auc_ident::Name;
use auc_memory::{NoMemory, Octets, Room};
use auc_packet::Received;
use auc_random::Rands;
use auc_vector::{Notes, Outcome, PeerWhy, Reason, Step, Turn, UsimNote};
use std::alloc::Global;

/// The notes of a turn in which the USIM answered so, or wasn't asked.
pub(crate) fn noted(usim: Option<UsimNote>) -> Notes
    ensures { result ≡ noted usim }
{
    Notes {
        resync: None,
        number: None,
        resumed: None,
        usim,
        counter: None,
    }
}

/// The pseudonym that was given.
fn pseudonym_given(inner: Decrypted) -> Option<Name>
    ensures { result ≡ pseudonym_given inner }
{
    match inner {
        Decrypted::Unreadable => None,
        Decrypted::Attributes(given) => given.pseudonym,
    }
}

impl Peer {
    /// Does what the row of a received packet says. If memory runs out, peer and device stay as they were.
    pub(crate) fn on_row(
        &mut self,
        alloc: Global,
        rands: &Rands,
        device: &mut Device,
        received: &Received,
        row: Row,
    ) -> Result<Turn<PeerWhy>, NoMemory>
        requires is { IsReceived (seen_of received.now) }
        requires row { row ≡ peer_row self.old (seen_of received.now) }

        ensures step { IfOk result (λ turn. Steps rands.now (subscription_of device.old) device.old.store self.old
            (seen_of received.now).bytes device.old.usim.array self.new turn device.new.store device.new.usim.array) }
        ensures subscription { subscription_of device.new ≡ subscription_of device.old }
        ensures bits { device.new.usim.array.bits ≡ device.old.usim.array.bits }
        ensures age { device.new.usim.array.age ≡ device.old.usim.array.age }
        ensures peer { OnErr result (self.new ≡ self.old) }
        ensures device { OnErr result (device.new ≡ device.old) }
    {
        match row {
            Row::Ignore(why) => Ok(self.ignore(why)),
            Row::Again => self.again(alloc),
            Row::First => self.first(alloc, device, received),
            Row::Identity(asked) => self.on_identity(alloc, device, received, asked),
            Row::Client(why) => {
                let reply = Reply::new(alloc, received)?;
                Ok(self.client(received, why, None, false, reply))
            }
            Row::Reject(why) => {
                let reply = Reply::new(alloc, received)?;
                Ok(self.reject(received, why, None, reply))
            }
            Row::Notified(code) => {
                let reply = Reply::new(alloc, received)?;
                Ok(self.notify(received, code, reply))
            }
            Row::Challenged(challenge) => self.on_challenge(alloc, device, received, challenge),
            Row::Reauthentication => self.on_reauthentication(alloc, rands, device, received),
            Row::Success => Ok(self.succeed(device, Octets::new(alloc))),
            Row::Failure(why) => Ok(self.end(Outcome::Failure(why), Octets::new(alloc))),
        }
    }

    /// Ignores what was received.
    pub(crate) fn ignore(&self, why: Reason) -> Turn<PeerWhy>
        ensures { (self.now, result) ≡ ignored self.now why }
    {
        Turn {
            notes: noted(None),
            step: Step::Ignored(why),
            checked: false,
        }
    }

    /// Ends the session.
    fn end(&mut self, outcome: Outcome<PeerWhy>, none: Octets) -> Turn<PeerWhy>
        requires { none ≡ [] }
        ensures { (self.new, result) ≡ ended self.old outcome }
    {
        self.state = PeerState::Ended;
        Turn {
            notes: noted(None),
            step: Step::Ended(outcome, none),
            checked: false,
        }
    }

    /// Ends the session in Success. The device adopts what it was given.
    fn succeed(&mut self, device: &mut Device, none: Octets) -> Turn<PeerWhy>
        requires { none ≡ [] }
        ensures step { (self.new, result) ≡ succeeded self.old self.old.state }
        ensures note { result.notes.usim ≡ None }
        ensures stored { device.new.store ≡ taken_up self.old.state self.old device.old.store }
        ensures subscription { subscription_of device.new ≡ subscription_of device.old }
        ensures usim { device.new.usim ≡ device.old.usim }
    {
        match self.state {
            PeerState::Answered(keys) => {
                device.adopt(self.options.method, pseudonym_given(self.inner), self.next);
                self.end(Outcome::Success(keys), none)
            }
            _ => self.ignore(Reason::Unexpected),
        }
    }

    /// Answers a request, and keeps request and answer.
    pub(crate) fn answer(
        &mut self,
        received: &Received,
        state: PeerState,
        sent: Sent,
        notes: Notes,
        checked: bool,
    ) -> Turn<PeerWhy>
        requires { sent.request ≡ (seen_of received.now).bytes }
        ensures { (self.new, result) ≡ answered_noting self.old (seen_of received.now) state sent.bytes notes checked }
    {
        let Sent {
            request,
            bytes,
            mut kept,
        } = sent;
        kept.put(bytes.as_slice());
        self.state = state;
        self.last = Some(Last {
            id: id_of(received),
            request,
            answer: kept.into_octets(),
        });
        Turn {
            notes,
            step: Step::Sent(bytes),
            checked,
        }
    }

    /// The method and the Identifier of an answer to a request.
    pub(crate) fn heading(&self, received: &Received) -> Heading
        ensures { result ≡ record { method = self.now.options.method; id = id_of (seen_of received.now) } }
    {
        Heading {
            method: self.options.method,
            id: id_of(received),
        }
    }

    /// Refuses by Client-Error.
    pub(crate) fn client(
        &mut self,
        received: &Received,
        why: PeerWhy,
        usim: Option<UsimNote>,
        checked: bool,
        reply: Reply,
    ) -> Turn<PeerWhy>
        requires { reply ≡ (seen_of received.now).bytes }
        ensures { (self.new, result) ≡ client self.old (seen_of received.now) why usim checked }
    {
        let sent = reply.plain(self.heading(received), Plain::ClientError);
        let state = PeerState::Refusing(why);
        self.answer(received, state, sent, noted(usim), checked)
    }

    /// Refuses by Authentication-Reject.
    pub(crate) fn reject(
        &mut self,
        received: &Received,
        why: PeerWhy,
        usim: Option<UsimNote>,
        reply: Reply,
    ) -> Turn<PeerWhy>
        requires { reply ≡ (seen_of received.now).bytes }
        ensures { (self.new, result) ≡ rejected self.old (seen_of received.now) why usim }
    {
        let sent = reply.plain(self.heading(received), Plain::Reject);
        self.answer(received, PeerState::Refusing(why), sent, noted(usim), false)
    }

    /// Answers a notification of failure.
    fn notify(&mut self, received: &Received, code: u16, reply: Reply) -> Turn<PeerWhy>
        requires { reply ≡ (seen_of received.now).bytes }
        ensures { (self.new, result) ≡ notify self.old (seen_of received.now) code }
    {
        let sent = reply.plain(self.heading(received), Plain::Notified);
        let state = PeerState::Refusing(PeerWhy::Notified(code));
        self.answer(received, state, sent, noted(None), false)
    }

    /// Sends the last answer again.
    fn again(&self, alloc: Global) -> Result<Turn<PeerWhy>, NoMemory>
        ensures { IfOk result (λ turn. (self.now, turn) ≡ again self.now) }
    {
        let bytes = Octets::copied_from(alloc, self.last_answer())?;
        Ok(Turn {
            notes: noted(None),
            step: Step::Sent(bytes),
            checked: false,
        })
    }

    /// Sends the first identity. If memory runs out, the peer stays as it was.
    fn first(
        &mut self,
        alloc: Global,
        device: &Device,
        received: &Received,
    ) -> Result<Turn<PeerWhy>, NoMemory>
        ensures step { IfOk result (λ turn. (self.new, turn) ≡ first self.old (seen_of received.now)
            (first_text self.old.options.method (subscription_of device.now) device.now.store self.old.options.first)) }
        ensures kept { OnErr result (self.new ≡ self.old) }
    {
        let text = device.first_identity(alloc, &self.options)?;
        let own = Octets::copied_from(alloc, text.as_slice())?;
        let room = Room::new(alloc, 5 + text.len())?;
        let bytes = identity_response(id_of(received), text, room);
        let sent = Sent::new(alloc, received, bytes)?;
        self.identity = Some(own);
        Ok(self.answer(received, PeerState::Waiting, sent, noted(None), false))
    }
}
