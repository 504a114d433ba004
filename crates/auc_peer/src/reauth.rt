//! A fast re-authentication (RFC 4187 §5 and §9.7, RFC 9048 §3.3).

ghost use Rattle.std.specs.Prelude.{◌≡◌, ◌≤◌, [], false, true, length, None, Some, IfOk, OnErr};
ghost use Rattle.auc_packet.specs.Received.{IsReceived, attrs_in, seen_of};
ghost use Rattle.auc_seal.specs.Encrypted.{ciphertext_of};
ghost use Rattle.auc_reauth.specs.Server.{if_named};
ghost use Rattle.auc_peer.specs.Subscription.{subscription_of};
ghost use Rattle.auc_peer.specs.Table.{by_counter, client, context_named, context_of, counter_noted, counted_up, counter_bytes, disclosed, reauthenticated, resumes, resuming, small, taken, with_inner};
ghost use Rattle.auc_peer.specs.Turn.{Decrypts, IsInner, decryption_resumed};

use crate::decrypted::Decrypted;
use crate::device::Device;
use crate::messages::{Hidden, reauth_response};
use crate::next::NextContext;
use crate::peer::{Peer, PeerState, Source};
use crate::reading::{inner_in, lacks_reauthentication};
use crate::rooms::{ReauthRooms, Reply, Sent};
use auc_ident::{Name, username};
use auc_memory::{NoMemory, Octets, Room};
use auc_packet::{Received, attrs_in, is_sealed};
use auc_random::{Rands, index_after};
use auc_reauth::Context;
use auc_seal::ciphertext_size;
use auc_vector::{CounterNote, Notes, PeerWhy, Reason, Turn, reauth_keys};
use std::alloc::Global;

/// A context, if an identity that was sent is the context's, up to its first `@`.
fn named(identity: &Option<Octets>, context: Option<Context>) -> Option<Context>
    ensures { result ≡ context_named identity.now context }
{
    match identity {
        None => None,
        Some(text) => if_named(username(text.as_slice()), context),
    }
}

/// A context, if it has a name.
fn if_named(name: &[u8], context: Option<Context>) -> Option<Context>
    ensures { result ≡ if_named name.now context }
{
    let context = context?;
    if context.identity.as_slice() == name {
        Some(context)
    } else {
        None
    }
}

/// The notes of a turn in which this became of a counter.
fn counter_noted(note: CounterNote) -> Notes
    ensures { result ≡ counter_noted note }
{
    Notes {
        resync: None,
        number: None,
        resumed: None,
        usim: None,
        counter: Some(note),
    }
}

impl Peer {
    /// The device's context of the method, if the identity that the peer sent last is the context's.
    fn context_of(&self, device: &Device) -> Option<Context>
        ensures { result ≡ context_of device.now.store self.now }
    {
        named(&self.identity, device.store.context(self.options.method))
    }

    /// Tries a fast re-authentication with the device's context. If memory runs out, peer and device stay as they were.
    pub(crate) fn on_reauthentication(
        &mut self,
        alloc: Global,
        rands: &Rands,
        device: &mut Device,
        received: &Received,
    ) -> Result<Turn<PeerWhy>, NoMemory>
        requires is { IsReceived (seen_of received.now) }

        ensures step { IfOk result (λ turn. (self.new, turn)
            ≡ reauthenticated rands.now device.old.store self.old (seen_of received.now) self.new.inner) }
        ensures decrypts { IfOk result (λ turn. Decrypts (decryption_resumed self.old (seen_of received.now)
            (context_of device.old.store self.old)) self.new.inner) }
        ensures stored { IfOk result (λ turn. device.new.store
            ≡ counted_up self.old.options.method turn.notes.counter device.old.store) }
        ensures subscription { subscription_of device.new ≡ subscription_of device.old }
        ensures usim { device.new.usim ≡ device.old.usim }
        ensures peer { OnErr result (self.new ≡ self.old) }
        ensures device { OnErr result (device.new ≡ device.old) }
    {
        let Some(context) = self.context_of(device) else {
            return Ok(self.ignore(Reason::NoContext));
        };
        let inner = Room::new(alloc, ciphertext_size(attrs_in(&received.reading)))?;
        let rooms = ReauthRooms::new(alloc, received)?;
        let attempt = Attempt {
            context,
            inner,
            rooms,
        };
        Ok(self.resume(rands, device, received, attempt))
    }

    /// Looks for what a Reauthentication must have, and tests AT_MAC.
    fn resume(
        &mut self,
        rands: &Rands,
        device: &mut Device,
        received: &Received,
        attempt: Attempt,
    ) -> Turn<PeerWhy>
        requires is { IsReceived (seen_of received.now) }
        requires request { attempt.rooms ≡ (seen_of received.now).bytes }
        requires empty { attempt.inner.written ≡ [] }
        requires room { length (ciphertext_of (attrs_in received.now.reading)) ≤ attempt.inner.left }

        ensures step { (self.new, result)
            ≡ resumes rands.now device.old.store self.old (seen_of received.now) attempt.context self.new.inner }
        ensures decrypts { Decrypts (decryption_resumed self.old (seen_of received.now) (Some attempt.context)) self.new.inner }
        ensures stored { device.new.store ≡ counted_up self.old.options.method result.notes.counter device.old.store }
        ensures subscription { subscription_of device.new ≡ subscription_of device.old }
        ensures usim { device.new.usim ≡ device.old.usim }
    {
        if lacks_reauthentication(&received.reading) {
            return self.refuse(received, attempt, PeerWhy::Missing, false);
        }
        let context = attempt.context;
        if !is_sealed(received, self.method(), &context.k_aut, &[]) {
            return self.refuse(received, attempt, PeerWhy::WrongMac, false);
        }
        self.take_up(context);
        if self.differs(received) {
            return self.refuse(received, attempt, PeerWhy::WrongCheckcode, true);
        }
        self.disclose(rands, device, received, attempt)
    }

    /// Takes a context, under whose keys AT_MAC is right, as the one from which keys are derived.
    fn take_up(&mut self, context: Context)
        ensures { self.new ≡ resuming self.old context }
    {
        self.source = Source::Context(context);
    }

    /// Takes a Reauthentication whose AT_MAC and AT_CHECKCODE are right.
    fn disclose(
        &mut self,
        rands: &Rands,
        device: &mut Device,
        received: &Received,
        attempt: Attempt,
    ) -> Turn<PeerWhy>
        requires request { attempt.rooms ≡ (seen_of received.now).bytes }
        requires empty { attempt.inner.written ≡ [] }
        requires room { length (ciphertext_of (attrs_in received.now.reading)) ≤ attempt.inner.left }

        ensures step { (self.new, result) ≡ disclosed rands.now device.old.store (with_inner self.old self.new.inner)
            (seen_of received.now) attempt.context self.new.inner }
        ensures decrypts { IsInner attempt.context.k_encr (attrs_in received.now.reading) self.new.inner }
        ensures stored { device.new.store ≡ counted_up self.old.options.method result.notes.counter device.old.store }
        ensures subscription { subscription_of device.new ≡ subscription_of device.old }
        ensures usim { device.new.usim ≡ device.old.usim }
    {
        let Attempt {
            context,
            inner,
            rooms,
        } = attempt;
        self.inner = inner_in(context.k_encr, &received.reading, inner);
        self.on_disclosed(rands, device, received, context, rooms)
    }

    /// Refuses a Reauthentication by Client-Error, before anything is decrypted.
    fn refuse(
        &mut self,
        received: &Received,
        attempt: Attempt,
        why: PeerWhy,
        checked: bool,
    ) -> Turn<PeerWhy>
        requires { attempt.rooms ≡ (seen_of received.now).bytes }
        ensures { (self.new, result) ≡ client self.old (seen_of received.now) why None checked }
    {
        let Attempt { rooms, .. } = attempt;
        self.client(received, why, None, checked, rooms.into_reply())
    }

    /// Looks for the counter and NONCE_S in what was decrypted.
    fn on_disclosed(
        &mut self,
        rands: &Rands,
        device: &mut Device,
        received: &Received,
        context: Context,
        rooms: ReauthRooms,
    ) -> Turn<PeerWhy>
        requires request { rooms ≡ (seen_of received.now).bytes }

        ensures step { (self.new, result)
            ≡ disclosed rands.now device.old.store self.old (seen_of received.now) context self.old.inner }
        ensures inner { self.new.inner ≡ self.old.inner }
        ensures stored { device.new.store ≡ counted_up self.old.options.method result.notes.counter device.old.store }
        ensures subscription { subscription_of device.new ≡ subscription_of device.old }
        ensures usim { device.new.usim ≡ device.old.usim }
    {
        let Decrypted::Attributes(given) = self.inner else {
            return self.hidden(received, rooms);
        };
        let Some(counter) = given.counter else {
            return self.hidden(received, rooms);
        };
        let Some(nonce) = given.nonce else {
            return self.hidden(received, rooms);
        };
        let offer = Offer {
            context,
            identity: given.identity,
            counter,
            nonce,
        };
        self.on_counter(rands, device, received, offer, rooms)
    }

    /// Refuses a Reauthentication that doesn't give AT_COUNTER and AT_NONCE_S.
    fn hidden(&mut self, received: &Received, rooms: ReauthRooms) -> Turn<PeerWhy>
        requires { rooms ≡ (seen_of received.now).bytes }
        ensures { (self.new, result) ≡ client self.old (seen_of received.now) PeerWhy.Undecryptable None true }
    {
        self.client(
            received,
            PeerWhy::Undecryptable,
            None,
            true,
            rooms.into_reply(),
        )
    }

    /// Accepts the counter, if it is open, and answers.
    fn on_counter(
        &mut self,
        rands: &Rands,
        device: &mut Device,
        received: &Received,
        offer: Offer,
        rooms: ReauthRooms,
    ) -> Turn<PeerWhy>
        requires request { rooms ≡ (seen_of received.now).bytes }

        ensures step { (self.new, result) ≡ by_counter rands.now device.old.store self.old (seen_of received.now)
            offer.context offer.identity (Some offer.counter) (Some offer.nonce) }
        ensures inner { self.new.inner ≡ self.old.inner }
        ensures stored { device.new.store ≡ counted_up self.old.options.method result.notes.counter device.old.store }
        ensures subscription { subscription_of device.new ≡ subscription_of device.old }
        ensures usim { device.new.usim ≡ device.old.usim }
    {
        if device.count(self.options.method, offer.counter) {
            self.taken(rands, received, offer, rooms)
        } else {
            self.small(rands, received, offer, rooms)
        }
    }

    /// Answers a counter that was accepted.
    fn taken(
        &mut self,
        rands: &Rands,
        received: &Received,
        offer: Offer,
        rooms: ReauthRooms,
    ) -> Turn<PeerWhy>
        requires request { rooms ≡ (seen_of received.now).bytes }
        ensures step { (self.new, result)
            ≡ taken rands.now self.old (seen_of received.now) offer.context offer.identity offer.counter offer.nonce }
        ensures inner { self.new.inner ≡ self.old.inner }
        ensures note { result.notes.counter ≡ Some (CounterNote.Taken offer.counter) }
    {
        let sent = self.counter_answer(rands, received, &offer, false, rooms);
        let Offer {
            context,
            identity,
            counter,
            nonce,
        } = offer;
        let keys = reauth_keys(
            context.k_encr,
            context.k_aut,
            context.master,
            self.identity(),
            counter,
            nonce,
        );
        self.next_iv = index_after(self.next_iv);
        self.next = NextContext::Renamed(context.identity, identity);
        let notes = counter_noted(CounterNote::Taken(counter));
        self.answer(received, PeerState::Answered(keys), sent, notes, true)
    }

    /// Answers a counter that is too small. The peer waits for a Challenge (RFC 4187 §5.5).
    fn small(
        &mut self,
        rands: &Rands,
        received: &Received,
        offer: Offer,
        rooms: ReauthRooms,
    ) -> Turn<PeerWhy>
        requires request { rooms ≡ (seen_of received.now).bytes }
        ensures step { (self.new, result)
            ≡ small rands.now self.old (seen_of received.now) offer.context offer.counter offer.nonce }
        ensures inner { self.new.inner ≡ self.old.inner }
        ensures note { result.notes.counter ≡ Some (CounterNote.Small offer.counter) }
    {
        let sent = self.counter_answer(rands, received, &offer, true, rooms);
        self.next_iv = index_after(self.next_iv);
        let notes = counter_noted(CounterNote::Small(offer.counter));
        self.answer(received, PeerState::Waiting, sent, notes, true)
    }

    /// The response to a counter, which may be too small.
    fn counter_answer(
        &self,
        rands: &Rands,
        received: &Received,
        offer: &Offer,
        too_small: bool,
        rooms: ReauthRooms,
    ) -> Sent
        requires { rooms ≡ (seen_of received.now).bytes }
        ensures request { result.request ≡ (seen_of received.now).bytes }
        ensures bytes { result.bytes ≡ counter_bytes rands.now self.now (seen_of received.now) offer.now.context
            offer.now.nonce offer.now.counter too_small }
    {
        let ReauthRooms {
            counter,
            code,
            reply,
            ..
        } = rooms;
        let Reply {
            request,
            bytes,
            kept,
            ..
        } = reply;
        let hidden = Hidden {
            k_encr: offer.context.k_encr,
            k_aut: offer.context.k_aut,
            iv: rands.nonce_of(self.options.session, self.next_iv),
            nonce: offer.nonce,
            counter: offer.counter,
            small: too_small,
        };
        let own = self.own_checkcode(received, code);
        let bytes = reauth_response(self.heading(received), hidden, own, counter, bytes);
        Sent {
            request,
            bytes,
            kept,
        }
    }
}

/// What a Reauthentication is tried with: the device's context, and the memory.
#[derive(Drop)]
struct Attempt {
    context: Context,
    inner: Room,
    rooms: ReauthRooms,
}

/// The counter and NONCE_S of a Reauthentication under a context, and the next identity if it gives one.
#[derive(Clone, Copy)]
struct Offer {
    context: Context,
    identity: Option<Name>,
    counter: u16,
    nonce: [u8; 16],
}
