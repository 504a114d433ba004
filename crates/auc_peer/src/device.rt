//! The device of a subscriber.

ghost use Rattle.std.specs.Prelude.{◌≡◌, ◌≤◌, length, IfOk};
ghost use Rattle.auc_ident.specs.Permanent.{with_realm};
ghost use Rattle.auc_reauth.specs.Device.{is_open};
ghost use Rattle.auc_sqn.specs.Past.{Past, Remembers};
ghost use Rattle.auc_usim.specs.Usim.{IsAnswer, past_after_answer};
ghost use Rattle.auc_peer.specs.Asking.{answer_noted, note_of};
ghost use Rattle.auc_reauth.specs.Store.{entry, method_of};
ghost use Rattle.auc_peer.specs.Identities.{adopted, asked_text, first_text, full_text, held_text, renamed, under, with_next_context, with_next_pseudonym};
ghost use Rattle.auc_peer.specs.Subscription.{identity_text, subscription_of};
ghost use Rattle.auc_peer.specs.Table.{counted_by};

use crate::identity::FirstIdentity;
use crate::next::NextContext;
use crate::options::PeerOptions;
use crate::peer::Challenge;
use auc_hmac::{Master, Method};
use auc_ident::{Name, permanent, with_realm};
use auc_memory::{Imsi, NoMemory, Octets, Room};
use auc_reauth::{Context, DeviceStore};
use auc_request::IdentityRequest;
use auc_usim::{Answer, Usim};
use std::alloc::Global;
use std::marker::Model;

/// A subscriber's device. Contracts see its `DeviceState`.
#[derive(Drop)]
pub struct Device {
    /// The IMSI of the subscription.
    pub imsi: Imsi,
    /// The USIM.
    pub usim: Usim,
    /// The pseudonyms that it was given (RFC 4187 §4.1.1.7), and its contexts (RFC 4187 §5.1).
    pub store: DeviceStore,
    /// The realm of the subscriber's identities (RFC 4187 §4.1.1.5), at most 255 bytes; empty if there is none.
    pub realm: Octets,
}

impl Model for Device {
    ghost use Rattle.std.specs.Prelude.{◌≤◌, length};
    ghost use Rattle.auc_peer.specs.Device.{DeviceState};

    ghost Value = { DeviceState };

    ghost view = { λ d. record { imsi = d.imsi; usim = d.usim; store = d.store; realm = d.realm } };

    ghost invariant = { λ d. length d.realm ≤ 255 };
}

impl Device {
    /// The identity that answers the Identity request of EAP, by what a peer was told.
    pub(crate) fn first_identity(
        &self,
        alloc: Global,
        options: &PeerOptions,
    ) -> Result<Octets, NoMemory>
        ensures text { IfOk result (λ text. text
            ≡ first_text options.now.method (subscription_of self.now) self.now.store options.now.first) }
        ensures size { IfOk result (λ text. length text ≤ 511) }
    {
        match &options.first {
            FirstIdentity::Held => self.held(alloc, options.method),
            FirstIdentity::Permanent => self.identity(alloc, options.method),
            FirstIdentity::Text(text) => Octets::copied_from(alloc, text.as_slice()),
        }
    }

    /// The identity that answers an AKA-Identity request of a method.
    pub(crate) fn asked_identity(
        &self,
        alloc: Global,
        method: Method,
        asked: IdentityRequest,
    ) -> Result<Octets, NoMemory>
        ensures text { IfOk result (λ text. text ≡ asked_text method (subscription_of self.now) self.now.store asked) }
        ensures size { IfOk result (λ text. length text ≤ 511) }
    {
        match asked {
            IdentityRequest::Any => self.held(alloc, method),
            IdentityRequest::Fullauth => self.full(alloc, method),
            IdentityRequest::Permanent => self.identity(alloc, method),
        }
    }

    /// The identity that the device holds of a method: that of its context if it has one, else the one for a full
    /// authentication.
    fn held(&self, alloc: Global, method: Method) -> Result<Octets, NoMemory>
        ensures text { IfOk result (λ text. text ≡ held_text method (subscription_of self.now) self.now.store) }
        ensures size { IfOk result (λ text. length text ≤ 511) }
    {
        match self.store.context(method) {
            None => self.full(alloc, method),
            Some(context) => self.with_realm(alloc, context.identity.as_slice()),
        }
    }

    /// The identity for a full authentication of a method: the pseudonym if the device has one, else the permanent identity.
    fn full(&self, alloc: Global, method: Method) -> Result<Octets, NoMemory>
        ensures text { IfOk result (λ text. text ≡ full_text method (subscription_of self.now) self.now.store) }
        ensures size { IfOk result (λ text. length text ≤ 511) }
    {
        match self.store.pseudonym(method) {
            None => self.identity(alloc, method),
            Some(pseudonym) => self.with_realm(alloc, pseudonym.as_slice()),
        }
    }

    /// The permanent identity of a method (RFC 4187 §4.1.1.6, RFC 9048 §5.1).
    fn identity(&self, alloc: Global, method: Method) -> Result<Octets, NoMemory>
        ensures text { IfOk result (λ text. text ≡ identity_text method (subscription_of self.now)) }
        ensures size { IfOk result (λ text. length text ≤ 511) }
    {
        self.with_realm(alloc, permanent(method, self.imsi).as_slice())
    }

    /// A username, followed by `@` and the realm if there is one.
    fn with_realm(&self, alloc: Global, name: &[u8]) -> Result<Octets, NoMemory>
        requires { length name.now ≤ 255 }
        ensures text { IfOk result (λ text. text ≡ with_realm name.now self.now.realm) }
        ensures size { IfOk result (λ text. length text ≤ 511) }
    {
        let realm = self.realm.as_slice();
        let room = Room::new(alloc, name.len() + 1 + realm.len())?;
        Ok(with_realm(name, realm, room))
    }

    /// Hands the USIM a challenge (TS 33.102 §6.3.3). The note of its answer tells the whole answer.
    pub fn ask(&mut self, challenge: Challenge) -> Answer
        ensures noted { (past : Past) → Remembers self.old.usim.array past
            → result ≡ answer_noted self.old.usim.secret challenge (note_of result) }
        ensures answer { (past : Past) → Remembers self.old.usim.array past
            → IsAnswer self.old.usim.secret self.old.usim.array.bits self.old.usim.array.age past
            challenge.rand challenge.autn result }
        ensures past { (past : Past) → Remembers self.old.usim.array past
            → Remembers self.new.usim.array (past_after_answer self.old.usim.array.bits past result) }
        ensures store { self.new.store ≡ self.old.store }
        ensures subscription { subscription_of self.new ≡ subscription_of self.old }
        ensures bits { self.new.usim.array.bits ≡ self.old.usim.array.bits }
        ensures age { self.new.usim.array.age ≡ self.old.usim.array.age }
    {
        self.usim.challenge(challenge.rand, challenge.autn)
    }

    /// Adopts what a session of a method gave.
    pub(crate) fn adopt(&mut self, method: Method, pseudonym: Option<Name>, next: NextContext)
        ensures store { self.new.store ≡ adopted method pseudonym next self.old.store }
        ensures subscription { subscription_of self.new ≡ subscription_of self.old }
        ensures usim { self.new.usim ≡ self.old.usim }
    {
        adopt_pseudonym(&mut self.store, method, pseudonym);
        adopt_context(&mut self.store, method, next);
    }

    /// Accepts a counter of a method, if it is open.
    pub(crate) fn count(&mut self, method: Method, counter: u16) -> bool
        ensures answer { result ≡ is_open counter (entry method self.old.store.contexts) }
        ensures store { self.new.store ≡ counted_by method counter result self.old.store }
        ensures subscription { subscription_of self.new ≡ subscription_of self.old }
        ensures usim { self.new.usim ≡ self.old.usim }
    {
        self.store.accept_counter(method, counter)
    }
}

/// Adopts a pseudonym of a method, if there is one.
fn adopt_pseudonym(store: &mut DeviceStore, method: Method, pseudonym: Option<Name>)
    ensures { store.new ≡ with_next_pseudonym method pseudonym store.old }
{
    if let Some(pseudonym) = pseudonym {
        store.set_pseudonym(method, pseudonym);
    }
}

/// Adopts the next context.
fn adopt_context(store: &mut DeviceStore, method: Method, next: NextContext)
    ensures { store.new ≡ with_next_context method next store.old }
{
    match next {
        NextContext::Same => {}
        NextContext::New(context) => store.set_context(method_of(context.master), Some(context)),
        NextContext::Renamed(from, to) => rename(store, method, from, to),
    }
}

/// The method that a master key is of.
fn method_of(master: Master) -> Method
    ensures { result ≡ method_of master }
{
    match master {
        Master::Aka(_) => Method::Aka,
        Master::Prime(_) => Method::Prime,
    }
}

/// Gives the context of a method its next identity, or drops it if there is none; unless it has another identity than it had.
fn rename(store: &mut DeviceStore, method: Method, from: Name, to: Option<Name>)
    ensures { store.new ≡ renamed method from to (entry method store.old.contexts) store.old }
{
    let Some(context) = store.context(method) else {
        return;
    };
    if context.identity == from {
        store.set_context(method, under(to, context));
    }
}

/// A context under its next identity, or none if there is none.
fn under(to: Option<Name>, context: Context) -> Option<Context>
    ensures { result ≡ under to context }
{
    match to {
        None => None,
        Some(identity) => Some(Context {
            identity,
            ..context
        }),
    }
}
