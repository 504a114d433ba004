//! The rows of the table: which one a packet falls into.

ghost use Rattle.std.specs.Prelude.{◌≡◌, ◌==◌, ◌||◌};
ghost use Rattle.auc_packet.specs.Head.{head_at};
ghost use Rattle.auc_packet.specs.Packet.{method_type};
ghost use Rattle.auc_packet.specs.Received.{seen_of};
ghost use Rattle.auc_peer.specs.Rows.{peer_row, row_headed, of_kind, requested, ended_by, on_success, on_failure, waiting, late, on_message, on_sound, on_notification, late_notification, notified_row, on_challenge, on_identity, repeats, is_last, is_response, method_row, aka_row, prime_row};

use crate::options::PeerOptions;
use crate::peer::{Challenge, Last, Peer, PeerState};
use auc_attr::{Attr, AttrList};
use auc_hmac::{Method, method_type};
use auc_memory::Octets;
use auc_packet::{Head, Packet, Reading, Received, Subtype, head, is_malformed, is_missing};
use auc_request::{
    IdentityRequest, autn_in, bids, code_in, is_known_kdf, is_right_name, is_separated, kdf_in,
    name_in, rand_in, request_in,
};
use auc_vector::{PeerWhy, Reason};

/// A row of the table.
#[derive(Clone, Copy)]
pub enum Row {
    /// The packet is ignored.
    Ignore(Reason),
    /// The last answer is sent again.
    Again,
    /// The first identity is sent.
    First,
    /// An identity is sent within the method, as this request asks.
    Identity(IdentityRequest),
    /// Client-Error is sent, for this cause.
    Client(PeerWhy),
    /// Authentication-Reject is sent without asking the USIM, for this cause.
    Reject(PeerWhy),
    /// A notification of failure with this code is answered.
    Notified(u16),
    /// The USIM is asked.
    Challenged(Challenge),
    /// A fast re-authentication is tried, with the device's context.
    Reauthentication,
    /// The session ends in Success.
    Success,
    /// The session ends in Failure, for this cause.
    Failure(PeerWhy),
}

impl Peer {
    /// The row that a received packet falls into.
    pub(crate) fn row(&self, received: &Received) -> Row
        ensures { result ≡ peer_row self.now (seen_of received.now) }
    {
        match self.state {
            PeerState::Ended => Row::Ignore(Reason::Closed),
            _ => self.headed(received),
        }
    }

    /// The row of a peer whose session hasn't ended, by the packet's head and the request that was answered last.
    fn headed(&self, received: &Received) -> Row
        ensures { result ≡ row_headed self.now.options self.now.state self.now.last (seen_of received.now)
            (head_at (seen_of received.now).bytes) }
    {
        let Some(head) = head(received.bytes) else {
            return Row::Ignore(Reason::NotForMe);
        };
        if head.code == 2 {
            return Row::Ignore(Reason::NotForMe);
        }
        if repeats(&self.last, received.bytes) {
            return Row::Again;
        }
        self.of_kind(received, head)
    }

    /// A packet that no earlier test has caught: a request by its type, or Success or Failure.
    fn of_kind(&self, received: &Received, head: Head) -> Row
        ensures { result ≡ of_kind self.now.options self.now.state self.now.last (seen_of received.now) head head.kind }
    {
        let Some(kind) = head.kind else {
            return self.ended_by(head);
        };
        if is_type_of(self.options.method, kind) {
            self.requested(&received.reading)
        } else {
            Row::Ignore(Reason::OtherType)
        }
    }

    /// A request of a type that the method takes, by the peer's state.
    fn requested(&self, reading: &Reading) -> Row
        ensures { result ≡ requested self.now.options self.now.state reading.now }
    {
        match self.state {
            PeerState::Waiting => waiting(&self.options, reading),
            PeerState::Answered(_) => late(self.options.method, reading),
            _ => Row::Ignore(Reason::Unexpected),
        }
    }

    /// Success or Failure.
    fn ended_by(&self, head: Head) -> Row
        ensures { result ≡ ended_by self.now.state self.now.last head }
    {
        if !is_last(&self.last, head.id) {
            return Row::Ignore(Reason::Unexpected);
        }
        if head.code == 3 {
            on_success(self.state)
        } else {
            on_failure(self.state)
        }
    }
}

/// Whether a method takes packets of an EAP type: those of type 1, Identity, and those of its own type.
fn is_type_of(method: Method, kind: u8) -> bool
    ensures { result ≡ (kind == 1 || kind == method_type method) }
{
    kind == 1 || kind == method_type(method)
}

/// Whether bytes are those of the request that was answered last.
fn repeats(last: &Option<Last>, bytes: &[u8]) -> bool
    ensures { result ≡ repeats last.now bytes.now }
{
    match last {
        None => false,
        Some(last) => bytes == last.request.as_slice(),
    }
}

/// Whether an Identifier is that of the request that was answered last.
fn is_last(last: &Option<Last>, id: u8) -> bool
    ensures { result ≡ is_last last.now id }
{
    match last {
        None => false,
        Some(last) => id == last.id,
    }
}

/// Success with the Identifier of the last request.
fn on_success(state: PeerState) -> Row
    ensures { result ≡ on_success state }
{
    match state {
        PeerState::Answered(_) => Row::Success,
        _ => Row::Ignore(Reason::Unexpected),
    }
}

/// Failure with the Identifier of the last request.
fn on_failure(state: PeerState) -> Row
    ensures { result ≡ on_failure state }
{
    match state {
        PeerState::Refusing(why) => Row::Failure(why),
        _ => Row::Failure(PeerWhy::FailureReceived),
    }
}

/// A request in Waiting.
fn waiting(options: &PeerOptions, reading: &Reading) -> Row
    ensures { result ≡ waiting options.now reading.now }
{
    match reading {
        Reading::Fault(_) => Row::Client(PeerWhy::Malformed),
        Reading::Read(Packet::Identity { .. }) => Row::First,
        Reading::Read(Packet::Aka { subtype, attrs, .. }) => on_message(options, *subtype, attrs),
        Reading::Read(_) => Row::Ignore(Reason::Unexpected),
    }
}

/// A message in Waiting.
fn on_message(options: &PeerOptions, subtype: Subtype, list: &AttrList) -> Row
    ensures { result ≡ on_message options.now subtype list.now }
{
    if is_response(subtype) || is_malformed(subtype, true, options.method, list) {
        Row::Client(PeerWhy::Malformed)
    } else {
        on_sound(options, subtype, list)
    }
}

/// Whether only responses have a Subtype.
fn is_response(subtype: Subtype) -> bool
    ensures { result ≡ is_response subtype }
{
    match subtype {
        Subtype::AuthenticationReject => true,
        Subtype::SynchronizationFailure => true,
        Subtype::ClientError => true,
        _ => false,
    }
}

/// A message that isn't malformed, in Waiting.
fn on_sound(options: &PeerOptions, subtype: Subtype, list: &AttrList) -> Row
    ensures { result ≡ on_sound options.now subtype list.now }
{
    match subtype {
        Subtype::Challenge => on_challenge(options, list),
        Subtype::Reauthentication => Row::Reauthentication,
        Subtype::Notification => on_notification(list),
        Subtype::Identity => on_identity(list),
        _ => Row::Ignore(Reason::Unexpected),
    }
}

/// An AKA-Identity request in Waiting: it asks for exactly one identity (RFC 4187 §9.1).
fn on_identity(list: &AttrList) -> Row
    ensures { result ≡ on_identity list.now }
{
    if is_missing(Subtype::Identity, true, list) {
        return Row::Client(PeerWhy::Missing);
    }
    Row::Identity(request_in(list))
}

/// A Challenge in Waiting.
fn on_challenge(options: &PeerOptions, list: &AttrList) -> Row
    ensures { result ≡ on_challenge options.now list.now }
{
    if is_missing(Subtype::Challenge, true, list) {
        return Row::Client(PeerWhy::Missing);
    }
    let attrs = list.as_slice();
    let Some(rand) = rand_in(attrs) else {
        return Row::Client(PeerWhy::Missing);
    };
    let Some(autn) = autn_in(attrs) else {
        return Row::Client(PeerWhy::Missing);
    };
    method_row(options, attrs, Challenge { rand, autn })
}

/// What a method tests of a Challenge before the USIM is asked.
fn method_row(options: &PeerOptions, list: &[Attr], challenge: Challenge) -> Row
    ensures { result ≡ method_row options.now.method options.now list.now challenge }
{
    match options.method {
        Method::Aka => aka_row(options.has_prime, list, challenge),
        Method::Prime => prime_row(&options.name, list, challenge),
    }
}

/// EAP-AKA: a device that has EAP-AKA' isn't bid down from it (RFC 9048 §4).
fn aka_row(has_prime: bool, list: &[Attr], challenge: Challenge) -> Row
    ensures { result ≡ aka_row has_prime list.now challenge }
{
    if has_prime && bids(list) {
        return Row::Reject(PeerWhy::Downgrade);
    }
    Row::Challenged(challenge)
}

/// EAP-AKA': the key derivation function, the network's name and the separation bit.
fn prime_row(own: &Option<Octets>, list: &[Attr], challenge: Challenge) -> Row
    ensures { result ≡ prime_row own.now list.now challenge }
{
    if !is_known_kdf(kdf_in(list)) {
        return Row::Reject(PeerWhy::BadKdf);
    }
    if !is_right_name(own, name_in(list)) {
        return Row::Reject(PeerWhy::BadName);
    }
    if !is_separated(challenge.autn) {
        return Row::Reject(PeerWhy::NoSeparation);
    }
    Row::Challenged(challenge)
}

/// A Notification in Waiting.
fn on_notification(list: &AttrList) -> Row
    ensures { result ≡ on_notification list.now }
{
    match code_in(list.as_slice()) {
        None => Row::Client(PeerWhy::Missing),
        Some(code) => notified_row(code),
    }
}

/// A request in Answered.
fn late(method: Method, reading: &Reading) -> Row
    ensures { result ≡ late method reading.now }
{
    match reading {
        Reading::Read(
            Packet::Aka {
                subtype: Subtype::Notification,
                attrs,
                ..
            },
        ) => late_notification(method, attrs),
        _ => Row::Ignore(Reason::Unexpected),
    }
}

/// A Notification in Answered.
fn late_notification(method: Method, list: &AttrList) -> Row
    ensures { result ≡ late_notification method list.now }
{
    if is_malformed(Subtype::Notification, true, method, list) {
        return Row::Ignore(Reason::Unexpected);
    }
    match code_in(list.as_slice()) {
        None => Row::Ignore(Reason::Unexpected),
        Some(code) => notified_row(code),
    }
}

/// The code of a Notification. The bit P, 0x4000, says that the Notification may come before a Challenge was
/// answered, and the bit S, 0x8000, that it is none of failure (RFC 4187 §10.19).
fn notified_row(code: u16) -> Row
    ensures { result ≡ notified_row code }
{
    if 16384 <= code && code < 32768 {
        Row::Notified(code)
    } else {
        Row::Ignore(Reason::Unexpected)
    }
}
