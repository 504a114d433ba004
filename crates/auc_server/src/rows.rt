//! The rows of a server's table: which of them received bytes fall into.

ghost use Rattle.std.specs.Prelude.{◌≡◌, ◌<◌, ℕ, List, length, true, IfSome};
ghost use Rattle.std.specs.Option.{option_copied};
ghost use Rattle.auc_packet.specs.Received.{IsReceived, seen_of};
ghost use Rattle.auc_seal.specs.Checkcode.{differs};
ghost use Rattle.auc_server.specs.Attributes.{identity_in};
ghost use Rattle.auc_server.specs.Rounds.{checkcode};
ghost use Rattle.auc_server.specs.Rows.{by_auts, is_expected, is_held, is_type, on_challenged, on_client_error, on_identity, on_message, on_method, on_reading, on_reauth, on_requested, on_response, on_resumed, on_sync_failure, server_row, text_in, type_awaited};
ghost use Rattle.auc_server.specs.Steps.{IsHeld, IsHeldToo};
ghost use Rattle.auc_server.specs.declared.setting.HomeRow.{HomeRow};
ghost use Rattle.auc_subs.specs.declared.row.Row as rows;
ghost use Rattle.auc_server.specs.InnerRows.{IsHeldRow};
ghost use Rattle.auc_server.specs.InnerServer.{HasNext};
ghost use Rattle.auc_server.specs.Server.{challenged_of, resumed_of};
ghost use Rattle.auc_reauth.specs.Store.{method_of};
ghost use Rattle.auc_hmac.specs.declared.method.Method.{Method};

use crate::attributes::{auts_in, error_code_in, identity_in, res_in};
use crate::identities::{on_first, on_requested};
use crate::reply::Reply;
use crate::server::{Challenged, Resumed, Server, ServerState};
use crate::setting::HomeRow;
use auc_attr::AttrList;
use auc_hmac::{Method, method_type};
use auc_memory::Octets;
use auc_packet::{
    Head, Packet, Reading, Received, Subtype, head, is_malformed, is_missing, is_sealed,
};
use auc_request::{IdentityRequest, checkcode_in};
use auc_seal::IdentityPackets;
use auc_subs::Setting;
use auc_vector::{Auts, Reason, ServerWhy, read_auts};

/// A row of a server's table.
#[derive(Clone, Copy)]
pub enum Row {
    /// Nothing is done.
    Ignore(Reason),
    /// Another identity is asked for (RFC 4187 §4.1.4).
    Ask(IdentityRequest),
    /// The identity isn't that of a subscriber that is served (RFC 4187 §6.3.2).
    UnknownIdentity,
    /// The subscriber at this place is challenged (RFC 4187 §3).
    Challenge(u32),
    /// The context of the subscriber at this place is taken up again (RFC 4187 §5.3).
    Resume(u32),
    /// The response hasn't the counter that was sent (RFC 4187 §5.5 and §10.16).
    WrongCounter,
    /// The counter is too small for the peer, and the subscriber at this place is challenged (RFC 4187 §5.5).
    TooSmall(u32),
    /// The peer is authenticated again, by this re-authentication (RFC 4187 §5.4).
    Reauthenticated(Resumed),
    /// AT_MAC isn't right (RFC 4187 §6.3.2).
    WrongMac,
    /// RES isn't XRES (RFC 4187 §6.3.2).
    WrongRes,
    /// The checkcode isn't that of the session (RFC 4187 §10.13).
    WrongCheckcode,
    /// The peer is authenticated, by this challenge (RFC 4187 §3).
    Success(Challenged),
    /// A second synchronisation failure came (RFC 4187 §6.3.2).
    SecondSync,
    /// MAC-S isn't right (TS 33.102 §6.3.5).
    BadAuts,
    /// The subscriber at this place resynchronises with this SEQ (RFC 4187 §9.6, TS 33.102 §6.3.5).
    Resynchronise(u32, u64),
    /// The peer rejects the network (RFC 4187 §9.5).
    Rejected,
    /// The peer reports this error (RFC 4187 §9.9).
    ClientError(u16),
    /// The peer has answered the notification of this failure (RFC 4187 §6.3.3 and §9.11).
    Notified(ServerWhy),
}

/// The text of an Identity response or of an AKA-Identity response, or an empty one.
pub(crate) fn text_in(reading: &Reading) -> &[u8]
    ensures { result.now ≡ text_in reading.now }
{
    match reading {
        Reading::Read(Packet::Identity { text, .. }) => text.as_slice(),
        Reading::Read(Packet::Aka { attrs, .. }) => identity_in(attrs),
        _ => &[],
    }
}

/// Whether RES is XRES.
fn is_expected(xres: &[u8; 8], res: Option<&Octets>) -> bool
    ensures { result ≡ is_expected xres.now (option_copied res.entry) }
{
    match res {
        None => false,
        Some(res) => res.as_slice() == xres.as_slice(),
    }
}

/// Whether there is a checkcode, and it isn't that of the session.
#[tactic(auto, unfolding(crate::specs::Rounds::checkcode))]
fn differs(method: Method, packets: &IdentityPackets, code: Option<&Octets>) -> bool
    ensures { result ≡ differs (checkcode method packets.now) (option_copied code.entry) }
{
    packets.value(method).differs(code)
}

/// A Challenge response.
fn on_response(
    method: Method,
    packets: &IdentityPackets,
    sent: &Challenged,
    received: &Received,
    attrs: &AttrList,
) -> Row
    requires received { IsReceived (seen_of received.now) }
    requires own { method_of sent.now.master ≡ method }
    ensures row { result ≡ on_response method packets.now sent.now (seen_of received.now) attrs.now }
    ensures held { (all : List rows.Row) (homes : List HomeRow) → IsHeldRow method all homes result }
{
    if is_missing(Subtype::Challenge, false, attrs) {
        return Row::Ignore(Reason::Missing);
    }
    if !is_sealed(received, method, &sent.keys.k_aut, &[]) {
        return Row::WrongMac;
    }
    if !is_expected(&sent.vector.xres, res_in(attrs)) {
        return Row::WrongRes;
    }
    if differs(method, packets, checkcode_in(attrs.as_slice())) {
        return Row::WrongCheckcode;
    }
    Row::Success(*sent)
}

/// A Reauthentication response.
fn on_reauth(
    method: Method,
    packets: &IdentityPackets,
    sent: &Resumed,
    received: &Received,
    reply: Reply,
    attrs: &AttrList,
) -> Row
    requires received { IsReceived (seen_of received.now) }
    requires own { method_of sent.now.context.master ≡ method }
    requires next { HasNext sent.now }
    ensures row { result ≡ on_reauth method packets.now sent.now (seen_of received.now) reply attrs.now }
    ensures held { (all : List rows.Row) (homes : List HomeRow) → is_held homes sent.now.sub ≡ true
        → IsHeldRow method all homes result }
{
    if is_missing(Subtype::Reauthentication, false, attrs) {
        return Row::Ignore(Reason::Missing);
    }
    if !is_sealed(received, method, &sent.context.k_aut, &sent.nonce) {
        return Row::WrongMac;
    }
    match reply {
        Reply::Wrong => Row::WrongCounter,
        Reply::TooSmall => Row::TooSmall(sent.sub),
        Reply::Right => {
            if differs(method, packets, checkcode_in(attrs.as_slice())) {
                return Row::WrongCheckcode;
            }
            Row::Reauthenticated(*sent)
        }
    }
}

/// AUTS of a subscriber's USIM, by what it says.
fn by_auts(sub: u32, auts: Auts) -> Row
    ensures { result ≡ by_auts sub auts }
{
    match auts {
        Auts::WrongMac => Row::BadAuts,
        Auts::SeqMs(seq) => Row::Resynchronise(sub, seq),
    }
}

/// A Synchronization-Failure.
fn on_sync_failure(set: &Setting, synced: bool, sent: &Challenged, attrs: &AttrList) -> Row
    requires { sent.now.sub < length set.now.rows }
    ensures row { result ≡ on_sync_failure set.now synced sent.now attrs.now }
    ensures held { (by : Method) (homes : List HomeRow) → is_held homes sent.now.sub ≡ true
        → IsHeldRow by set.now.rows homes result }
{
    if is_missing(Subtype::SynchronizationFailure, false, attrs) {
        return Row::Ignore(Reason::Missing);
    }
    if synced {
        return Row::SecondSync;
    }
    let Some(auts) = auts_in(attrs) else {
        return Row::Ignore(Reason::Missing);
    };
    let home = set.subs.row(sent.sub);
    by_auts(
        sent.sub,
        read_auts(&home.secret, sent.vector.rand, auts, home.bits),
    )
}

/// A Client-Error.
fn on_client_error(attrs: &AttrList) -> Row
    ensures row { result ≡ on_client_error attrs.now }
    ensures held { (by : Method) (all : List rows.Row) (homes : List HomeRow) → IsHeldRow by all homes result }
{
    if is_missing(Subtype::ClientError, false, attrs) {
        return Row::Ignore(Reason::Missing);
    }
    match error_code_in(attrs) {
        None => Row::Ignore(Reason::Missing),
        Some(code) => Row::ClientError(code),
    }
}

/// An AKA-Identity response, for which a row is taken, or an error of the peer.
fn on_identity(answered: Row, homes: &[HomeRow], subtype: Subtype, attrs: &AttrList) -> Row
    ensures row { result ≡ on_identity answered subtype attrs.now }
    ensures held { (by : Method) (all : List rows.Row) → IsHeldRow by all homes.now answered → IsHeldRow by all homes.now result }
{
    match subtype {
        Subtype::Identity => {
            if is_missing(Subtype::Identity, false, attrs) {
                return Row::Ignore(Reason::Missing);
            }
            answered
        }
        Subtype::ClientError => on_client_error(attrs),
        _ => Row::Ignore(Reason::Unexpected),
    }
}

/// A message after an identity was asked for.
fn in_requested(
    asked: IdentityRequest,
    method: Method,
    set: &Setting,
    homes: &[HomeRow],
    subtype: Subtype,
    attrs: &AttrList,
) -> Row
    ensures row { result ≡ on_identity (on_requested asked method set.now homes.now (identity_in attrs.now)) subtype attrs.now }
    ensures held { IsHeldRow method set.now.rows homes.now result }
{
    let answered = on_requested(asked, method, set, homes, identity_in(attrs));
    on_identity(answered, homes, subtype, attrs)
}

/// The type that a state expects.
fn type_awaited(method: Method, state: &ServerState) -> u8
    ensures { result ≡ type_awaited method state.now }
{
    match state {
        ServerState::AwaitIdentity => 1,
        _ => method_type(method),
    }
}

fn is_type(wanted: u8, kind: Option<u8>) -> bool
    ensures { result ≡ is_type wanted kind }
{
    match kind {
        None => false,
        Some(kind) => kind == wanted,
    }
}

/// A message of the method, with the reply to a re-authentication.
#[derive(Drop)]
struct Message<'a> {
    received: &'a Received<'a>,
    subtype: Subtype,
    attrs: &'a AttrList,
    reply: Reply,
}

impl Server {
    /// The answer to a challenge.
    fn on_challenged(&self, set: &Setting, sent: &Challenged, message: &Message) -> Row
        requires received { IsReceived (seen_of message.now.received.now) }
        requires listed { sent.now.sub < length set.now.rows }
        requires own { method_of sent.now.master ≡ self.now.options.method }
        ensures row { result ≡ on_challenged set.now self.now sent.now (seen_of message.now.received.now) message.now.subtype message.now.attrs.now }
        ensures held { (homes : List HomeRow) → is_held homes sent.now.sub ≡ true
            → IsHeldRow self.now.options.method set.now.rows homes result }
    {
        match message.subtype {
            Subtype::Challenge => on_response(
                self.options.method,
                &self.packets,
                sent,
                message.received,
                message.attrs,
            ),
            Subtype::SynchronizationFailure => {
                on_sync_failure(set, self.synced, sent, message.attrs)
            }
            Subtype::AuthenticationReject => Row::Rejected,
            Subtype::ClientError => on_client_error(message.attrs),
            _ => Row::Ignore(Reason::Unexpected),
        }
    }

    /// The answer to a re-authentication.
    fn on_resumed(&self, sent: &Resumed, message: &Message) -> Row
        requires received { IsReceived (seen_of message.now.received.now) }
        requires own { method_of sent.now.context.master ≡ self.now.options.method }
        requires next { HasNext sent.now }
        ensures row { result ≡ on_resumed self.now sent.now (seen_of message.now.received.now) message.now.reply message.now.subtype message.now.attrs.now }
        ensures held { (all : List rows.Row) (homes : List HomeRow) → is_held homes sent.now.sub ≡ true
            → IsHeldRow self.now.options.method all homes result }
    {
        match message.subtype {
            Subtype::Reauthentication => on_reauth(
                self.options.method,
                &self.packets,
                sent,
                message.received,
                message.reply,
                message.attrs,
            ),
            Subtype::ClientError => on_client_error(message.attrs),
            _ => Row::Ignore(Reason::Unexpected),
        }
    }

    /// A message that isn't malformed.
    fn on_message(&self, set: &Setting, homes: &[HomeRow], message: &Message) -> Row
        requires received { IsReceived (seen_of message.now.received.now) }
        requires listed { IfSome (challenged_of self.now) (λ sent. sent.sub < length set.now.rows) }
        requires held { IsHeld homes.now (challenged_of self.now) }
        requires resumed { IsHeldToo homes.now (resumed_of self.now) }
        ensures row { result ≡ on_message set.now homes.now self.now self.now.state (seen_of message.now.received.now) message.now.reply message.now.subtype message.now.attrs.now }
        ensures held { IsHeldRow self.now.options.method set.now.rows homes.now result }
    {
        match &self.state {
            ServerState::Await(asked) => in_requested(
                *asked,
                self.options.method,
                set,
                homes,
                message.subtype,
                message.attrs,
            ),
            ServerState::AwaitChallenge(sent, _) => self.on_challenged(set, sent, message),
            ServerState::AwaitReauth(sent) => self.on_resumed(sent, message),
            ServerState::Notifying(why, _) => match message.subtype {
                Subtype::Notification => Row::Notified(*why),
                _ => Row::Ignore(Reason::Unexpected),
            },
            _ => Row::Ignore(Reason::Unexpected),
        }
    }

    /// A response of the method.
    fn on_method(&self, set: &Setting, homes: &[HomeRow], received: &Received, reply: Reply) -> Row
        requires received { IsReceived (seen_of received.now) }
        requires listed { IfSome (challenged_of self.now) (λ sent. sent.sub < length set.now.rows) }
        requires held { IsHeld homes.now (challenged_of self.now) }
        requires resumed { IsHeldToo homes.now (resumed_of self.now) }
        ensures row { result ≡ on_method set.now homes.now self.now self.now.state (seen_of received.now) reply received.now.reading }
        ensures held { IsHeldRow self.now.options.method set.now.rows homes.now result }
    {
        let Reading::Read(Packet::Aka { subtype, attrs, .. }) = &received.reading else {
            return Row::Ignore(Reason::Malformed);
        };
        if is_malformed(*subtype, false, self.options.method, attrs) {
            return Row::Ignore(Reason::Malformed);
        }
        let message = Message {
            received,
            subtype: *subtype,
            attrs,
            reply,
        };
        self.on_message(set, homes, &message)
    }

    /// A response of the type that the state expects.
    fn on_reading(&self, set: &Setting, homes: &[HomeRow], received: &Received, reply: Reply) -> Row
        requires received { IsReceived (seen_of received.now) }
        requires listed { IfSome (challenged_of self.now) (λ sent. sent.sub < length set.now.rows) }
        requires held { IsHeld homes.now (challenged_of self.now) }
        requires resumed { IsHeldToo homes.now (resumed_of self.now) }
        ensures row { result ≡ on_reading set.now homes.now self.now self.now.state (seen_of received.now) reply received.now.reading }
        ensures held { IsHeldRow self.now.options.method set.now.rows homes.now result }
    {
        if let ServerState::AwaitIdentity = self.state {
            return on_first(&self.options, set, homes, text_in(&received.reading));
        }
        self.on_method(set, homes, received, reply)
    }

    /// The row that received bytes fall into.
    pub(crate) fn row(
        &self,
        set: &Setting,
        homes: &[HomeRow],
        received: &Received,
        reply: Reply,
    ) -> Row
        requires received { IsReceived (seen_of received.now) }
        requires listed { IfSome (challenged_of self.now) (λ sent. sent.sub < length set.now.rows) }
        requires held { IsHeld homes.now (challenged_of self.now) }
        requires resumed { IsHeldToo homes.now (resumed_of self.now) }
        ensures row { result ≡ server_row set.now homes.now self.now (seen_of received.now) reply }
        ensures held { IsHeldRow self.now.options.method set.now.rows homes.now result }
    {
        if let ServerState::Ended(_, _) = self.state {
            return Row::Ignore(Reason::Closed);
        }
        let Some(head) = head(received.bytes) else {
            return Row::Ignore(Reason::NotForMe);
        };
        if head.code != 2 || head.id != self.id {
            return Row::Ignore(Reason::NotForMe);
        }
        if !is_type(type_awaited(self.options.method, &self.state), head.kind) {
            return Row::Ignore(Reason::OtherType);
        }
        self.on_reading(set, homes, received, reply)
    }
}
