//! Which subscriber an identity names, and the row that it falls into.

ghost use Rattle.std.specs.Prelude.{◌≡◌, true, Some, IfSome};
ghost use Rattle.auc_server.specs.Asked.{asked_after};
ghost use Rattle.auc_server.specs.InnerRows.{IsHeldRow};
ghost use Rattle.auc_server.specs.Rows.{context_subscriber, if_held, is_held, on_any, on_first, on_full, on_permanent, on_requested, permanent_subscriber, pseudonym_subscriber, reauth_subscriber, subscriber_in};

use crate::contexts::has_context;
use crate::options::ServerOptions;
use crate::rows::Row;
use crate::server::Server;
use crate::setting::HomeRow;
use auc_hmac::Method;
use auc_ident::{NameKind, permanent_in, username};
use auc_request::IdentityRequest;
use auc_subs::Setting;
use auc_vector::{Notes, ResyncNote};

/// Whether a subscriber is one of the homes.
fn is_held(homes: &[HomeRow], sub: u32) -> bool
    ensures { result ≡ is_held homes.now sub }
{
    homes.iter().any(|home| home.sub == sub)
}

/// A subscriber, if it is one of the homes.
fn if_held(homes: &[HomeRow], sub: u32) -> Option<u32>
    ensures value { result ≡ if_held homes.now (Some sub) }
    ensures held { IfSome result (λ sub. is_held homes.now sub ≡ true) }
{
    if is_held(homes, sub) { Some(sub) } else { None }
}

/// The held subscriber whose permanent identity of a method a text is, up to its realm (RFC 4187 §4.1.1.6, RFC 9048 §3).
fn permanent_subscriber(
    method: Method,
    set: &Setting,
    homes: &[HomeRow],
    text: &[u8],
) -> Option<u32>
    ensures value { result ≡ permanent_subscriber method set.now homes.now text.now }
    ensures held { IfSome result (λ sub. is_held homes.now sub ≡ true) }
{
    let imsi = permanent_in(method, username(text))?;
    let sub = set.subs.find(imsi)?;
    if_held(homes, sub)
}

/// The held subscriber whose pseudonym of a method a text is, up to its realm (RFC 4187 §4.1.1.7).
fn pseudonym_subscriber(
    method: Method,
    set: &Setting,
    homes: &[HomeRow],
    text: &[u8],
) -> Option<u32>
    ensures value { result ≡ pseudonym_subscriber method set.now homes.now text.now }
    ensures held { IfSome result (λ sub. is_held homes.now sub ≡ true) }
{
    let of = set.names.resolve(NameKind::Pseudonym, method, text)?;
    if_held(homes, of.0)
}

/// The held subscriber whose permanent identity or pseudonym of a method a text is.
fn subscriber_in(method: Method, set: &Setting, homes: &[HomeRow], text: &[u8]) -> Option<u32>
    ensures value { result ≡ subscriber_in method set.now homes.now text.now }
    ensures held { IfSome result (λ sub. is_held homes.now sub ≡ true) }
{
    match permanent_subscriber(method, set, homes, text) {
        Some(sub) => Some(sub),
        None => pseudonym_subscriber(method, set, homes, text),
    }
}

/// The held subscriber whose re-authentication identity of a method a text is, up to its realm (RFC 4187 §4.1.1.8).
fn reauth_subscriber(method: Method, set: &Setting, homes: &[HomeRow], text: &[u8]) -> Option<u32>
    ensures value { result ≡ reauth_subscriber method set.now homes.now text.now }
    ensures held { IfSome result (λ sub. is_held homes.now sub ≡ true) }
{
    let of = set.names.resolve(NameKind::Reauth, method, text)?;
    if_held(homes, of.0)
}

/// The held subscriber whose context of a method has a text as its identity.
fn context_subscriber(method: Method, set: &Setting, homes: &[HomeRow], text: &[u8]) -> Option<u32>
    ensures value { result ≡ context_subscriber method set.now homes.now text.now }
    ensures held { IfSome result (λ sub. is_held homes.now sub ≡ true) }
{
    let sub = reauth_subscriber(method, set, homes, text)?;
    if !has_context(method, text, homes, sub) {
        return None;
    }
    Some(sub)
}

/// An identity that may be a re-authentication identity or a pseudonym.
fn on_any(method: Method, set: &Setting, homes: &[HomeRow], text: &[u8]) -> Row
    ensures row { result ≡ on_any method set.now homes.now text.now }
    ensures held { IsHeldRow method set.now.rows homes.now result }
{
    if let Some(sub) = context_subscriber(method, set, homes, text) {
        return Row::Resume(sub);
    }
    match subscriber_in(method, set, homes, text) {
        None => Row::Ask(IdentityRequest::Fullauth),
        Some(sub) => Row::Challenge(sub),
    }
}

/// A pseudonym or a permanent identity, where one for full authentication was asked for.
fn on_full(method: Method, set: &Setting, homes: &[HomeRow], text: &[u8]) -> Row
    ensures row { result ≡ on_full method set.now homes.now text.now }
    ensures held { IsHeldRow method set.now.rows homes.now result }
{
    match subscriber_in(method, set, homes, text) {
        None => Row::Ask(IdentityRequest::Permanent),
        Some(sub) => Row::Challenge(sub),
    }
}

/// An identity that must be a permanent one.
fn on_permanent(method: Method, set: &Setting, homes: &[HomeRow], text: &[u8]) -> Row
    ensures row { result ≡ on_permanent method set.now homes.now text.now }
    ensures held { IsHeldRow method set.now.rows homes.now result }
{
    match permanent_subscriber(method, set, homes, text) {
        None => Row::UnknownIdentity,
        Some(sub) => Row::Challenge(sub),
    }
}

/// An identity, by what was asked for.
pub(crate) fn on_requested(
    asked: IdentityRequest,
    method: Method,
    set: &Setting,
    homes: &[HomeRow],
    text: &[u8],
) -> Row
    ensures row { result ≡ on_requested asked method set.now homes.now text.now }
    ensures held { IsHeldRow method set.now.rows homes.now result }
{
    match asked {
        IdentityRequest::Any => on_any(method, set, homes, text),
        IdentityRequest::Fullauth => on_full(method, set, homes, text),
        IdentityRequest::Permanent => on_permanent(method, set, homes, text),
    }
}

/// The identity of EAP's own Identity round.
pub(crate) fn on_first(
    options: &ServerOptions,
    set: &Setting,
    homes: &[HomeRow],
    text: &[u8],
) -> Row
    ensures row { result ≡ on_first options.now set.now homes.now text.now }
    ensures held { IsHeldRow options.now.method set.now.rows homes.now result }
{
    if options.any {
        return Row::Ask(IdentityRequest::Any);
    }
    on_any(options.method, set, homes, text)
}

impl Server {
    /// For whom the server asked the centre in the turn after which it stands so, by the turn's notes; `None` if it didn't.
    pub fn asked(&self, set: &Setting, homes: &[HomeRow], notes: Notes) -> Option<u32>
        ensures { result ≡ asked_after set.now homes.now self.now notes.resync notes.number }
    {
        match (notes.resync, notes.number) {
            (None, None) | (Some(ResyncNote::BadAuts), _) => None,
            (None, Some(_)) => match self.state.last().resumed {
                Some(sent) => Some(sent.sub),
                None => subscriber_in(self.options.method, set, homes, self.identity.as_slice()),
            },
            (Some(_), _) => Some(self.state.last().challenged?.sub),
        }
    }
}
