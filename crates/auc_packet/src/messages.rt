//! Which attributes each message has.

ghost use Rattle.std.specs.Prelude.{◌≡◌, not};
ghost use Rattle.std.specs.List.{list_any};
ghost use Rattle.auc_attr.specs.Item.{has};
ghost use Rattle.auc_attr.specs.Spelling.{stands_in};
ghost use Rattle.auc_packet.specs.Messages.{allowed, needed, is_foreign, is_malformed, is_missing, is_one};

use crate::subtype::Subtype;
use auc_attr::{Attr, AttrList};
use auc_hmac::Method;

/// Whether a message has an attribute of a type below 128 that it may not have (RFC 4187 §8.2). Attributes from 128
/// on are skipped by a reader that doesn't know them, and make no message malformed.
pub fn is_malformed(subtype: Subtype, request: bool, method: Method, attrs: &AttrList) -> bool
    ensures { result ≡ is_malformed subtype request method attrs.now }
{
    let kinds = allowed(subtype, request, method);
    attrs.as_slice().iter().any(|attr| is_foreign(kinds, attr))
}

/// Whether a message lacks an attribute that it must have. An Identity Request must have exactly one of
/// AT_PERMANENT_ID_REQ, AT_ANY_ID_REQ and AT_FULLAUTH_ID_REQ (RFC 4187 §9.1).
pub fn is_missing(subtype: Subtype, request: bool, attrs: &AttrList) -> bool
    ensures { result ≡ is_missing subtype request attrs.now }
{
    match (subtype, request) {
        (Subtype::Identity, true) => !is_one(attrs.has(10), attrs.has(13), attrs.has(17)),
        _ => lacks_any(needed(subtype, request), attrs),
    }
}

/// The types of the attributes that a message may have.
fn allowed(subtype: Subtype, request: bool, method: Method) -> &'static [u8]
    ensures { result.now ≡ allowed subtype request method }
{
    match (subtype, request, method) {
        (Subtype::Challenge, true, Method::Aka) => &[1, 2, 11, 129, 130, 134, 136],
        (Subtype::Challenge, true, Method::Prime) => &[1, 2, 11, 23, 24, 129, 130, 134],
        (Subtype::Challenge, false, _) => &[3, 11, 134],
        (Subtype::SynchronizationFailure, false, Method::Aka) => &[4],
        (Subtype::SynchronizationFailure, false, Method::Prime) => &[4, 24],
        (Subtype::Identity, true, _) => &[10, 13, 17],
        (Subtype::Identity, false, _) => &[14],
        (Subtype::Notification, true, _) => &[11, 12],
        (Subtype::Reauthentication, _, _) => &[11, 129, 130, 134],
        (Subtype::ClientError, false, _) => &[22],
        _ => &[],
    }
}

/// The types of the attributes that a message must have.
fn needed(subtype: Subtype, request: bool) -> &'static [u8]
    ensures { result.now ≡ needed subtype request }
{
    match (subtype, request) {
        (Subtype::Challenge, true) => &[1, 2, 11],
        (Subtype::Challenge, false) => &[3, 11],
        (Subtype::SynchronizationFailure, false) => &[4],
        (Subtype::Identity, false) => &[14],
        (Subtype::Notification, true) => &[12],
        (Subtype::Reauthentication, _) => &[11, 129, 130],
        (Subtype::ClientError, false) => &[22],
        _ => &[],
    }
}

/// Whether an attribute has a type below 128 that isn't among these.
fn is_foreign(kinds: &[u8], attr: &Attr) -> bool
    ensures { result ≡ is_foreign kinds.now attr.now }
{
    let kind = attr.kind();
    kind < 128 && !stands_in(kinds, kind)
}

fn stands_in(kinds: &[u8], kind: u8) -> bool
    ensures { result ≡ stands_in kinds.now kind }
{
    kinds.iter().any(|&other| other == kind)
}

/// Whether a list lacks an attribute of one of these types.
fn lacks_any(kinds: &[u8], attrs: &AttrList) -> bool
    ensures { result ≡ list_any (λ kind. not (has attrs.now kind)) kinds.now }
{
    kinds.iter().any(|&kind| !attrs.has(kind))
}

/// Whether exactly one of three holds.
fn is_one(first: bool, second: bool, third: bool) -> bool
    ensures { result ≡ is_one first second third }
{
    match (first, second, third) {
        (true, false, false) | (false, true, false) | (false, false, true) => true,
        _ => false,
    }
}
