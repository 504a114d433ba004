//! The attributes that an end looks for in a message.

ghost use Rattle.std.specs.Prelude.{◌≡◌};
ghost use Rattle.std.specs.Option.{option_copied};
ghost use Rattle.auc_sim_packet.specs.Attributes.{code_of, first_value, identity_of, nonce_of, rands_of, selected_of, versions_of};

use crate::attr::SimAttr;
use crate::attr_list::SimList;

/// The RANDs of the first AT_RAND, one after another (RFC 4186 §10.9).
pub fn rands_in(list: &SimList) -> Option<&[u8]>
    ensures { option_copied result ≡ first_value rands_of list.now }
{
    for attr in list.as_slice() {
        if let Some(rands) = rands_of(attr) {
            return Some(rands);
        }
    }
    None
}

fn rands_of(attr: &SimAttr) -> Option<&[u8]>
    ensures { option_copied result ≡ rands_of attr.now }
{
    match attr {
        SimAttr::Rand(rands) => Some(rands.as_slice()),
        _ => None,
    }
}

/// The value of the first AT_NONCE_MT (RFC 4186 §10.4).
pub fn nonce_in(list: &SimList) -> Option<[u8; 16]>
    ensures { result ≡ first_value nonce_of list.now }
{
    for attr in list.as_slice() {
        if let Some(nonce) = nonce_of(attr) {
            return Some(nonce);
        }
    }
    None
}

fn nonce_of(attr: &SimAttr) -> Option<[u8; 16]>
    ensures { result ≡ nonce_of attr.now }
{
    match attr {
        SimAttr::NonceMt(nonce) => Some(*nonce),
        _ => None,
    }
}

/// The identity in the first AT_IDENTITY (RFC 4186 §10.8).
pub fn identity_in(list: &SimList) -> Option<&[u8]>
    ensures { option_copied result ≡ first_value identity_of list.now }
{
    for attr in list.as_slice() {
        if let Some(identity) = identity_of(attr) {
            return Some(identity);
        }
    }
    None
}

fn identity_of(attr: &SimAttr) -> Option<&[u8]>
    ensures { option_copied result ≡ identity_of attr.now }
{
    match attr {
        SimAttr::Identity(identity) => Some(identity.as_slice()),
        _ => None,
    }
}

/// The versions of the first AT_VERSION_LIST, of two bytes each (RFC 4186 §10.2).
pub fn versions_in(list: &SimList) -> Option<&[u8]>
    ensures { option_copied result ≡ first_value versions_of list.now }
{
    for attr in list.as_slice() {
        if let Some(versions) = versions_of(attr) {
            return Some(versions);
        }
    }
    None
}

fn versions_of(attr: &SimAttr) -> Option<&[u8]>
    ensures { option_copied result ≡ versions_of attr.now }
{
    match attr {
        SimAttr::VersionList(versions) => Some(versions.as_slice()),
        _ => None,
    }
}

/// The version in the first AT_SELECTED_VERSION (RFC 4186 §10.3).
pub fn selected_in(list: &SimList) -> Option<u16>
    ensures { result ≡ first_value selected_of list.now }
{
    for attr in list.as_slice() {
        if let Some(version) = selected_of(attr) {
            return Some(version);
        }
    }
    None
}

fn selected_of(attr: &SimAttr) -> Option<u16>
    ensures { result ≡ selected_of attr.now }
{
    match attr {
        SimAttr::SelectedVersion(version) => Some(*version),
        _ => None,
    }
}

/// The code of the first AT_CLIENT_ERROR_CODE (RFC 4186 §10.19).
pub fn code_in(list: &SimList) -> Option<u16>
    ensures { result ≡ first_value code_of list.now }
{
    for attr in list.as_slice() {
        if let Some(code) = code_of(attr) {
            return Some(code);
        }
    }
    None
}

fn code_of(attr: &SimAttr) -> Option<u16>
    ensures { result ≡ code_of attr.now }
{
    match attr {
        SimAttr::ClientErrorCode(code) => Some(*code),
        _ => None,
    }
}
