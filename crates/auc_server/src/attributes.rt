//! The attributes that a server looks for in a response.

ghost use Rattle.std.specs.Prelude.{◌≡◌};
ghost use Rattle.std.specs.Option.{option_copied};
ghost use Rattle.auc_attr.specs.First.{first_value};
ghost use Rattle.auc_server.specs.Attributes.{res_of, auts_of, error_code_of, identity_in, identity_of};

use auc_attr::{Attr, AttrList};
use auc_memory::Octets;

/// The value of the first AT_RES.
pub(crate) fn res_in(attrs: &AttrList) -> Option<&Octets>
    ensures { option_copied result ≡ first_value res_of attrs.now }
{
    for attr in attrs.as_slice() {
        if let Some(value) = res_of(attr) {
            return Some(value);
        }
    }
    None
}

fn res_of(attr: &Attr) -> Option<&Octets>
    ensures { option_copied result ≡ res_of attr.now }
{
    match attr {
        Attr::Res(value) => Some(value),
        _ => None,
    }
}

/// The value of the first AT_AUTS.
pub(crate) fn auts_in(attrs: &AttrList) -> Option<[u8; 14]>
    ensures { result ≡ first_value auts_of attrs.now }
{
    for attr in attrs.as_slice() {
        if let Some(value) = auts_of(attr) {
            return Some(value);
        }
    }
    None
}

fn auts_of(attr: &Attr) -> Option<[u8; 14]>
    ensures { result ≡ auts_of attr.now }
{
    match attr {
        Attr::Auts(value) => Some(*value),
        _ => None,
    }
}

/// The text of the first AT_IDENTITY, or an empty one.
pub(crate) fn identity_in(attrs: &AttrList) -> &[u8]
    ensures { result.now ≡ identity_in attrs.now }
{
    match first_identity(attrs) {
        None => &[],
        Some(text) => text.as_slice(),
    }
}

/// The text of the first AT_IDENTITY.
fn first_identity(attrs: &AttrList) -> Option<&Octets>
    ensures { option_copied result ≡ first_value identity_of attrs.now }
{
    for attr in attrs.as_slice() {
        if let Some(text) = identity_of(attr) {
            return Some(text);
        }
    }
    None
}

fn identity_of(attr: &Attr) -> Option<&Octets>
    ensures { option_copied result ≡ identity_of attr.now }
{
    match attr {
        Attr::Identity(text) => Some(text),
        _ => None,
    }
}

/// The code of the first AT_CLIENT_ERROR_CODE.
pub(crate) fn error_code_in(attrs: &AttrList) -> Option<u16>
    ensures { result ≡ first_value error_code_of attrs.now }
{
    for attr in attrs.as_slice() {
        if let Some(code) = error_code_of(attr) {
            return Some(code);
        }
    }
    None
}

fn error_code_of(attr: &Attr) -> Option<u16>
    ensures { result ≡ error_code_of attr.now }
{
    match attr {
        Attr::ClientErrorCode(code) => Some(*code),
        _ => None,
    }
}
