//! What a server encrypts may be encrypted, and its messages are short enough.

ghost use Rattle.std.specs.Prelude.{◌≤◌, length};
ghost use Rattle.auc_aes.specs.Bytes.{IsBlock};
ghost use Rattle.auc_server.specs.InnerMessages.{AreEncryptable, AreNames, IsGiven, IsName, IsNamed, IsSmall};
ghost use Rattle.auc_server.specs.Messages.{names_in, reauth_in};

use crate::naming::{GivenNames, NewNames};
use crate::server::Resumed;
use auc_attr::are_bytes;
use auc_seal::encrypted_attributes_may_be_written;

/// A key and an initialisation vector are 16 bytes each, and so are RAND and AUTN.
pub(crate) fn are_blocks(k_encr: [u8; 16], iv: [u8; 16])
    ensures key { IsBlock k_encr }
    ensures iv { IsBlock iv }
{}

/// A name is 33 bytes.
fn is_named(name: [u8; 33])
    ensures { IsNamed name }
{}

/// The names that a Challenge gives are 33 bytes each.
fn are_names(names: NewNames)
    ensures { AreNames names }
{
    match names {
        NewNames::Pseudonym(name) => is_named(name),
        NewNames::Identity(name) => is_named(name),
        NewNames::Both(name, other) => {
            is_named(name);
            is_named(other);
        }
    }
}

/// The next identity, if there is one, is 33 bytes.
fn is_name(next: Option<[u8; 33]>)
    ensures { IsName next }
{
    match next {
        None => {}
        Some(name) => is_named(name),
    }
}

/// The names that a Challenge gives may be encrypted.
pub(crate) fn names_may_be_encrypted(realm: &[u8], names: NewNames)
    requires { length realm.now ≤ 255 }
    ensures { AreEncryptable (names_in realm.now names) }
{
    are_bytes(realm);
    are_names(names);
}

/// The ciphertext of names has at most 336 bytes.
fn names_are_small(realm: &[u8], k_encr: [u8; 16], iv: [u8; 16], names: NewNames)
    requires { length realm.now ≤ 255 }
    ensures { IsSmall k_encr iv (names_in realm.now names) }
{
    are_blocks(k_encr, iv);
    names_may_be_encrypted(realm, names);
    encrypted_attributes_may_be_written();
}

/// The ciphertext of names that are given has at most 336 bytes.
pub(crate) fn given_is_small(realm: &[u8], k_encr: [u8; 16], given: Option<GivenNames>)
    requires { length realm.now ≤ 255 }
    ensures { IsGiven realm.now k_encr given }
{
    match given {
        None => {}
        Some(given) => names_are_small(realm, k_encr, given.iv, given.names),
    }
}

/// What a Reauthentication request encrypts may be encrypted.
pub(crate) fn reauth_may_be_encrypted(realm: &[u8], sent: &Resumed)
    requires { length realm.now ≤ 255 }
    ensures { AreEncryptable (reauth_in realm.now sent.now) }
{
    are_bytes(realm);
    are_blocks(sent.nonce, sent.nonce);
    is_name(sent.next);
}

/// The ciphertext of what a Reauthentication request encrypts has at most 336 bytes.
pub(crate) fn reauth_is_small(realm: &[u8], iv: [u8; 16], sent: &Resumed)
    requires { length realm.now ≤ 255 }
    ensures { IsSmall sent.now.context.k_encr iv (reauth_in realm.now sent.now) }
{
    are_blocks(sent.context.k_encr, iv);
    reauth_may_be_encrypted(realm, sent);
    encrypted_attributes_may_be_written();
}
