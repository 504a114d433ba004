//! CK and IK by the method, the keys that are made of them, and those of a fast re-authentication.

ghost use Rattle.std.specs.Prelude.{◌≡◌, ◌≤◌, length};
ghost use Rattle.auc_vector.specs.Keys.{ck_by, ik_by, k_re_of, keys_of as keys_by_method, master_of as master_by_method, reauth_keys_of, reauth_pair};

use auc_hmac::{KeySet, Master, Method, Pair, piece_of};
use auc_kdf::{prime_ck_ik, prime_keys, prime_reauth_keys};
use auc_prf::{aka_keys, aka_reauth_keys};

/// CK and IK as the method uses them: those of EAP-AKA' are bound to the name of the network (RFC 9048 §3.3,
/// TS 33.402 Annex A.2).
pub fn keys_by(
    method: Method,
    name: &[u8],
    autn: [u8; 16],
    ck: [u8; 16],
    ik: [u8; 16],
) -> ([u8; 16], [u8; 16])
    requires short { length name.now ≤ 65535 }
    ensures ck { result.0 ≡ ck_by method name.now autn ck ik }
    ensures ik { result.1 ≡ ik_by method name.now autn ck ik }
{
    match method {
        Method::Aka => (ck, ik),
        Method::Prime => prime_ck_ik(ck, ik, name, piece_of(&autn, 0)),
    }
}

/// The keys of a full authentication, from the identity that the peer sent last, and IK and CK by the method (RFC 4187
/// §7, RFC 9048 §3.3).
#[tactic(auto, unfolding(crate::specs::Keys::keys_of))]
pub fn keys_of(method: Method, identity: &[u8], ik: [u8; 16], ck: [u8; 16]) -> KeySet
    ensures { result ≡ keys_by_method method identity.now ik ck }
{
    match method {
        Method::Aka => aka_keys(identity, ik, ck).0,
        Method::Prime => prime_keys(identity, ik, ck),
    }
}

/// The key that the keys of the fast re-authentications after a full authentication are derived from: MK, or K_re of
/// EAP-AKA' (RFC 4187 §7, RFC 9048 §3.3).
#[tactic(auto, unfolding(crate::specs::Keys::master_of))]
pub fn master_of(method: Method, identity: &[u8], ik: [u8; 16], ck: [u8; 16]) -> Master
    ensures { result ≡ master_by_method method identity.now ik ck }
{
    match method {
        Method::Aka => aka_keys(identity, ik, ck).1,
        Method::Prime => Master::Prime(prime_keys(identity, ik, ck).k_re),
    }
}

/// K_re by the master key; EAP-AKA has none.
fn k_re_of(master: Master) -> [u8; 32]
    ensures { result ≡ k_re_of master }
{
    match master {
        Master::Aka(_) => [0; 32],
        Master::Prime(k_re) => k_re,
    }
}

/// MSK and EMSK of a fast re-authentication.
#[tactic(auto, unfolding(crate::specs::Keys::reauth_pair))]
fn reauth_pair(master: Master, identity: &[u8], counter: u16, nonce: [u8; 16]) -> Pair
    ensures { result ≡ reauth_pair master identity.now counter nonce }
{
    match master {
        Master::Aka(mk) => aka_reauth_keys(identity, counter, nonce, mk),
        Master::Prime(k_re) => prime_reauth_keys(identity, counter, nonce, k_re),
    }
}

/// The keys of a fast re-authentication, from K_encr, K_aut and the master key of the full authentication, the identity that
/// the peer sent, the counter and NONCE_S (RFC 4187 §7, RFC 9048 §3.3).
pub fn reauth_keys(
    k_encr: [u8; 16],
    k_aut: [u8; 32],
    master: Master,
    identity: &[u8],
    counter: u16,
    nonce: [u8; 16],
) -> KeySet
    ensures { result ≡ reauth_keys_of k_encr k_aut master identity.now counter nonce }
{
    let Pair { msk, emsk } = reauth_pair(master, identity, counter, nonce);
    KeySet {
        k_encr,
        k_aut,
        k_re: k_re_of(master),
        msk,
        emsk,
    }
}
