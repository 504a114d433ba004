//! The keys of a full authentication.

ghost use Rattle.std.specs.Prelude.{◌≡◌};
ghost use Rattle.auc_kdf.specs.Prime.{prime_key_set, prime_mk};

use crate::bytes::joined;
use crate::prf::{Seed, write_blocks};
use auc_hmac::{KeySet, piece_of};

/// The keys of a full authentication, from the identity that the peer sent last, IK' and CK'
/// (RFC 9048 §3.3).
pub fn prime_keys(identity: &[u8], ik: [u8; 16], ck: [u8; 16]) -> KeySet
    ensures { result ≡ prime_key_set (prime_mk identity.now ik ck) }
{
    let seed = Seed {
        label: b"EAP-AKA'",
        identity,
        freshness: &[],
    };
    let mut blocks = [0; 224];
    write_blocks(&joined(ik, ck), &seed, &mut blocks);
    cut(&piece_of(&blocks, 0))
}

// The keys that MK is cut into.
fn cut(mk: &[u8; 208]) -> KeySet
    ensures { result ≡ prime_key_set mk.now }
{
    KeySet {
        k_encr: piece_of(mk, 0),
        k_aut: piece_of(mk, 16),
        k_re: piece_of(mk, 48),
        msk: piece_of(mk, 80),
        emsk: piece_of(mk, 144),
    }
}
