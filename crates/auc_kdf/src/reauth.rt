//! The keys of a fast re-authentication.

ghost use Rattle.std.specs.Prelude.{◌≡◌, ◌++◌};
ghost use Rattle.std.specs.Int.{w16, to_be_bytes};
ghost use Rattle.auc_kdf.specs.Prime.{prime_key_pair, prime_reauth_mk};

use crate::prf::{Seed, write_blocks};
use auc_hmac::{Pair, piece_of};

/// The keys of a fast re-authentication, from the identity that the peer sent, the counter, the
/// server's NONCE_S and the K_re of the full authentication (RFC 9048 §3.3).
pub fn prime_reauth_keys(identity: &[u8], counter: u16, nonce: [u8; 16], k_re: [u8; 32]) -> Pair
    ensures { result ≡ prime_key_pair (prime_reauth_mk identity.now counter nonce k_re) }
{
    let seed = Seed {
        label: b"EAP-AKA' re-auth",
        identity,
        freshness: &freshness(counter, nonce),
    };
    let mut blocks = [0; 128];
    write_blocks(&k_re, &seed, &mut blocks);
    Pair {
        msk: piece_of(&blocks, 0),
        emsk: piece_of(&blocks, 64),
    }
}

// The counter in 2 bytes, and then the nonce.
fn freshness(counter: u16, nonce: [u8; 16]) -> [u8; 18]
    ensures { result ≡ to_be_bytes w16 counter ++ nonce }
{
    let mut both = [0; 18];
    both[..2].copy_from_slice(&counter.to_be_bytes());
    both[2..].copy_from_slice(&nonce);
    both
}
