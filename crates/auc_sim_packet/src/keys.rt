//! The keys of a full authentication.

ghost use Rattle.std.specs.Prelude.{◌≡◌};
ghost use Rattle.auc_sim_packet.specs.Keys.{sim_key_set};

use crate::parts::Triplet;
use auc_hmac::KeySet;
use auc_prf::keys_of_mk;
use sha1::Sha1;

/// The keys of a full authentication, from the identity, the triplets, NONCE_MT, and the versions that the server listed,
/// two bytes each, of which the peer selected 1 (RFC 4186 §7). K_aut is followed by 16 zero bytes, and K_re is zero.
#[tactic(auto, unfolding(crate::specs::Keys::sim_key_set))]
pub fn sim_keys(identity: &[u8], triplets: &[Triplet], nonce: [u8; 16], versions: &[u8]) -> KeySet
    ensures { result ≡ sim_key_set identity.now triplets.now nonce versions.now }
{
    let mut hasher = Sha1::new();
    hasher.update(identity);
    for t in triplets {
        hasher.update(&t.kc);
    }
    hasher.update(&nonce);
    hasher.update(versions);
    hasher.update(&[0, 1]);
    keys_of_mk(hasher.finalize())
}
