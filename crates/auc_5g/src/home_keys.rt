//! The home network.

ghost use Rattle.std.specs.Prelude.{◌≡◌, ◌≤◌, length};
ghost use Rattle.auc_5g.specs.Keys.{home_of};

use crate::derivation::{ausf_key, joined, seaf_key, star};
use crate::halves::front_hxres_star;
use auc_hmac::piece_of;
use auc_vector::Vector;

/// What a home network gives for a 5G authentication, and keeps for it (TS 33.501 §6.1.3.2).
#[derive(Clone, Copy, PartialEq, Eq)]
pub struct HomeKeys {
    /// RAND, the challenge.
    pub rand: [u8; 16],
    /// AUTN of the vector.
    pub autn: [u8; 16],
    /// XRES*, the response that the home network expects.
    pub xres_star: [u8; 16],
    /// HXRES*, by which the serving network tests a response: the first half of its digest.
    pub hxres_star: [u8; 16],
    /// K_AUSF, which the home network keeps.
    pub k_ausf: [u8; 32],
    /// K_SEAF, which the home network hands to the serving network.
    pub k_seaf: [u8; 32],
}

/// The values of a vector, for the serving network of a name (TS 33.501 Annexes A.2, A.4 and A.6). The name has 1 to 255
/// bytes; those of the standard begin with `5G:` (TS 33.501 §6.1.1.4).
#[tactic(auto, unfolding(crate::specs::Keys::ausf_of, crate::specs::Keys::star_of, crate::specs::Keys::seaf_of))]
pub fn home(v: &Vector, name: &[u8]) -> HomeKeys
    requires some { 1 ≤ length name.now }
    requires short { length name.now ≤ 255 }
    ensures { result ≡ home_of v.now name.now }
{
    let key = joined(v.ck, v.ik);
    let k_ausf = ausf_key(&key, name, piece_of(&v.autn, 0));
    let xres_star = star(&key, name, v.rand, v.xres);
    HomeKeys {
        rand: v.rand,
        autn: v.autn,
        xres_star,
        hxres_star: front_hxres_star(v.rand, xres_star),
        k_ausf,
        k_seaf: seaf_key(&k_ausf, name),
    }
}
