//! The RANDs and the SRES values of two or three triplets, one after another.

ghost use Rattle.std.specs.Prelude.{◌≡◌, ◌≤◌, ◌*◌, length, flat_map, take};
ghost use Rattle.auc_sim_packet.specs.Keys.{rand_in, sres_in};

use crate::parts::Triplet;

/// The RANDs of two or three triplets: 16 bytes of each, and then bytes that don't count.
pub(crate) fn all_rands(triplets: &[Triplet]) -> [u8; 48]
    requires { length triplets.now ≤ 3 }
    ensures rands { take (16 * length triplets.now) result ≡ flat_map rand_in triplets.now }
    ensures size { length (flat_map rand_in triplets.now) ≡ 16 * length triplets.now }
{
    let mut out = [0; 48];
    for i in 0..triplets.len() {
        out[16 * i..16 * i + 16].copy_from_slice(&triplets[i].rand);
    }
    out
}

/// The SRES values of two or three triplets: 4 bytes of each, and then bytes that don't count. A Challenge response
/// authenticates them besides (RFC 4186 §9.4).
pub fn all_sres(triplets: &[Triplet]) -> [u8; 12]
    requires { length triplets.now ≤ 3 }
    ensures { take (4 * length triplets.now) result ≡ flat_map sres_in triplets.now }
{
    let mut out = [0; 12];
    for i in 0..triplets.len() {
        out[4 * i..4 * i + 4].copy_from_slice(&triplets[i].sres);
    }
    out
}
