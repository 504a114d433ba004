//! GSM triplets.

ghost use Rattle.std.specs.Prelude.{◌≡◌};
ghost use Rattle.auc_milenage.specs.Milenage.{f2, f3, f4};
ghost use Rattle.auc_sim.specs.Triplets.{halves, of_vector, triplet_of};

use auc_aes::xor;
use auc_hmac::piece_of;
use auc_milenage::{Four, Secret, f2345};
use auc_sim_packet::Triplet;
use auc_vector::Vector;

/// The triplet of an authentication vector (TS 33.102 §6.8.1.2).
pub fn triplet(v: &Vector) -> Triplet
    ensures { result ≡ of_vector v.now }
{
    converted(v.rand, v.xres, v.ck, v.ik)
}

/// The triplet that a USIM with the secret makes of a RAND (TS 33.102 §6.8.1.2).
pub fn card(s: &Secret, rand: [u8; 16]) -> Triplet
    ensures { result ≡ triplet_of rand (f2 s.now.k s.now.opc rand) (f3 s.now.k s.now.opc rand) (f4 s.now.k s.now.opc rand) }
{
    let Four { res, ck, ik, .. } = f2345(s, rand);
    converted(rand, res, ck, ik)
}

/// SRES from RES, and Kc from CK and IK (conversion functions c2 and c3).
fn converted(rand: [u8; 16], res: [u8; 8], ck: [u8; 16], ik: [u8; 16]) -> Triplet
    ensures { result ≡ triplet_of rand res ck ik }
{
    let first: [u8; 4] = piece_of(&res, 0);
    Triplet {
        rand,
        sres: xor(first, piece_of(&res, 4)),
        kc: xor(halves(ck), halves(ik)),
    }
}

/// The exclusive or of the halves of 16 bytes.
fn halves(key: [u8; 16]) -> [u8; 8]
    ensures { result ≡ halves key }
{
    let first: [u8; 8] = piece_of(&key, 0);
    xor(first, piece_of(&key, 8))
}
