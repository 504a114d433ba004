//! HXRES* of XRES*, and HRES* of RES*: either half of one digest.

ghost use Rattle.std.specs.Prelude.{◌≡◌, ◌++◌};
ghost use Rattle.sha2.specs.Sha256.{sha256};
ghost use Rattle.auc_5g.specs.Keys.{front_of, standard_of};

use auc_hmac::piece_of;
use sha2::{Digest, Sha256};

/// HXRES* of XRES* as [`home`](crate::home) gives it, and HRES* of RES*: the first half of the digest. A serving network
/// that follows TS 33.501 Annex A.5 takes the other half, [`standard_hxres_star`].
pub fn front_hxres_star(rand: [u8; 16], xres_star: [u8; 16]) -> [u8; 16]
    ensures { result ≡ front_of rand xres_star }
{
    piece_of(&digest(rand, xres_star), 0)
}

/// HXRES* of XRES* and HRES* of RES* of TS 33.501 Annex A.5: the second half of the digest.
pub fn standard_hxres_star(rand: [u8; 16], xres_star: [u8; 16]) -> [u8; 16]
    ensures { result ≡ standard_of rand xres_star }
{
    piece_of(&digest(rand, xres_star), 16)
}

// SHA-256 of RAND and XRES*.
fn digest(rand: [u8; 16], xres_star: [u8; 16]) -> [u8; 32]
    ensures { result ≡ sha256 (rand ++ xres_star) }
{
    let mut hasher = Sha256::new();
    hasher.update(&rand);
    hasher.update(&xres_star);
    hasher.finalize()
}
