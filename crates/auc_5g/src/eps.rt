//! The key of EPS.

ghost use Rattle.std.specs.Prelude.{◌≡◌, take};
ghost use Rattle.auc_5g.specs.Keys.{asme_of};

use crate::derivation::{asme_key, joined};
use auc_hmac::piece_of;
use auc_vector::Vector;

/// K_ASME of a vector, for the serving network of an SN id (TS 33.401 Annex A.2). The SN id is MCC and MNC in 3 bytes, as
/// that annex lays them out.
pub fn eps_key(v: &Vector, snid: [u8; 3]) -> [u8; 32]
    ensures { result ≡ asme_of v.now.ck v.now.ik snid (take 6 v.now.autn) }
{
    asme_key(&joined(v.ck, v.ik), snid, piece_of(&v.autn, 0))
}
