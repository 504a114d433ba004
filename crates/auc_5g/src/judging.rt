//! What the networks make of RES*.

ghost use Rattle.std.specs.Prelude.{◌≡◌, ◌≢◌};
ghost use Rattle.auc_5g.specs.Keys.{front_of};

use crate::halves::front_hxres_star;
use crate::home_keys::HomeKeys;

/// What the serving network and the home network make of RES* (TS 33.501 §6.1.3.2).
#[derive(Clone, Copy, PartialEq, Eq)]
pub enum Judged {
    /// Its HRES* isn't HXRES*.
    ServingRefused,
    /// Its HRES* is HXRES*, but it isn't XRES*.
    HomeRefused,
    /// Its HRES* is HXRES*, and it is XRES*.
    Confirmed,
}

/// Compares HRES* with HXRES*, as the serving network does, and then RES* with XRES*, as the home network does.
pub fn judge(h: &HomeKeys, res_star: [u8; 16]) -> Judged
    ensures serving { front_of h.now.rand res_star ≢ h.now.hxres_star → result ≡ Judged.ServingRefused }
    ensures home { front_of h.now.rand res_star ≡ h.now.hxres_star → res_star ≢ h.now.xres_star
        → result ≡ Judged.HomeRefused }
    ensures confirmed { front_of h.now.rand res_star ≡ h.now.hxres_star → res_star ≡ h.now.xres_star
        → result ≡ Judged.Confirmed }
{
    if front_hxres_star(h.rand, res_star) != h.hxres_star {
        return Judged::ServingRefused;
    }
    if res_star != h.xres_star {
        return Judged::HomeRefused;
    }
    Judged::Confirmed
}
