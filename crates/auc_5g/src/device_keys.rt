//! The device.

ghost use Rattle.std.specs.Prelude.{◌≡◌, ◌≤◌, length};
ghost use Rattle.auc_5g.specs.Keys.{device_of};

use crate::derivation::{ausf_key, joined, seaf_key, star};
use auc_aes::xor;

/// What a device makes of its USIM's answer in a 5G authentication (TS 33.501 §6.1.3.2).
#[derive(Clone, Copy, PartialEq, Eq)]
pub struct DeviceKeys {
    /// RES*, the response.
    pub res_star: [u8; 16],
    /// K_AUSF.
    pub k_ausf: [u8; 32],
    /// K_SEAF, the key that the device shares with the serving network.
    pub k_seaf: [u8; 32],
}

/// The values for the serving network of a name (TS 33.501 Annexes A.2, A.4 and A.6), from what the USIM answers: RES, CK, IK,
/// AK, and the SQN that it accepted; and from RAND. The name has 1 to 255 bytes.
#[tactic(auto, unfolding(crate::specs::Keys::ausf_of, crate::specs::Keys::star_of, crate::specs::Keys::seaf_of))]
pub fn device(
    res: [u8; 8],
    ck: [u8; 16],
    ik: [u8; 16],
    ak: [u8; 6],
    sqn: [u8; 6],
    rand: [u8; 16],
    name: &[u8],
) -> DeviceKeys
    requires some { 1 ≤ length name.now }
    requires short { length name.now ≤ 255 }
    ensures { result ≡ device_of res ck ik ak sqn rand name.now }
{
    let key = joined(ck, ik);
    let k_ausf = ausf_key(&key, name, xor(sqn, ak));
    DeviceKeys {
        res_star: star(&key, name, rand, res),
        k_ausf,
        k_seaf: seaf_key(&k_ausf, name),
    }
}
