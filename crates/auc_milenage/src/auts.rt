//! AUTS, the USIM's answer to a SEQ that it refuses (TS 33.102 §6.3.3).

ghost use Rattle.std.specs.Prelude.{◌≡◌, ◌++◌};
ghost use Rattle.auc_milenage.specs.Milenage.{auts};

use crate::milenage::{Milenage, first_six, second_half};
use crate::secret::Secret;
use auc_aes::xor;

/// AUTS, 14 bytes: SQN_MS masked by f5*, then MAC-S over SQN_MS, RAND and an AMF of two zero bytes.
#[tactic(auto, unfolding(crate::specs::Milenage::auts, crate::specs::Milenage::f1_star, crate::specs::Milenage::f5_star))]
pub fn make_auts(s: &Secret, rand: [u8; 16], sqn_ms: [u8; 6]) -> [u8; 14]
    ensures { result ≡ auts s.now.k s.now.opc rand sqn_ms }
{
    let m = Milenage::new(s);
    let temp = m.temp(rand);
    let masked = xor(sqn_ms, first_six(m.out5(temp)));
    join(masked, second_half(m.out1(temp, sqn_ms, [0, 0])))
}

/// The two parts of AUTS, one after the other.
fn join(masked: [u8; 6], mac_s: [u8; 8]) -> [u8; 14]
    ensures { result ≡ masked ++ mac_s }
{
    [
        masked[0], masked[1], masked[2], masked[3], masked[4], masked[5], mac_s[0], mac_s[1],
        mac_s[2], mac_s[3], mac_s[4], mac_s[5], mac_s[6], mac_s[7],
    ]
}
