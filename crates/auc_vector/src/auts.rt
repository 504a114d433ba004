//! AUTS, as the home network reads it.

ghost use Rattle.std.specs.Prelude.{◌≡◌, ◌≤◌, take, drop};
ghost use Rattle.auc_sqn.specs.Number.{most_bits};
ghost use Rattle.auc_vector.specs.Auts.{read_auts_of, seq_said, mac_s_in, IsNumber};

use auc_aes::xor;
use auc_milenage::{Secret, f1_star, f5_star};
use auc_sqn::{split, top};

/// What AUTS says, which a USIM answers if the SQN is out of range (TS 33.102 §6.3.3).
#[derive(Clone, Copy, PartialEq, Eq)]
pub enum Auts {
    /// MAC-S is right: the SEQ of SQN_MS, at most the subscriber's greatest number.
    SeqMs(u64),
    /// MAC-S isn't f1* of SQN_MS, or the SEQ of SQN_MS is above the subscriber's greatest number.
    WrongMac,
}

/// Reads AUTS, which a USIM answered to a RAND: SQN_MS masked by f5*, 6 bytes, and MAC-S, 8 bytes. MAC-S is f1* over
/// SQN_MS, RAND and an AMF of two zero bytes, and is always checked (TS 33.102 §6.3.3 and §6.3.5). An index has `bits` bits;
/// a SEQ above the greatest number of such a subscriber is read as a wrong MAC-S.
pub fn read_auts(s: &Secret, rand: [u8; 16], auts: [u8; 14], bits: u8) -> Auts
    requires { bits ≤ most_bits }
    ensures value { result ≡ read_auts_of s.now rand auts bits }
    ensures bound { IsNumber bits result }
{
    let (masked, mac_s) = parts(auts);
    let sqn_ms = xor(masked, f5_star(s, rand));
    if f1_star(s, rand, sqn_ms, [0, 0]) == mac_s {
        said(sqn_ms, bits)
    } else {
        Auts::WrongMac
    }
}

/// What AUTS with a right MAC-S says by its SQN_MS.
fn said(sqn_ms: [u8; 6], bits: u8) -> Auts
    requires { bits ≤ most_bits }
    ensures value { result ≡ seq_said bits sqn_ms }
    ensures bound { IsNumber bits result }
{
    let (seq, _) = split(sqn_ms, bits);
    if seq <= top(bits) {
        Auts::SeqMs(seq)
    } else {
        Auts::WrongMac
    }
}

/// SQN_MS masked by f5*, and MAC-S.
fn parts(auts: [u8; 14]) -> ([u8; 6], [u8; 8])
    ensures masked { result.0 ≡ take 6 auts }
    ensures mac_s { result.1 ≡ mac_s_in auts }
{
    let mut masked = [0; 6];
    let mut mac_s = [0; 8];
    masked.copy_from_slice(&auts[..6]);
    mac_s.copy_from_slice(&auts[6..]);
    (masked, mac_s)
}
