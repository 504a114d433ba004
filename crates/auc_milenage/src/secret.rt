//! The secret that a USIM and the authentication centre share, and the values derived from it.

ghost use Rattle.std.specs.Prelude.{◌≡◌};
ghost use Rattle.auc_milenage.specs.Milenage.{opc_of as opc_by};

use auc_aes::{Key, xor};

/// K and OPc of a subscriber.
#[derive(Clone, Copy, PartialEq, Eq)]
pub struct Secret {
    /// The subscriber key.
    pub k: [u8; 16],
    /// OPc, which is derived from OP, the operator's variant, and K.
    pub opc: [u8; 16],
}

/// RES, CK, IK and AK: the values of f2, f3, f4 and f5.
#[derive(Clone, Copy, PartialEq, Eq)]
pub struct Four {
    /// The response to a challenge.
    pub res: [u8; 8],
    /// The cipher key.
    pub ck: [u8; 16],
    /// The integrity key.
    pub ik: [u8; 16],
    /// The anonymity key, which masks SQN.
    pub ak: [u8; 6],
}

/// OUT1 to OUT5 (TS 35.206 §4.1), of which f1 to f5* are parts.
#[derive(Clone, Copy, PartialEq, Eq)]
pub struct Outs {
    /// MAC-A, then MAC-S: f1 and f1*.
    pub out1: [u8; 16],
    /// AK, two bytes that aren't used, then RES: f5 and f2.
    pub out2: [u8; 16],
    /// CK: f3.
    pub out3: [u8; 16],
    /// IK: f4.
    pub out4: [u8; 16],
    /// The AK of a resynchronisation, then bytes that aren't used: f5*.
    pub out5: [u8; 16],
}

/// OPc, from the subscriber key and the operator's OP (TS 35.206 §4.1).
#[tactic(auto, unfolding(crate::specs::Milenage::opc_of))]
pub fn opc_of(k: [u8; 16], op: [u8; 16]) -> [u8; 16]
    ensures { result ≡ opc_by k op }
{
    xor(op, Key::new(k).encrypt(op))
}
