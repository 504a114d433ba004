//! Milenage under one secret: the blocks of TS 35.206 §4.1, and their parts.

ghost use Rattle.std.specs.Prelude.{◌≡◌, take, drop};
ghost use Rattle.std.specs.Int.{w128, to_be_bytes};
ghost use Rattle.auc_milenage.specs.Milenage.{temp_of, in1_of, out1 as out1_by, out as out_by, r1, r2, r3, r4, r5, c1, c2, c3, c4, c5};

use crate::secret::Secret;
use auc_aes::{Key, rot, xor};
use std::marker::Model;
use std::simd::prelude::*;

/// The first six bytes of a block.
pub(crate) fn first_six(block: [u8; 16]) -> [u8; 6]
    ensures { result ≡ take 6 block }
{
    let mut part = [0; 6];
    part.copy_from_slice(&block[..6]);
    part
}

/// The first half of a block.
pub(crate) fn first_half(block: [u8; 16]) -> [u8; 8]
    ensures { result ≡ take 8 block }
{
    let mut half = [0; 8];
    half.copy_from_slice(&block[..8]);
    half
}

/// The second half of a block.
pub(crate) fn second_half(block: [u8; 16]) -> [u8; 8]
    ensures { result ≡ drop 8 block }
{
    let mut half = [0; 8];
    half.copy_from_slice(&block[8..]);
    half
}

/// IN1: SQN and AMF, twice.
#[inline(always)]
pub fn in1(sqn: [u8; 6], amf: [u8; 2]) -> [u8; 16]
    ensures { result ≡ in1_of sqn amf }
{
    let half = u8x8::from_array([
        sqn[0], sqn[1], sqn[2], sqn[3], sqn[4], sqn[5], amf[0], amf[1],
    ]);
    half.swizzle([0, 1, 2, 3, 4, 5, 6, 7, 0, 1, 2, 3, 4, 5, 6, 7])
        .to_array()
}

/// Milenage under one secret, with the key schedule of K. Contracts see the secret.
#[derive(Drop)]
pub struct Milenage {
    key: Key,
    opc: [u8; 16],
}

impl Model for Milenage {
    ghost use Rattle.auc_milenage.specs.declared.secret.Secret.{Secret};

    ghost Value = { Secret };

    ghost view = { λ m. record { k = m.key; opc = m.opc } };
}

impl Milenage {
    /// Milenage under a secret.
    pub fn new(s: &Secret) -> Milenage
        ensures { result ≡ s.now }
    {
        Milenage {
            key: Key::new(s.k),
            opc: s.opc,
        }
    }

    /// TEMP = E(RAND xor OPc).
    #[tactic(auto, unfolding(crate::specs::Milenage::temp_of))]
    pub(crate) fn temp(&self, rand: [u8; 16]) -> [u8; 16]
        ensures { result ≡ temp_of self.now.k self.now.opc rand }
    {
        self.key.encrypt(xor(rand, self.opc))
    }

    /// OUT1 = E(TEMP xor rot(IN1 xor OPc, r1) xor c1) xor OPc.
    #[tactic(auto, unfolding(crate::specs::Milenage::out1))]
    pub(crate) fn out1(&self, temp: [u8; 16], sqn: [u8; 6], amf: [u8; 2]) -> [u8; 16]
        ensures { result ≡ out1_by self.now.k self.now.opc temp sqn amf }
    {
        let turned = rot(xor(in1(sqn, amf), self.opc), 64);
        let input = xor(xor(temp, turned), 0_u128.to_be_bytes());
        xor(self.key.encrypt(input), self.opc)
    }

    /// E(rot(TEMP xor OPc, r) xor c) xor OPc.
    #[tactic(auto, unfolding(crate::specs::Milenage::out))]
    fn out(&self, r: u32, c: u128, temp: [u8; 16]) -> [u8; 16]
        ensures { result ≡ out_by r c self.now.k self.now.opc temp }
    {
        let turned = rot(xor(temp, self.opc), r);
        xor(self.key.encrypt(xor(turned, c.to_be_bytes())), self.opc)
    }

    pub(crate) fn out2(&self, temp: [u8; 16]) -> [u8; 16]
        ensures { result ≡ out_by r2 c2 self.now.k self.now.opc temp }
    {
        self.out(0, 1, temp)
    }

    pub(crate) fn out3(&self, temp: [u8; 16]) -> [u8; 16]
        ensures { result ≡ out_by r3 c3 self.now.k self.now.opc temp }
    {
        self.out(32, 2, temp)
    }

    pub(crate) fn out4(&self, temp: [u8; 16]) -> [u8; 16]
        ensures { result ≡ out_by r4 c4 self.now.k self.now.opc temp }
    {
        self.out(64, 4, temp)
    }

    pub(crate) fn out5(&self, temp: [u8; 16]) -> [u8; 16]
        ensures { result ≡ out_by r5 c5 self.now.k self.now.opc temp }
    {
        self.out(96, 8, temp)
    }
}
