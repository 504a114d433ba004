//! Milenage for many RANDs of one secret: blocks are encrypted together, and a block is one vector of 16 lanes between
//! the encryptions.

ghost use Rattle.std.specs.Prelude.{◌≡◌, ℕ, List, [], ◌∷◌, map, slice_index_or};
ghost use Rattle.std.specs.Int.{w128, to_be_bytes};
ghost use Rattle.auc_aes.specs.Bytes.{xor as xored, rot as rotated};
ghost use Rattle.auc_aes.specs.Cipher.{aes};
ghost use Rattle.auc_milenage.specs.Lanes.{GiveOuts, input as input_by, input1};
ghost use Rattle.auc_milenage.specs.Milenage.{temp_of, in1_of, r2, r3, r4, c2, c3, c4};

use crate::secret::Secret;
use auc_aes::{Key, Lanes};
use std::marker::Model;
use std::simd::prelude::*;

/// Milenage under one secret, for many RANDs. Contracts see the secret.
#[derive(Drop)]
pub struct MilenageLanes {
    lanes: Lanes,
    opc: [u8; 16],
}

impl Model for MilenageLanes {
    ghost use Rattle.auc_milenage.specs.declared.secret.Secret.{Secret};

    ghost Value = { Secret };

    ghost view = { λ m. record { k = m.lanes; opc = m.opc } };
}

impl MilenageLanes {
    /// Milenage under a secret.
    pub fn new(s: &Secret) -> MilenageLanes
        ensures { result ≡ s.now }
    {
        MilenageLanes {
            lanes: Lanes::new(Key::new(s.k)),
            opc: s.opc,
        }
    }

    /// Replaces each RAND by its TEMP.
    pub fn temps(&self, rands: &mut [[u8; 16]])
        ensures { rands.new ≡ map (temp_of self.now.k self.now.opc) rands.old }
    {
        mask(rands, self.opc);
        self.lanes.encrypt_many(rands);
    }

    /// The four blocks whose ciphers are OUT1 to OUT4 once OPc is added, from TEMP and IN1.
    pub fn inputs(&self, temp: [u8; 16], in1: [u8; 16]) -> [[u8; 16]; 4]
        ensures { (rand sqn amf : List ℕ) → temp ≡ temp_of self.now.k self.now.opc rand
            → in1 ≡ in1_of sqn amf
            → GiveOuts self.now rand sqn amf (aes self.now.k (slice_index_or result 0 []))
            (aes self.now.k (slice_index_or result 1 []))
            (aes self.now.k (slice_index_or result 2 []))
            (aes self.now.k (slice_index_or result 3 [])) }
    {
        inputs(self.opc, temp, in1)
    }

    /// Replaces each block by its cipher.
    pub fn encrypt(&self, blocks: &mut [[u8; 16]])
        ensures { blocks.new ≡ map (aes self.now.k) blocks.old }
    {
        self.lanes.encrypt_many(blocks);
    }

    /// A cipher with OPc added: a value of OUT1 to OUT4.
    pub fn out(&self, cipher: [u8; 16]) -> [u8; 16]
        ensures { result ≡ xored cipher self.now.opc }
    {
        add(cipher, self.opc)
    }
}

/// The exclusive or of two blocks, as vectors.
#[inline(always)]
fn sum(a: u8x16, b: u8x16) -> u8x16
    ensures { result ≡ xored a b }
{
    a ^ b
}

/// The exclusive or of two blocks.
#[inline(always)]
fn add(a: [u8; 16], b: [u8; 16]) -> [u8; 16]
    ensures { result ≡ xored a b }
{
    sum(u8x16::from_array(a), u8x16::from_array(b)).to_array()
}

/// Adds OPc to each block.
fn mask(blocks: &mut [[u8; 16]], opc: [u8; 16])
    ensures { blocks.new ≡ map (λ block. xored block opc) blocks.old }
{
    let mut at = 0;
    while at < blocks.len() {
        blocks[at] = add(blocks[at], opc);
        at += 1;
    }
}

/// A block rotated left by no bit.
#[inline(always)]
fn turned_none(block: u8x16) -> u8x16
    ensures { result ≡ rotated block 0 }
{
    block
}

/// A block rotated left by 32 bits.
#[inline(always)]
fn turned_word(block: u8x16) -> u8x16
    ensures { result ≡ rotated block 32 }
{
    block.swizzle([4, 5, 6, 7, 8, 9, 10, 11, 12, 13, 14, 15, 0, 1, 2, 3])
}

/// A block rotated left by 64 bits.
#[inline(always)]
fn turned_half(block: u8x16) -> u8x16
    ensures { result ≡ rotated block 64 }
{
    block.swizzle([8, 9, 10, 11, 12, 13, 14, 15, 0, 1, 2, 3, 4, 5, 6, 7])
}

/// A block with one of the constants c1 to c4 added.
#[inline(always)]
fn input(block: u8x16, c: u128) -> [u8; 16]
    ensures { result ≡ xored block (to_be_bytes w128 c) }
{
    sum(block, u8x16::from_array(c.to_be_bytes())).to_array()
}

/// The four blocks that are encrypted for OUT1 to OUT4.
#[inline(always)]
fn inputs(opc: [u8; 16], temp: [u8; 16], in1: [u8; 16]) -> [[u8; 16]; 4]
    ensures { result ≡ input1 opc temp in1 ∷ input_by r2 c2 opc temp ∷ input_by r3 c3 opc temp
        ∷ input_by r4 c4 opc temp ∷ [] }
{
    let opc = u8x16::from_array(opc);
    let temp = u8x16::from_array(temp);
    let mixed = sum(temp, opc);
    let first = sum(temp, turned_half(sum(u8x16::from_array(in1), opc)));
    [
        input(first, 0),
        input(turned_none(mixed), 1),
        input(turned_word(mixed), 2),
        input(turned_half(mixed), 4),
    ]
}
