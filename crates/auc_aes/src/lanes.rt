//! Many blocks under one key, by lanes.
//!
//! ```text
//! bytes -> coordinates, and round key 0
//!   nine times: the S-box once and twice, MIXCOLUMNS of both, SHIFTROWS, the round key
//!   the S-box as bytes, SHIFTROWS, round key 10 -> bytes
//! ```
//!
//! SHIFTROWS comes last in a round, so the steps of MIXCOLUMNS before it take the bytes of a column from where they are
//! before they are shifted.

ghost use Rattle.std.specs.Prelude.{◌≡◌, ◌≤◌, ℕ, List, [], ◌∷◌, ◌++◌, map, length};
ghost use Rattle.auc_aes.specs.Bytes.{xor, IsBlock};
ghost use Rattle.auc_aes.specs.Cipher.{aes};
ghost use Rattle.auc_aes.specs.Lanes.{IsDone, IsLaneKeys, lane_round, last_lane_round, substituted, doubled, substituted_byte, coordinates};

use crate::coordinates::{substitute, substitute_last, to_coordinates};
use crate::key::Key;
use crate::pairs::{first_half, join, next_row, opposite_row, second_half, shift_rows};
use std::marker::Model;
use std::simd::prelude::*;

/// A key of 128 bits with its key schedule also as lanes, for many calls with many blocks. Contracts see the key's 16
/// bytes.
#[derive(Drop)]
pub struct Lanes {
    key: Key,
    round_keys: [[u8; 16]; 11],
}

impl Model for Lanes {
    ghost use Rattle.std.specs.Prelude.{ℕ, List};
    ghost use Rattle.auc_aes.specs.Bytes.{IsBlock};
    ghost use Rattle.auc_aes.specs.Lanes.{IsLaneKeys};

    ghost Value = { List ℕ };

    ghost view = { λ l. l.key };

    ghost invariant = { λ l. IsBlock l.key × IsLaneKeys l.key l.round_keys };
}

impl Lanes {
    /// The key, with its key schedule as lanes.
    pub fn new(key: Key) -> Lanes
        ensures { result ≡ key }
    {
        let round_keys = key.lane_keys();
        Lanes { key, round_keys }
    }

    /// Replaces each block by its cipher (FIPS 197 §5.1).
    pub fn encrypt_many(&self, blocks: &mut [[u8; 16]])
        ensures { blocks.new ≡ map (aes self.now) blocks.old }
    {
        let done = encrypt_groups(&self.round_keys, blocks);
        self.key.encrypt_from(done, blocks);
    }
}

/// The state of two blocks before the first full round: round key 0 is added (§5.1).
#[inline(always)]
fn opened(v: u8x32, key: u8x32) -> u8x32
    ensures { (a b k : List ℕ) → IsBlock k → length a ≡ 16 → length b ≡ 16 → v ≡ a ++ b
        → key ≡ map coordinates k ++ map coordinates k
        → result ≡ map coordinates (xor a k) ++ map coordinates (xor b k) }
{
    to_coordinates(v) ^ key
}

/// One round of two blocks with a round key (§5.1). The third multiple of a byte is its double and itself.
#[inline(always)]
fn full_round(state: u8x32, key: u8x32) -> u8x32
    ensures { (a b k : List ℕ) → length a ≡ 16 → length b ≡ 16 → length k ≡ 16 → state ≡ a ++ b
        → key ≡ k ++ k
        → result ≡ lane_round substituted doubled a k ++ lane_round substituted doubled b k }
{
    let (one, two) = substitute(state);
    let sum = two ^ opposite_row(one);
    shift_rows(sum ^ next_row(sum ^ one)) ^ key
}

/// The last round of two blocks, which doesn't mix the columns (§5.1).
#[inline(always)]
fn final_round(state: u8x32, key: u8x32) -> u8x32
    ensures { (a b k : List ℕ) → length a ≡ 16 → length b ≡ 16 → length k ≡ 16 → state ≡ a ++ b
        → key ≡ k ++ k
        → result ≡ last_lane_round substituted_byte a k ++ last_lane_round substituted_byte b k }
{
    shift_rows(substitute_last(state)) ^ key
}

/// The cipher of two blocks in each of two vectors, which a processor works on side by side (§5.1).
#[inline(always)]
fn encrypt_pairs(keys: &[[u8; 16]; 11], first: u8x32, second: u8x32) -> (u8x32, u8x32)
    ensures first { (key a b : List ℕ) → IsBlock key → IsLaneKeys key keys.now
        → length a ≡ 16 → length b ≡ 16 → first ≡ a ++ b → result.0 ≡ aes key a ++ aes key b }
    ensures second { (key a b : List ℕ) → IsBlock key → IsLaneKeys key keys.now
        → length a ≡ 16 → length b ≡ 16 → second ≡ a ++ b → result.1 ≡ aes key a ++ aes key b }
{
    let key = join(keys[0], keys[0]);
    let mut one = opened(first, key);
    let mut two = opened(second, key);
    for round in 1..10 {
        let key = join(keys[round], keys[round]);
        one = full_round(one, key);
        two = full_round(two, key);
    }
    let key = join(keys[10], keys[10]);
    (final_round(one, key), final_round(two, key))
}

/// The cipher of four blocks.
fn encrypt_four(
    keys: &[[u8; 16]; 11],
    a: [u8; 16],
    b: [u8; 16],
    c: [u8; 16],
    d: [u8; 16],
) -> [[u8; 16]; 4]
    ensures { (key : List ℕ) → IsBlock key → IsLaneKeys key keys.now
        → result ≡ aes key a ∷ aes key b ∷ aes key c ∷ aes key d ∷ [] }
{
    let (first, second) = encrypt_pairs(keys, join(a, b), join(c, d));
    [
        first_half(first),
        second_half(first),
        first_half(second),
        second_half(second),
    ]
}

/// Replaces the blocks of whole groups of four by their cipher, and says how many blocks these are.
pub(crate) fn encrypt_groups(keys: &[[u8; 16]; 11], blocks: &mut [[u8; 16]]) -> usize
    ensures within { result ≤ length blocks.new }
    ensures done { (key : List ℕ) → IsBlock key → IsLaneKeys key keys.now
        → IsDone (aes key) blocks.old blocks.new result }
{
    let mut at = 0;
    while blocks.len() - at >= 4 {
        let made = encrypt_four(
            keys,
            blocks[at],
            blocks[at + 1],
            blocks[at + 2],
            blocks[at + 3],
        );
        blocks[at] = made[0];
        blocks[at + 1] = made[1];
        blocks[at + 2] = made[2];
        blocks[at + 3] = made[3];
        at += 4;
    }
    at
}
