//! A key of AES-128.

ghost use Rattle.std.specs.Prelude.{◌≡◌, ◌≤◌, ◌%◌, ℕ, List, length, map};
ghost use Rattle.auc_aes.specs.Bytes.{IsBlock};
ghost use Rattle.auc_aes.specs.Cipher.{aes, aes_inverse};
ghost use Rattle.auc_aes.specs.Lanes.{IsDone, IsLaneKeys};
ghost use Rattle.auc_aes.specs.Cbc.{cbc_encrypted, cbc_decrypted};

use crate::block::{block_at, put_block, xor};
use crate::cbc::{chain, read_blocks};
use crate::inverse_round::{undo_final_round, undo_full_round};
use crate::lane_keys::lane_keys;
use crate::lanes::encrypt_groups;
use crate::round::{double, final_round, full_round, next_key};
use crate::words::{add, block_of, words_of};
use std::marker::Model;

/// From how many blocks on it pays to make the round keys as lanes for one call.
const LEAST_FOR_LANES: usize = 8;

/// How many blocks of a longer string are decrypted together.
const GROUP: usize = 16;

/// A key of 128 bits, with its key schedule. Contracts see its 16 bytes.
#[derive(Drop)]
pub struct Key {
    round_keys: [[u32; 4]; 11],
}

impl Model for Key {
    ghost use Rattle.std.specs.Prelude.{◌≡◌, ℕ, ◌<◌, List, [], slice_index_or};
    ghost use Rattle.auc_aes.specs.Inner.{block_of_words};
    ghost use Rattle.auc_aes.specs.Cipher.{round_key};

    ghost Value = { List ℕ };

    ghost view = { λ k. block_of_words (slice_index_or k.round_keys 0 []) };

    ghost invariant = { λ k. (i : ℕ) → i < 11 → block_of_words (slice_index_or k.round_keys i [])
        ≡ round_key (block_of_words (slice_index_or k.round_keys 0 [])) i };
}

impl Key {
    /// The key of 16 bytes, expanded into its round keys (FIPS 197 §5.2).
    pub fn new(k: [u8; 16]) -> Key
        ensures { result ≡ k }
    {
        let mut round_keys = [words_of(k); 11];
        let mut constant = 1;
        for i in 1..11 {
            round_keys[i] = next_key(round_keys[i - 1], constant);
            constant = double(constant);
        }
        Key { round_keys }
    }

    /// The cipher of a block (FIPS 197 §5.1).
    pub fn encrypt(&self, b: [u8; 16]) -> [u8; 16]
        ensures { result ≡ aes self.now b }
    {
        // Written out, because LLVM compiles a loop over the nine full rounds to slower code.
        let keys = &self.round_keys;
        let state = add(words_of(b), keys[0]);
        let state = full_round(state, keys[1]);
        let state = full_round(state, keys[2]);
        let state = full_round(state, keys[3]);
        let state = full_round(state, keys[4]);
        let state = full_round(state, keys[5]);
        let state = full_round(state, keys[6]);
        let state = full_round(state, keys[7]);
        let state = full_round(state, keys[8]);
        let state = full_round(state, keys[9]);
        block_of(final_round(state, keys[10]))
    }

    /// The inverse cipher of a block (FIPS 197 §5.3).
    pub fn decrypt(&self, b: [u8; 16]) -> [u8; 16]
        ensures { result ≡ aes_inverse self.now b }
    {
        let mut state = undo_final_round(b, block_of(self.round_keys[10]));
        for round in 0..9 {
            let previous = undo_full_round(state, block_of(self.round_keys[9 - round]));
            state = previous;
        }
        xor(state, block_of(self.round_keys[0]))
    }

    /// Replaces each block by its cipher (FIPS 197 §5.1). For many calls, [`Lanes`](crate::Lanes) keeps what each call
    /// makes here.
    pub fn encrypt_many(&self, blocks: &mut [[u8; 16]])
        ensures { blocks.new ≡ map (aes self.now) blocks.old }
    {
        if blocks.len() < LEAST_FOR_LANES {
            self.encrypt_from(0, blocks);
        } else {
            let done = encrypt_groups(&self.lane_keys(), blocks);
            self.encrypt_from(done, blocks);
        }
    }

    /// The round keys as lanes.
    pub(crate) fn lane_keys(&self) -> [[u8; 16]; 11]
        ensures block { IsBlock self.now }
        ensures keys { IsLaneKeys self.now result }
    {
        lane_keys(&self.round_keys)
    }

    /// Replaces each block from the place `from` on by its cipher, if those before it were replaced.
    pub(crate) fn encrypt_from(&self, from: usize, blocks: &mut [[u8; 16]])
        requires { from ≤ length blocks.old }
        ensures { (first : List (List ℕ)) → IsDone (aes self.now) first blocks.old from
            → blocks.new ≡ map (aes self.now) first }
    {
        let mut at = from;
        while at < blocks.len() {
            blocks[at] = self.encrypt(blocks[at]);
            at += 1;
        }
    }

    /// Replaces each block by its inverse cipher (FIPS 197 §5.3).
    pub fn decrypt_many(&self, blocks: &mut [[u8; 16]])
        ensures { blocks.new ≡ map (aes_inverse self.now) blocks.old }
    {
        let mut at = 0;
        while at < blocks.len() {
            blocks[at] = self.decrypt(blocks[at]);
            at += 1;
        }
    }

    /// Encrypts `bytes`, whole blocks, in place by CBC with the initialization vector `iv`
    /// (NIST SP 800-38A §6.2).
    pub fn cbc_encrypt(&self, iv: [u8; 16], bytes: &mut [u8])
        requires { length bytes.old % 16 ≡ 0 }
        ensures { bytes.new ≡ cbc_encrypted self.now iv bytes.old }
    {
        let mut last = iv;
        let mut at = 0;
        while at < bytes.len() {
            last = self.encrypt(xor(block_at(bytes, at), last));
            put_block(bytes, at, last);
            at += 16;
        }
    }

    /// Decrypts `bytes`, whole blocks, in place by CBC with the initialization vector `iv`
    /// (NIST SP 800-38A §6.2).
    pub fn cbc_decrypt(&self, iv: [u8; 16], bytes: &mut [u8])
        requires { length bytes.old % 16 ≡ 0 }
        ensures { bytes.new ≡ cbc_decrypted self.now iv bytes.old }
    {
        let mut last = iv;
        let mut at = 0;
        while at < bytes.len() {
            let count = ((bytes.len() - at) / 16).min(GROUP);
            let mut group = [[0; 16]; GROUP];
            let blocks = &mut group[..count];
            read_blocks(bytes, at, blocks);
            self.decrypt_many(blocks);
            let previous = chain(bytes, at, last, blocks);
            last = previous;
            at += 16 * count;
        }
    }
}
