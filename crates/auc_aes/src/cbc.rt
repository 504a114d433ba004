//! The steps of CBC on a group of blocks (NIST SP 800-38A §6.2).

ghost use Rattle.std.specs.Prelude.{◌≡◌, ◌+◌, ◌*◌, ◌<◌, ◌≤◌, ℕ, List, [], length, slice_index_or};
ghost use Rattle.auc_aes.specs.Bytes.{block_from};
ghost use Rattle.auc_aes.specs.Cipher.{aes_inverse};
ghost use Rattle.auc_aes.specs.Inner.{decrypted_from};

use crate::block::{block_at, put_block, xor};

/// Reads blocks of `bytes`, the first at `at`.
pub(crate) fn read_blocks(bytes: &[u8], at: usize, blocks: &mut [[u8; 16]])
    requires { at + 16 * length blocks.old ≤ length bytes.now }
    ensures { (i : ℕ) → i < length blocks.new
        → slice_index_or blocks.new i [] ≡ block_from bytes.now (at + 16 * i) }
{
    for i in 0..blocks.len() {
        blocks[i] = block_at(bytes, at + 16 * i);
    }
}

/// Writes the plaintext of a group of blocks over their ciphertext, which begins at `at`: each inverse cipher added to the
/// ciphertext block before it, and the first to `last`. It answers the last ciphertext block.
pub(crate) fn chain(bytes: &mut [u8], at: usize, last: [u8; 16], inverses: &[[u8; 16]]) -> [u8; 16]
    requires { at + 16 * length inverses.now ≤ length bytes.old }
    ensures { (key : List ℕ) → ((i : ℕ) → i < length inverses.now
        → slice_index_or inverses.now i [] ≡ aes_inverse key (block_from bytes.old (at + 16 * i)))
        → decrypted_from key result bytes.new (at + 16 * length inverses.now)
        ≡ decrypted_from key last bytes.old at }
{
    let mut before = last;
    for i in 0..inverses.len() {
        let block = block_at(bytes, at + 16 * i);
        put_block(bytes, at + 16 * i, xor(inverses[i], before));
        before = block;
    }
    before
}
