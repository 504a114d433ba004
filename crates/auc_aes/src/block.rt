//! Blocks of 16 bytes.

ghost use Rattle.std.specs.Prelude.{◌≡◌, ◌+◌, ◌≤◌, length};
ghost use Rattle.auc_aes.specs.Bytes.{xor as xored, rot as rotated, block_from, with_block};

/// The exclusive or of two strings of `N` bytes.
pub fn xor<const N: usize>(mut string: [u8; N], other: [u8; N]) -> [u8; N]
    ensures { result ≡ xored string.entry other.entry }
{
    for i in 0..N {
        string[i] ^= other[i];
    }
    string
}

/// A block rotated left by `bits` bits.
#[tactic(auto, unfolding(crate::specs::Bytes::rot))]
pub fn rot(block: [u8; 16], bits: u32) -> [u8; 16]
    ensures { result ≡ rotated block bits }
{
    u128::from_be_bytes(block).rotate_left(bits).to_be_bytes()
}

/// The block of `bytes` that begins at `at`.
pub fn block_at(bytes: &[u8], at: usize) -> [u8; 16]
    requires { at + 16 ≤ length bytes.now }
    ensures { result ≡ block_from bytes.now at }
{
    let mut block = [0; 16];
    block.copy_from_slice(&bytes[at..at + 16]);
    block
}

/// Writes a block over the 16 bytes that begin at `at`.
pub fn put_block(bytes: &mut [u8], at: usize, block: [u8; 16])
    requires { at + 16 ≤ length bytes.old }
    ensures { bytes.new ≡ with_block bytes.old at block }
{
    bytes[at..at + 16].copy_from_slice(&block);
}
