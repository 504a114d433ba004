//! The generator of RFC 4187 Appendix A.

ghost use Rattle.std.specs.Prelude.{◌≡◌, ◌++◌, replicate};
ghost use Rattle.auc_prf.specs.Generator.{bytes_of, compressed, number_of, word_of, words, xkey_after};

use crate::compression::{bytes, compress};
use crate::sum::next_xkey;

// The size of a word of the generator, in bytes.
const WORD: usize = 20;

// The initial hash value of SHA-1 (FIPS 180-4 §5.3.1).
const INITIAL: [u32; 5] = [
    0x6745_2301,
    0xEFCD_AB89,
    0x98BA_DCFE,
    0x1032_5476,
    0xC3D2_E1F0,
];

/// The word w = G(XKEY), and the next XKEY = (1 + XKEY + w) mod 2^160 (RFC 4187 Appendix A). Each is a
/// number of 160 bits, its most significant byte first.
pub fn next_word(xkey: [u8; 20]) -> ([u8; 20], [u8; 20])
    ensures word { result.0 ≡ bytes_of (word_of (number_of xkey)) }
    ensures next { result.1 ≡ bytes_of (xkey_after (number_of xkey)) }
{
    let word = compressed(xkey);
    (word, next_xkey(xkey, word))
}

// Eight words from XKEY on, one after the other.
pub(crate) fn stream(mut xkey: [u8; 20]) -> [u8; 160]
    ensures { result ≡ words 8 (number_of xkey) }
{
    let mut out = [0; 160];
    for i in 0..8 {
        let (word, next) = next_word(xkey);
        out[WORD * i..WORD * i + WORD].copy_from_slice(&word);
        xkey = next;
    }
    out
}

// G of 20 bytes: SHA-1's compression, from its initial value, of them and 44 zero bytes.
fn compressed(xkey: [u8; 20]) -> [u8; 20]
    ensures { result ≡ compressed xkey }
{
    bytes(compress(INITIAL, &block_of(xkey)))
}

// 20 bytes, followed by 44 zero bytes.
fn block_of(xkey: [u8; 20]) -> [u8; 64]
    ensures { result ≡ xkey ++ replicate 44 0 }
{
    let mut block = [0; 64];
    block[..20].copy_from_slice(&xkey);
    block
}
