//! Blocks as four words of 32 bits, the most significant byte of each first.

ghost use Rattle.std.specs.Prelude.{◌≡◌, [], ◌∷◌};
ghost use Rattle.std.specs.Int.{w32, to_be_bytes};
ghost use Rattle.auc_aes.specs.Bytes.{xor as xored};
ghost use Rattle.auc_aes.specs.Inner.{block_of_words};

/// The word of four bytes.
#[tactic(auto, using(crate::proofs::WordLemmas::word_is))]
pub(crate) fn word(a: u8, b: u8, c: u8, d: u8) -> u32
    ensures { to_be_bytes w32 result ≡ a ∷ b ∷ c ∷ d ∷ [] }
{
    u32::from_be_bytes([a, b, c, d])
}

/// The words of a block.
pub(crate) fn words_of(block: [u8; 16]) -> [u32; 4]
    ensures { block_of_words result ≡ block }
{
    [
        word(block[0], block[1], block[2], block[3]),
        word(block[4], block[5], block[6], block[7]),
        word(block[8], block[9], block[10], block[11]),
        word(block[12], block[13], block[14], block[15]),
    ]
}

/// The block of four words.
pub(crate) fn block_of(words: [u32; 4]) -> [u8; 16]
    ensures { result ≡ block_of_words words }
{
    let [a0, a1, a2, a3] = words[0].to_be_bytes();
    let [b0, b1, b2, b3] = words[1].to_be_bytes();
    let [c0, c1, c2, c3] = words[2].to_be_bytes();
    let [d0, d1, d2, d3] = words[3].to_be_bytes();
    [
        a0, a1, a2, a3, b0, b1, b2, b3, c0, c1, c2, c3, d0, d1, d2, d3,
    ]
}

/// The exclusive or of two blocks.
pub(crate) fn add(words: [u32; 4], other: [u32; 4]) -> [u32; 4]
    ensures { block_of_words result ≡ xored (block_of_words words) (block_of_words other) }
{
    [
        words[0] ^ other[0],
        words[1] ^ other[1],
        words[2] ^ other[2],
        words[3] ^ other[3],
    ]
}
