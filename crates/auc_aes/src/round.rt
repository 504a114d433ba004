//! The steps of the cipher and of the key schedule, on words (FIPS 197 §5.1 and §5.2).

ghost use Rattle.std.specs.Prelude.{◌≡◌, [], ◌∷◌, slice_index};
ghost use Rattle.std.specs.Int.{w32, to_be_bytes};
ghost use Rattle.auc_aes.specs.Field.{xtimes, sub_byte};
ghost use Rattle.auc_aes.specs.Cipher.{full_round as full_round_of, final_round as final_round_of, next_key as key_after};
ghost use Rattle.auc_aes.specs.Inner.{block_of_words, mixed_column};

use crate::tables::{COLUMN_0, COLUMN_1, COLUMN_2, COLUMN_3, S_BOX};
use crate::words::word;

/// SBOX of a byte (§5.1.1).
#[tactic(auto, using(crate::proofs::TableLemmas::S_BOX_is))]
fn substitute(byte: u8) -> u8
    ensures { result ≡ sub_byte byte }
{
    S_BOX[byte as usize]
}

/// SUBWORD of four bytes (§5.2).
fn substitute_word(bytes: [u8; 4]) -> u32
    ensures { to_be_bytes w32 result ≡ sub_byte (slice_index bytes 0)
        ∷ sub_byte (slice_index bytes 1) ∷ sub_byte (slice_index bytes 2)
        ∷ sub_byte (slice_index bytes 3) ∷ [] }
{
    word(
        substitute(bytes[0]),
        substitute(bytes[1]),
        substitute(bytes[2]),
        substitute(bytes[3]),
    )
}

/// A byte times x in the field (§4.2).
#[tactic(auto, using(crate::proofs::TableLemmas::double_is))]
pub(crate) fn double(byte: u8) -> u8
    ensures { result ≡ xtimes byte }
{
    ((byte & 0x7f) * 2) ^ (byte / 128 * 0x1b)
}

/// The column that SHIFTROWS makes of four columns; the first is the column at the same place (§5.1.2).
fn shifted(a: u32, b: u32, c: u32, d: u32) -> [u8; 4]
    ensures { result ≡ slice_index (to_be_bytes w32 a) 0 ∷ slice_index (to_be_bytes w32 b) 1
        ∷ slice_index (to_be_bytes w32 c) 2 ∷ slice_index (to_be_bytes w32 d) 3 ∷ [] }
{
    [
        a.to_be_bytes()[0],
        b.to_be_bytes()[1],
        c.to_be_bytes()[2],
        d.to_be_bytes()[3],
    ]
}

/// A column after SUBBYTES and MIXCOLUMNS (§5.1.1, §5.1.3).
#[tactic(auto, using(crate::proofs::TableLemmas::column_is))]
fn mix(column: [u8; 4]) -> u32
    ensures { to_be_bytes w32 result ≡ mixed_column (sub_byte (slice_index column 0))
        (sub_byte (slice_index column 1)) (sub_byte (slice_index column 2))
        (sub_byte (slice_index column 3)) }
{
    COLUMN_0[column[0] as usize]
        ^ COLUMN_1[column[1] as usize]
        ^ COLUMN_2[column[2] as usize]
        ^ COLUMN_3[column[3] as usize]
}

/// One round with a round key (§5.1).
pub(crate) fn full_round(state: [u32; 4], round_key: [u32; 4]) -> [u32; 4]
    ensures { block_of_words result
        ≡ full_round_of (block_of_words state) (block_of_words round_key) }
{
    let [a, b, c, d] = state;
    [
        mix(shifted(a, b, c, d)) ^ round_key[0],
        mix(shifted(b, c, d, a)) ^ round_key[1],
        mix(shifted(c, d, a, b)) ^ round_key[2],
        mix(shifted(d, a, b, c)) ^ round_key[3],
    ]
}

/// The last round, which doesn't mix the columns (§5.1).
pub(crate) fn final_round(state: [u32; 4], round_key: [u32; 4]) -> [u32; 4]
    ensures { block_of_words result
        ≡ final_round_of (block_of_words state) (block_of_words round_key) }
{
    let [a, b, c, d] = state;
    [
        substitute_word(shifted(a, b, c, d)) ^ round_key[0],
        substitute_word(shifted(b, c, d, a)) ^ round_key[1],
        substitute_word(shifted(c, d, a, b)) ^ round_key[2],
        substitute_word(shifted(d, a, b, c)) ^ round_key[3],
    ]
}

/// The round key after `key`, with that round's constant (§5.2).
pub(crate) fn next_key(key: [u32; 4], constant: u8) -> [u32; 4]
    ensures { block_of_words result ≡ key_after (block_of_words key) constant }
{
    let [a, b, c, d] = key[3].to_be_bytes();
    let w0 = key[0] ^ (substitute_word([b, c, d, a]) ^ word(constant, 0, 0, 0));
    let w1 = key[1] ^ w0;
    let w2 = key[2] ^ w1;
    let w3 = key[3] ^ w2;
    [w0, w1, w2, w3]
}
