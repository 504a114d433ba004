//! The round keys as lanes (FIPS 197 §5.2): the first ten as coordinates over GF(2^4), the last as bytes. The S-box's
//! constant is added to all but the first, because the S-box on lanes leaves it out and MIXCOLUMNS keeps it: a column of
//! four equal bytes is mixed into itself.

ghost use Rattle.std.specs.Prelude.{◌≡◌, ◌<◌, ℕ, List, [], map, slice_index_or};
ghost use Rattle.auc_aes.specs.Cipher.{round_key};
ghost use Rattle.auc_aes.specs.Inner.{block_of_words};
ghost use Rattle.auc_aes.specs.Lanes.{IsLaneKeys, key_coordinates, with_constant, coordinates};

use crate::coordinates::to_coordinates;
use crate::pairs::{first_half, join};
use std::simd::prelude::*;

/// The constant of the S-box (§5.1.1, equation 5.2).
const CONSTANT: u8 = 0x63;

/// The block of four words, the most significant byte of each first.
fn block_of_lanes(words: u32x4) -> [u8; 16]
    ensures { result ≡ block_of_words words }
{
    words
        .to_le_bytes()
        .swizzle([3, 2, 1, 0, 7, 6, 5, 4, 11, 10, 9, 8, 15, 14, 13, 12])
        .to_array()
}

/// Round key 0 as lanes.
fn first_key(k: [u8; 16]) -> [u8; 16]
    ensures { result ≡ map coordinates k }
{
    first_half(to_coordinates(join(k, k)))
}

/// The round key of a full round as lanes.
fn inner_key(k: [u8; 16]) -> [u8; 16]
    ensures { result ≡ map key_coordinates k }
{
    first_half(to_coordinates(join(k, k) ^ u8x32::splat(CONSTANT)))
}

/// The round key of the last round as lanes.
fn last_key(k: [u8; 16]) -> [u8; 16]
    ensures { result ≡ map with_constant k }
{
    first_half(join(k, k) ^ u8x32::splat(CONSTANT))
}

/// The round keys as lanes, from their words.
pub(crate) fn lane_keys(round_keys: &[[u32; 4]; 11]) -> [[u8; 16]; 11]
    ensures { (key : List ℕ)
        → ((i : ℕ) → i < 11 → block_of_words (slice_index_or round_keys.now i []) ≡ round_key key i)
        → IsLaneKeys key result }
{
    let mut keys = [first_key(block_of_lanes(u32x4::from_array(round_keys[0]))); 11];
    for i in 1..10 {
        keys[i] = inner_key(block_of_lanes(u32x4::from_array(round_keys[i])));
    }
    keys[10] = last_key(block_of_lanes(u32x4::from_array(round_keys[10])));
    keys
}
