//! Two blocks in a vector of 32 lanes, the first in lanes 0 to 15, each with its bytes in order.

ghost use Rattle.std.specs.Prelude.{◌≡◌, ℕ, List, ◌++◌, length};
ghost use Rattle.auc_aes.specs.Lanes.{moved, shifted_rows, next_rows, opposite_rows};

use std::simd::prelude::*;

/// Two blocks in one vector.
#[inline(always)]
pub(crate) fn join(a: [u8; 16], b: [u8; 16]) -> u8x32
    ensures { result ≡ a ++ b }
{
    u8x16::from_array(a).shuffle(
        u8x16::from_array(b),
        [
            0, 1, 2, 3, 4, 5, 6, 7, 8, 9, 10, 11, 12, 13, 14, 15, 16, 17, 18, 19, 20, 21, 22, 23,
            24, 25, 26, 27, 28, 29, 30, 31,
        ],
    )
}

/// The first block of a vector.
#[inline(always)]
pub(crate) fn first_half(v: u8x32) -> [u8; 16]
    ensures { (a b : List ℕ) → length a ≡ 16 → v ≡ a ++ b → result ≡ a }
{
    v.extract::<0, 16>().to_array()
}

/// The second block of a vector.
#[inline(always)]
pub(crate) fn second_half(v: u8x32) -> [u8; 16]
    ensures { (a b : List ℕ) → length a ≡ 16 → length b ≡ 16 → v ≡ a ++ b → result ≡ b }
{
    v.extract::<16, 16>().to_array()
}

/// SHIFTROWS of both blocks (FIPS 197 §5.1.2).
#[inline(always)]
pub(crate) fn shift_rows(v: u8x32) -> u8x32
    ensures { (a b : List ℕ) → length a ≡ 16 → length b ≡ 16 → v ≡ a ++ b
        → result ≡ moved shifted_rows a ++ moved shifted_rows b }
{
    v.swizzle([
        0, 5, 10, 15, 4, 9, 14, 3, 8, 13, 2, 7, 12, 1, 6, 11, 16, 21, 26, 31, 20, 25, 30, 19, 24,
        29, 18, 23, 28, 17, 22, 27,
    ])
}

/// In the place of each byte the one that SHIFTROWS brings into the next row of its column.
#[inline(always)]
pub(crate) fn next_row(v: u8x32) -> u8x32
    ensures { (a b : List ℕ) → length a ≡ 16 → length b ≡ 16 → v ≡ a ++ b
        → result ≡ moved next_rows a ++ moved next_rows b }
{
    v.swizzle([
        5, 6, 7, 4, 9, 10, 11, 8, 13, 14, 15, 12, 1, 2, 3, 0, 21, 22, 23, 20, 25, 26, 27, 24, 29,
        30, 31, 28, 17, 18, 19, 16,
    ])
}

/// In the place of each byte the one that SHIFTROWS brings two rows down in its column.
#[inline(always)]
pub(crate) fn opposite_row(v: u8x32) -> u8x32
    ensures { (a b : List ℕ) → length a ≡ 16 → length b ≡ 16 → v ≡ a ++ b
        → result ≡ moved opposite_rows a ++ moved opposite_rows b }
{
    v.swizzle([
        10, 11, 8, 9, 14, 15, 12, 13, 2, 3, 0, 1, 6, 7, 4, 5, 26, 27, 24, 25, 30, 31, 28, 29, 18,
        19, 16, 17, 22, 23, 20, 21,
    ])
}
