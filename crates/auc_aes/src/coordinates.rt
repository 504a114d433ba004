//! The S-box on the lanes of a vector (FIPS 197 §5.1.1), over the field GF(2^4).
//!
//! A vector of 32 lanes has a byte in each lane. Inside the rounds, a lane has the byte's coordinates over GF(2^4), so that
//! the S-box is a few look-ups in tables of sixteen entries. The S-box's constant 0x63 stands in no table; it is added to
//! the round keys.

ghost use Rattle.std.specs.Prelude.{◌≡◌, T, map, take, drop};
ghost use Rattle.std.specs.Simd.Lanes.{Each1};
ghost use Rattle.auc_aes.specs.Lanes.{is_place, entry, low_of, high_of, substituted, doubled, substituted_byte, first_part, second_part, coordinates};

use crate::lane_tables::{
    BYTE_FIRST, BYTE_SECOND, COORDINATES_HIGH, COORDINATES_LOW, DOUBLE_FIRST, DOUBLE_SECOND,
    INVERSES, QUOTIENTS, S_BOX_FIRST, S_BOX_SECOND,
};
use std::simd::prelude::*;

/// The entries of a table at the place in each lane. A place from 128 on gives 0.
#[inline(always)]
fn look_up(table: [u8; 32], at: u8x32) -> u8x32
    requires twice { take 16 table ≡ drop 16 table }
    requires places { Each1 (λ place. T (is_place place)) at }
    ensures { result ≡ map (entry table) at }
{
    u8x32::from_array(table).swizzle_dyn_within::<16>(at)
}

/// The lower half of each lane.
#[inline(always)]
fn low(v: u8x32) -> u8x32
    ensures { result ≡ map low_of v }
{
    v & u8x32::splat(15)
}

/// The upper half of each lane.
#[inline(always)]
fn high(v: u8x32) -> u8x32
    ensures { result ≡ map high_of v }
{
    v >> u8x32::splat(4)
}

/// The two parts of the inverse of the element whose coordinates each lane has.
#[inline(always)]
fn inverse(v: u8x32) -> (u8x32, u8x32)
    ensures first { result.0 ≡ map first_part v }
    ensures second { result.1 ≡ map second_part v }
{
    let low = low(v);
    let high = high(v);
    let sum = high ^ low;
    let quotient = look_up(QUOTIENTS, low);
    let first = look_up(INVERSES, high) ^ quotient;
    let second = look_up(INVERSES, sum) ^ quotient;
    (
        look_up(INVERSES, first) ^ sum,
        look_up(INVERSES, second) ^ high,
    )
}

/// SBOX of each lane without its constant, and twice that (§5.1.1, §4.2), all in coordinates.
#[inline(always)]
pub(crate) fn substitute(v: u8x32) -> (u8x32, u8x32)
    ensures once { result.0 ≡ map substituted v }
    ensures twice { result.1 ≡ map doubled v }
{
    let (first, second) = inverse(v);
    (
        look_up(S_BOX_FIRST, first) ^ look_up(S_BOX_SECOND, second),
        look_up(DOUBLE_FIRST, first) ^ look_up(DOUBLE_SECOND, second),
    )
}

/// SBOX of each lane without its constant, as a byte, from coordinates.
#[inline(always)]
pub(crate) fn substitute_last(v: u8x32) -> u8x32
    ensures { result ≡ map substituted_byte v }
{
    let (first, second) = inverse(v);
    look_up(BYTE_FIRST, first) ^ look_up(BYTE_SECOND, second)
}

/// The coordinates of the byte in each lane.
#[inline(always)]
pub(crate) fn to_coordinates(v: u8x32) -> u8x32
    ensures { result ≡ map coordinates v }
{
    look_up(COORDINATES_LOW, low(v)) ^ look_up(COORDINATES_HIGH, high(v))
}
