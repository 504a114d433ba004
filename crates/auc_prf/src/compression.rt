//! One step of the compression of SHA-1 (FIPS 180-4 §6.1.2).

ghost use Rattle.std.specs.Prelude.{◌≡◌, ◌<◌, slice_index};
ghost use Rattle.sha1.specs.Sha1.{compress, digest_bytes, round, round_constant, round_fn};

use crate::schedule::schedule;

// The hash value after a block, from the previous hash value.
pub(crate) fn compress(hash: [u32; 5], block: &[u8; 64]) -> [u32; 5]
    ensures { result ≡ compress hash block.now }
{
    let words = schedule(block);
    let mut v = hash;
    for t in 0..80 {
        v = round(v, t, words[t]);
    }
    let [a, b, c, d, e] = hash;
    [
        a.wrapping_add(v[0]),
        b.wrapping_add(v[1]),
        c.wrapping_add(v[2]),
        d.wrapping_add(v[3]),
        e.wrapping_add(v[4]),
    ]
}

// The bytes of a hash value, most significant first in each word.
pub(crate) fn bytes(hash: [u32; 5]) -> [u8; 20]
    ensures { result ≡ digest_bytes hash 5 }
{
    let mut out = [0; 20];
    for i in 0..5 {
        out[4 * i..4 * i + 4].copy_from_slice(&hash[i].to_be_bytes());
    }
    out
}

// Round t on the working variables a to e, with W(t).
fn round(v: [u32; 5], t: usize, word: u32) -> [u32; 5]
    requires { t < 80 }
    ensures { result
        ≡ round v (round_fn t (slice_index v 1) (slice_index v 2) (slice_index v 3))
        (round_constant t) word }
{
    let [a, b, c, d, e] = v;
    let first = a
        .rotate_left(5)
        .wrapping_add(mixed(t, b, c, d))
        .wrapping_add(e)
        .wrapping_add(constant(t))
        .wrapping_add(word);
    [first, a, b.rotate_left(30), c, d]
}

// f(t) of three words (FIPS 180-4 §4.1.1).
fn mixed(t: usize, x: u32, y: u32, z: u32) -> u32
    ensures { result ≡ round_fn t x y z }
{
    if t < 20 {
        (x & y) ^ (!x & z)
    } else if t < 40 {
        x ^ y ^ z
    } else if t < 60 {
        (x & y) ^ (x & z) ^ (y & z)
    } else {
        x ^ y ^ z
    }
}

// K(t) (FIPS 180-4 §4.2.1).
fn constant(t: usize) -> u32
    ensures { result ≡ round_constant t }
{
    if t < 20 {
        0x5A82_7999
    } else if t < 40 {
        0x6ED9_EBA1
    } else if t < 60 {
        0x8F1B_BCDC
    } else {
        0xCA62_C1D6
    }
}
