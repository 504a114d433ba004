//! The authentication vectors of consecutive numbers, sixteen at a time.

ghost use Rattle.std.specs.Prelude.{◌≡◌, ◌<◌, ◌≤◌, ◌+◌, ◌++◌, ℕ, List, [], length, map, take, drop, slice_index_or};
ghost use Rattle.auc_aes.specs.Bytes.{xor};
ghost use Rattle.auc_hmac.specs.declared.method.Method.TheVariants.{Aka};
ghost use Rattle.auc_milenage.specs.Lanes.{GiveOuts};
ghost use Rattle.auc_milenage.specs.Milenage.{in1_of, temp_of};
ghost use Rattle.auc_sqn.specs.Number.{most_bits, sqn_bytes, top_of};
ghost use Rattle.auc_vector.specs.Many.{AreCiphers, AreInputs, keyed_by, vectors_of};
ghost use Rattle.auc_vector.specs.Vector.{vector_of};

use crate::making::keyed;
use crate::parts::Vector;
use auc_hmac::Method;
use auc_milenage::{MilenageLanes, Secret, in1};
use auc_sqn::sqn_of;
use std::simd::prelude::*;

/// How many vectors are made together.
const GROUP: usize = 16;

/// Makes the vectors of the numbers from `first` on, one for each RAND, under a subscriber's secret and AMF, for a method
/// and the name of the network, of which EAP-AKA makes no use. The subscriber's index has `bits` bits. Each is what
/// [`vector`](crate::vector) makes.
pub fn vectors(
    s: &Secret,
    method: Method,
    amf: [u8; 2],
    name: &[u8],
    bits: u8,
    first: u64,
    rands: &[[u8; 16]],
    out: &mut [Vector],
)
    requires lengths { length rands.now ≡ length out.old }
    requires short { length name.now ≤ 255 }
    requires bits { bits ≤ most_bits }
    requires first { 1 ≤ first }
    requires last { first + length rands.now ≤ top_of bits + 1 }
    ensures { out.new ≡ vectors_of s.now method amf name.now bits first rands.now }
{
    fill_all(&MilenageLanes::new(s), amf, bits, first, rands, out);
    match method {
        Method::Aka => {}
        Method::Prime => key_all(method, name, out),
    }
}

/// Makes the vectors for EAP-AKA.
fn fill_all(
    m: &MilenageLanes,
    amf: [u8; 2],
    bits: u8,
    first: u64,
    rands: &[[u8; 16]],
    out: &mut [Vector],
)
    requires bits { bits ≤ most_bits }
    requires lengths { length rands.now ≡ length out.old }
    requires last { first + length rands.now ≤ top_of bits + 1 }
    ensures { out.new ≡ vectors_of m.now Aka amf [] bits first rands.now }
{
    let mut at = 0;
    while at < rands.len() {
        let count = (rands.len() - at).min(GROUP);
        let end = at + count;
        fill(
            m,
            amf,
            bits,
            first + at as u64,
            &rands[at..end],
            &mut out[at..end],
        );
        at = end;
    }
}

/// Gives each vector CK and IK by the method.
fn key_all(method: Method, name: &[u8], out: &mut [Vector])
    requires { length name.now ≤ 255 }
    ensures { out.new ≡ map (keyed_by method name.now) out.old }
{
    for made in out.iter_mut() {
        *made = keyed(method, name, *made);
    }
}

/// Makes the vectors of at most sixteen numbers for EAP-AKA, each from its four ciphers.
fn fill(
    m: &MilenageLanes,
    amf: [u8; 2],
    bits: u8,
    first: u64,
    rands: &[[u8; 16]],
    out: &mut [Vector],
)
    requires bits { bits ≤ most_bits }
    requires few { length rands.now ≤ 16 }
    requires lengths { length rands.now ≡ length out.old }
    requires last { first + length rands.now ≤ top_of bits + 1 }
    ensures { out.new ≡ vectors_of m.now Aka amf [] bits first rands.now }
{
    let ciphers = ciphers(m, amf, bits, first, rands);
    for i in 0..rands.len() {
        let four = [
            ciphers[4 * i],
            ciphers[4 * i + 1],
            ciphers[4 * i + 2],
            ciphers[4 * i + 3],
        ];
        out[i] = made(m, amf, bits, first + i as u64, rands[i], four);
    }
}

/// The ciphers of at most sixteen numbers from `first` on, four for each: TEMP of each RAND, then four blocks of each number,
/// which are encrypted together.
fn ciphers(
    m: &MilenageLanes,
    amf: [u8; 2],
    bits: u8,
    first: u64,
    rands: &[[u8; 16]],
) -> [[u8; 16]; 64]
    requires bits { bits ≤ most_bits }
    requires few { length rands.now ≤ 16 }
    requires last { first + length rands.now ≤ top_of bits + 1 }
    ensures { (j : ℕ) → j < length rands.now → AreCiphers m.now amf bits first rands.now result j }
{
    let count = rands.len();
    let mut group = [[0; 16]; GROUP];
    let temps = &mut group[..count];
    temps.copy_from_slice(rands);
    m.temps(temps);
    let mut blocks = inputs(m, amf, bits, first, temps);
    m.encrypt(&mut blocks[..4 * count]);
    blocks
}

/// The blocks that are encrypted for the numbers from `first` on, four for each, from their TEMPs.
fn inputs(
    m: &MilenageLanes,
    amf: [u8; 2],
    bits: u8,
    first: u64,
    temps: &[[u8; 16]],
) -> [[u8; 16]; 64]
    requires bits { bits ≤ most_bits }
    requires few { length temps.now ≤ 16 }
    requires last { first + length temps.now ≤ top_of bits + 1 }
    ensures { (rands : List (List ℕ)) → temps.now ≡ map (temp_of m.now.k m.now.opc) rands
        → (j : ℕ) → j < length temps.now → AreInputs m.now amf bits first rands result j }
{
    let mut blocks = [[0; 16]; 4 * GROUP];
    for i in 0..temps.len() {
        let made = m.inputs(temps[i], in1(sqn_of(first + i as u64, bits), amf));
        blocks[4 * i] = made[0];
        blocks[4 * i + 1] = made[1];
        blocks[4 * i + 2] = made[2];
        blocks[4 * i + 3] = made[3];
    }
    blocks
}

/// The vector of a number, from its four ciphers.
fn made(
    m: &MilenageLanes,
    amf: [u8; 2],
    bits: u8,
    n: u64,
    rand: [u8; 16],
    ciphers: [[u8; 16]; 4],
) -> Vector
    requires bits { bits ≤ most_bits }
    requires last { n ≤ top_of bits }
    ensures { GiveOuts m.now rand (sqn_bytes bits n) amf (slice_index_or ciphers 0 [])
        (slice_index_or ciphers 1 []) (slice_index_or ciphers 2 []) (slice_index_or ciphers 3 [])
        → result ≡ vector_of m.now Aka amf [] bits n rand }
{
    let out1 = m.out(ciphers[0]);
    let out2 = m.out(ciphers[1]);
    Vector {
        n,
        rand,
        autn: autn(in1(sqn_of(n, bits), amf), out1, out2),
        xres: second_half(out2),
        ck: m.out(ciphers[2]),
        ik: m.out(ciphers[3]),
    }
}

/// AUTN: SQN masked by AK, which OUT2 begins with, AMF, and the MAC, which OUT1 begins with. IN1 has SQN and AMF.
#[inline(always)]
fn autn(in1: [u8; 16], out1: [u8; 16], out2: [u8; 16]) -> [u8; 16]
    ensures { (sqn amf : List ℕ) → length sqn ≡ 6 → length amf ≡ 2 → in1 ≡ in1_of sqn amf
        → result ≡ xor sqn (take 6 out2) ++ amf ++ take 8 out1 }
{
    let plain = u8x16::from_array(in1);
    let masked = plain ^ u8x16::from_array(out2);
    let front: u8x16 = masked.shuffle(
        plain,
        [0, 1, 2, 3, 4, 5, 22, 23, 8, 9, 10, 11, 12, 13, 14, 15],
    );
    front
        .shuffle(
            u8x16::from_array(out1),
            [0, 1, 2, 3, 4, 5, 6, 7, 16, 17, 18, 19, 20, 21, 22, 23],
        )
        .to_array()
}

/// The second half of a block.
#[inline(always)]
fn second_half(block: [u8; 16]) -> [u8; 8]
    ensures { result ≡ drop 8 block }
{
    let mut half = [0; 8];
    half.copy_from_slice(&block[8..]);
    half
}
