//! Bits that a scenario turns over: of the AUTS that a line hands to the centre, and of RES* on its way.

ghost use Rattle.std.specs.Prelude.{◌≡◌, ◌*◌, ◌≤◌, ◌<◌, IfSome};
ghost use Rattle.auc_lines.specs.Part.{IsBit};
ghost use Rattle.auc_milenage.specs.Milenage.{auts};
ghost use Rattle.auc_sqn.specs.Number.{most_bits, sqn_bytes, top_of};
ghost use Rattle.auc_world.specs.Given.{bit_mask as mask_of, turned as turned_by};

use auc_aes::xor;
use auc_milenage::{Secret, make_auts};
use auc_sqn::sqn_of;

/// `N` bytes of which one bit is set, counted from the first byte's top bit.
fn bit_mask<const N: usize>(bit: u8) -> [u8; N]
    requires { bit < 8 * N }
    ensures { result ≡ mask_of N bit }
{
    let mut bytes = [0; N];
    bytes[(bit / 8) as usize] = 1 << (7 - bit % 8);
    bytes
}

/// `N` bytes with a bit turned over, from 0 for the first byte's top bit, if one is named.
pub fn turned<const N: usize>(bytes: [u8; N], bit: Option<u8>) -> [u8; N]
    requires { IfSome bit (λ bit. bit < 8 * N) }
    ensures { result ≡ turned_by bit bytes.entry }
{
    match bit {
        Some(bit) => xor(bytes, bit_mask(bit)),
        None => bytes,
    }
}

/// The AUTS of a USIM whose SQN_MS is the SQN of the number `seq` with an index of `bits` bits, for a RAND (TS 33.102
/// §6.3.3). The bit `bit` is turned over, from 0 for the first byte's top bit to 111, or none is.
pub fn auts_of(s: &Secret, rand: [u8; 16], bits: u8, seq: u64, bit: Option<u8>) -> [u8; 14]
    requires bits { bits ≤ most_bits }
    requires seq { seq ≤ top_of bits }
    requires bit { IsBit bit }
    ensures { result ≡ turned_by bit (auts s.now.k s.now.opc rand (sqn_bytes bits seq)) }
{
    turned(make_auts(s, rand, sqn_of(seq, bits)), bit)
}
