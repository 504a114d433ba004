//! The steps of the inverse cipher (FIPS 197 §5.3).

ghost use Rattle.std.specs.Prelude.{◌≡◌};
ghost use Rattle.auc_aes.specs.Field.{inv_sub_byte};
ghost use Rattle.auc_aes.specs.Cipher.{inv_mixed, inv_shift_rows, inv_sub_bytes, inv_mix_columns, inv_full_round, inv_final_round};
ghost use Rattle.auc_aes.specs.Inner.{inv_mixed_column};

use crate::block::xor;
use crate::tables::{INVERSE_S_BOX, TIMES_9, TIMES_11, TIMES_13, TIMES_14};

/// INVSBOX of a byte (§5.3.2).
#[tactic(auto, using(crate::proofs::TableLemmas::INVERSE_S_BOX_is))]
fn restore(byte: u8) -> u8
    ensures { result ≡ inv_sub_byte byte }
{
    INVERSE_S_BOX[byte as usize]
}

/// INVSUBBYTES (§5.3.2).
fn restore_all(mut state: [u8; 16]) -> [u8; 16]
    ensures { result ≡ inv_sub_bytes state }
{
    for byte in state.iter_mut() {
        *byte = restore(*byte);
    }
    state
}

/// INVSHIFTROWS (§5.3.1).
fn shift_back(state: [u8; 16]) -> [u8; 16]
    ensures { result ≡ inv_shift_rows state }
{
    [
        state[0], state[13], state[10], state[7], state[4], state[1], state[14], state[11],
        state[8], state[5], state[2], state[15], state[12], state[9], state[6], state[3],
    ]
}

/// A byte of a column before its mixing, from the column's bytes in order, that row's first (§5.3.3).
#[tactic(auto, using(crate::proofs::TableLemmas::unmixed_is))]
fn unmixed(a: u8, b: u8, c: u8, d: u8) -> u8
    ensures { result ≡ inv_mixed a b c d }
{
    TIMES_14[a as usize] ^ TIMES_11[b as usize] ^ TIMES_13[c as usize] ^ TIMES_9[d as usize]
}

/// A column before its mixing.
#[tactic(auto, unfolding(crate::specs::Inner::inv_mixed_column))]
fn unmixed_column(a: u8, b: u8, c: u8, d: u8) -> [u8; 4]
    ensures { result ≡ inv_mixed_column a b c d }
{
    [
        unmixed(a, b, c, d),
        unmixed(b, c, d, a),
        unmixed(c, d, a, b),
        unmixed(d, a, b, c),
    ]
}

/// INVMIXCOLUMNS (§5.3.3).
fn unmix(state: [u8; 16]) -> [u8; 16]
    ensures { result ≡ inv_mix_columns state }
{
    let [a0, a1, a2, a3] = unmixed_column(state[0], state[1], state[2], state[3]);
    let [b0, b1, b2, b3] = unmixed_column(state[4], state[5], state[6], state[7]);
    let [c0, c1, c2, c3] = unmixed_column(state[8], state[9], state[10], state[11]);
    let [d0, d1, d2, d3] = unmixed_column(state[12], state[13], state[14], state[15]);
    [
        a0, a1, a2, a3, b0, b1, b2, b3, c0, c1, c2, c3, d0, d1, d2, d3,
    ]
}

/// Undoes the last round.
pub(crate) fn undo_final_round(state: [u8; 16], round_key: [u8; 16]) -> [u8; 16]
    ensures { result ≡ inv_final_round state round_key }
{
    restore_all(shift_back(xor(state, round_key)))
}

/// Undoes a full round.
pub(crate) fn undo_full_round(state: [u8; 16], round_key: [u8; 16]) -> [u8; 16]
    ensures { result ≡ inv_full_round state round_key }
{
    restore_all(shift_back(unmix(xor(state, round_key))))
}
