//! The SQN of a number, and SEQ and IND of an SQN.

ghost use Rattle.std.specs.Prelude.{◌≡◌, ◌≤◌, ◌<◌, ◌-◌, ◌%◌, ◌^◌};
ghost use Rattle.auc_sqn.specs.Number.{top_of, most_bits, sqn_bytes, sqn_with, seq_of, ind_of, value_of};
ghost use Rattle.auc_sqn.specs.Number.{indices as indices_of};

/// The greatest number that a vector has, whatever the subscriber's index length is: 2^43 - 1.
pub const MAX_SEQ: u64 = 8796093022207;

/// The greatest index length: how many bits an IND has at most.
pub const MAX_BITS: u8 = 6;

/// The greatest number of a subscriber with an index length: [`MAX_SEQ`], or the greatest SEQ of the
/// bits that IND leaves of 48, if that is less.
#[tactic(auto, using(crate::proofs::BitLemmas::shift, crate::proofs::BitLemmas::seqs_whole))]
pub fn top(bits: u8) -> u64
    requires { bits ≤ most_bits }
    ensures { result ≡ top_of bits }
{
    MAX_SEQ.min((1 << (48 - bits)) - 1)
}

/// How many values an IND of so many bits has.
#[tactic(auto, using(crate::proofs::BitLemmas::shift))]
pub(crate) fn indices(bits: u8) -> u64
    requires { bits ≤ most_bits }
    ensures { result ≡ indices_of bits }
{
    1 << bits
}

/// The SQN of a number, as 6 bytes, most significant first: SEQ is the number, and IND its lower
/// `bits` bits (TS 33.102 Annex C.1.1.1).
#[tactic(auto, using(crate::proofs::BitLemmas::top_within, crate::proofs::BitLemmas::indices_within, crate::proofs::BitLemmas::remainder_within))]
pub fn sqn_of(n: u64, bits: u8) -> [u8; 6]
    requires bits { bits ≤ most_bits }
    requires number { n ≤ top_of bits }
    ensures { result ≡ sqn_bytes bits n }
{
    spell(n, n % indices(bits), bits)
}

/// SEQ and IND side by side in 6 bytes.
pub(crate) fn spell(seq: u64, ind: u64, bits: u8) -> [u8; 6]
    requires bits { bits ≤ most_bits }
    requires seq { seq < 2 ^ (48 - bits) }
    requires ind { ind < indices_of bits }
    ensures { result ≡ sqn_with bits seq ind }
{
    let sqn = indices(bits) * seq + ind;
    let [_, _, a, b, c, d, e, f] = sqn.to_be_bytes();
    [a, b, c, d, e, f]
}

/// SEQ, the upper bits, and IND, the lower `bits` ones, of an SQN of 6 bytes, most significant first.
/// SEQ may be above [`top`].
#[tactic(auto, using(crate::proofs::BitLemmas::indices_within, crate::proofs::BitLemmas::remainder_within))]
pub fn split(sqn: [u8; 6], bits: u8) -> (u64, u8)
    requires { bits ≤ most_bits }
    ensures seq { result.0 ≡ seq_of bits sqn }
    ensures ind { result.1 ≡ ind_of bits sqn }
    ensures seq_within { result.0 < 2 ^ (48 - bits) }
    ensures ind_within { result.1 < indices_of bits }
{
    let value = value(sqn);
    let count = indices(bits);
    (value / count, (value % count) as u8)
}

/// The number that 6 bytes are, most significant first.
fn value(sqn: [u8; 6]) -> u64
    ensures value { result ≡ value_of sqn }
    ensures within { result < 2 ^ 48 }
{
    let [a, b, c, d, e, f] = sqn;
    u64::from_be_bytes([0, 0, a, b, c, d, e, f])
}
