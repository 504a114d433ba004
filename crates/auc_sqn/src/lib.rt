//! Sequence numbers of authentication vectors (TS 33.102 §6.3 and Annex C).
//!
//! The home network numbers a subscriber's vectors 1, 2, 3 and so on up to [`top`]. [`sqn_of`] spells
//! a number as the SQN of 6 bytes that AUTN carries, and [`split`] takes an SQN apart into SEQ and
//! IND. IND has 0 to 6 bits, the subscriber's index length. An SQN gives its number back
//! ([`split_undoes_sqn_of`]). A [`SqnArray`] is what a USIM remembers: the greatest SEQ that it has
//! accepted for each IND. It may have an age limit, the L of Annex C.
//!
//! Contracts see an `SqnArray` through the list of all that it has accepted; its entries are the
//! code's own.
//!
//! Nothing here takes memory, waits or fails. The tests stand in `auc_number_tests`.
#![tactic(auto)]

mod law;
mod number;
mod sqn_array;
mod verdict;

pub use law::{
    each_number_has_its_own_sqn, max_bits_is_the_greatest_length, max_seq_is_the_greatest_number,
    split_undoes_sqn_of,
};
pub use number::{MAX_BITS, MAX_SEQ, split, sqn_of, top};
pub use sqn_array::SqnArray;
pub use verdict::Verdict;
