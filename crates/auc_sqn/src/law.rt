//! Laws of numbers and their SQNs.

ghost use Rattle.std.specs.Prelude.{◌≡◌};
ghost use Rattle.auc_sqn.specs.Number.{SplitUndoesSqn, EachNumberHasItsOwnSqn, max_seq, most_bits};

use crate::number::{MAX_BITS, MAX_SEQ};

/// The SQN of a number, taken apart with its index length, gives the number as SEQ and its lower
/// bits as IND.
#[tactic(auto, using(crate::proofs::NumberLemmas::split_undoes_sqn))]
pub fn split_undoes_sqn_of()
    ensures { SplitUndoesSqn }
{}

/// [`MAX_SEQ`] is the greatest number of the definitions, 2^43 - 1.
pub fn max_seq_is_the_greatest_number()
    ensures { MAX_SEQ ≡ max_seq }
{}

/// [`MAX_BITS`] is the greatest index length of the definitions, 6.
pub fn max_bits_is_the_greatest_length()
    ensures { MAX_BITS ≡ most_bits }
{}

/// Different numbers of one index length have different SQNs.
#[tactic(auto, using(crate::proofs::NumberLemmas::each_number_has_its_own_sqn))]
pub fn each_number_has_its_own_sqn()
    ensures { EachNumberHasItsOwnSqn }
{}
