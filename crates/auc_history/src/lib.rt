//! Histories of a subscriber's numbers at the authentication centre.
//!
//! An [`Entry`] is what one atomic step did to the subscriber's number: a draw, a resynchronisation
//! that moved it, or one that found it high enough (TS 33.102 §6.3.5). The definitions in `specs/` say
//! when a list of entries is a legal history, when the lists of several callers split one, which
//! history such lists merge to, and which verdict a resynchronisation has. The merge of a split is a
//! legal history of the same entries ([`split_is_merged`]), and a split stays one if looks are left out
//! or its entries are put into other lists. [`is_legal`] tests a history slowly, for tests.
//!
//! A subscriber's greatest number is a parameter of all definitions. Nothing here takes memory, waits
//! or fails. The tests stand in `auc_number_tests`.
#![tactic(auto)]

mod entry;
mod law;
mod legal;

pub use entry::Entry;
pub use law::{
    cut_history_is_a_split, cut_history_merges_to_itself, recut_split_is_a_split,
    split_counts_its_numbers, split_draws_no_number_twice, split_is_merged,
    split_without_looks_is_a_split,
};
pub use legal::is_legal;
