//! Sets of subscribers' numbers, such as those whose vectors were released.
//!
//! [`Numbers`] is such a set. The numbers of a subscriber are mostly consecutive, so the set has a word of 64 bits for
//! each block of 64 consecutive numbers of which it has one.
//!
//! Contracts see the list of these words, each after its subscriber and the number of its block, and speak of it by
//! whether a subscriber's number stands in it (`specs/Numbers`). [`Numbers::add`] takes memory. If memory runs out, the
//! set is as it was; that is the only refusal. A caller that adds all of some numbers or none makes room for each of them
//! first, notes them after that, which takes no memory, and drops the room if memory runs out (`specs/Room`). Nothing
//! here waits. The tests stand in `auc_number_tests`.
#![tactic(auto)]

mod numbers;

pub use numbers::{Number, Numbers};
