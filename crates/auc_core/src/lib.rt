//! The pure authentication centre: one number for each subscriber, and the events that change it.
//!
//! A [`Core`] answers one [`Event`] after the other: a draw takes the next number of a subscriber's
//! authentication vectors (TS 33.102 §6.3.2), as long as there is one, and a resynchronisation moves the
//! number up to the SEQ that the USIM reported, or finds it high enough (TS 33.102 §6.3.5). Each subscriber has its
//! own greatest number, its top. Contracts see a core as a word and a top for each subscriber: the word is the last
//! number that was drawn or passed over, or `top + 1` after a draw was refused.
//!
//! It departs from TS 33.102 §6.3.5 in one case: if the number is too far above the SEQ, it isn't set back,
//! since numbers would be drawn again.
//!
//! The laws say of every list of events that it leaves a legal history of each subscriber's numbers, and that
//! no number comes twice. Only [`Core::new`] takes memory. The tests stand in `auc_number_tests`.
#![tactic(auto)]

mod centre;
mod event;
mod law;

pub use centre::Core;
pub use event::{Event, Reply};
pub use law::{each_history_is_legal, no_number_comes_twice};
