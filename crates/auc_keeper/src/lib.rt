//! The keeper of the reservations of a round.
//!
//! A number is released only if it is at most its subscriber's limit, and limits stand in two places: in the journal on
//! the disk, and in the shared words from which the workers read them. A [`Keeper`] holds the journal together with the
//! keeper's pass. [`Keeper::ensure`] appends a greater limit to the journal, and after that raises the shared one. If the
//! append is refused, it sets the shared stop word, and no limit rises any more. [`Keeper::prepare`] does so for the limits
//! of up to 256 subscribers by one frame, before the round's workers begin; a group that the file has no room for is no stop.
//!
//! Contracts see a [`Keeper`] as its journal and its pass. What a call answers and leaves is stated exactly; what holds
//! since the round began, whatever the calls were, is one record (`specs/Keeper`).
//!
//! Nothing here takes memory or waits. A call for a number up to its limit makes no call of the disk.
//! The tests stand in `auc_disk_tests`.
#![tactic(auto)]

mod keeper;

pub use keeper::{Ensured, Keeper, Prepared};
