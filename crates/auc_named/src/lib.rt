//! Some of a round's subscribers by themselves.
//!
//! A round whose lines are plain is served over the subscribers that its lines name, so that it costs what they are and not what all are.
//! [`name`] gives each of them a place of its own, and [`Named::of_all`] says the round of all subscribers that was served so.
//! [`each_named_round_is_lawful`] is why that round is lawful. [`are_plain`] tests whether lines are plain.
//!
//! Contracts see a [`Named`] as the rows of its subscribers, their places among all, and the jobs over them. `specs/Named` has the
//! plain lines and the places. Nothing here goes over all subscribers, and each refusal is want of memory.
#![tactic(auto)]

mod law;
mod named;
mod of_all;
mod own_lines;
mod own_rows;
mod places;
mod plain;

pub use law::each_named_round_is_lawful;
pub use named::{Named, name};
pub use plain::are_plain;
