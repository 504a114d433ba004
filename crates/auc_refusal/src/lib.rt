//! Why a run or a service is refused, and how that is told.
//!
//! A [`Refusal`] is a cause, with the place of what is wrong. It has one [`Status`], with which the run ends, and at most one
//! line: [`tell`] writes it to the output, and [`say_refusal`] says it on a service's wire. The other replies of a service are
//! said here too: [`reply_refusal`] for a block whose line is wrong, [`say_reply`] for one that was served, [`say_end`] for an
//! empty one, and [`reply_to_rest`] for one that the end of the input cuts off.
//!
//! `specs/Refusal` says which status and line a refusal has, `specs/Told` what is written if that fails or memory runs out,
//! `specs/Replies` what is replied, and `specs/Faults` how the counts of faults rise.
#![tactic(auto)]

mod refusal;
mod refusing;
mod replies;
mod status;

pub use refusal::Refusal;
pub use refusing::tell;
pub use replies::{last_line, reply_refusal, reply_to_rest, say_end, say_refusal, say_reply};
pub use status::Status;
