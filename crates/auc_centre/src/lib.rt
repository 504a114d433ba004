//! An authentication centre over the words that the workers of a round share.
//!
//! A [`Desk`] is a worker's [`Pass`](auc_draw::Pass), the [`Book`](auc_draw::Book) that the pass is of, and the lock of
//! the round's keeper. It is a [`Centre`](auc_vector::Centre): a draw (TS 33.102 §6.3.2) and a resynchronisation (TS
//! 33.102 §6.3.5) are one atomic step each on the subscriber's word, or none if the pass keeps a word of it. A drawn
//! number is then released, once it is at most its subscriber's limit, or withheld, once reservations have ended; until
//! then the keeper is asked to reserve it. A worker makes a desk to serve a job, and the desk ends before the worker
//! claims the next one.
//!
//! Contracts see of the calls at a desk what they added to what the pass did (`specs/Adds`). [`Naming`] names the table
//! of the round's words, so that a worker knows after a desk's end that its pass is still one of the book. [`RoundKeeper`] is
//! the keeper in its lock, and says what holds of it since the round began.
//!
//! Nothing here takes memory or can fail. A draw waits for the lock, and for the limit or the stop.
//! The tests stand in `auc_vector_tests`.
#![tactic(auto)]

mod desk;
mod kept;
mod naming;
mod settling;

pub use desk::Desk;
pub use kept::RoundKeeper;
pub use naming::Naming;
