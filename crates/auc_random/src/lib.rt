//! Random bytes by stream and place, as the words of ChaCha20: the same key gives the same bytes again.
//!
//! [`Rands`] gives the RAND of a subscriber's number, the nonces and initialisation vectors of a session, and the bytes at
//! any place of any stream. [`RandStream`] gives the RANDs of one subscriber with one generator. [`index_after`] counts
//! the indices of a session's nonces.
//!
//! Contracts see a `Rands` as the 32 bytes of its key and a `RandStream` as key and subscriber; `specs/Random` says which
//! stream and place each value has. Nothing here takes memory, waits or fails. The tests stand in `auc_byte_tests`.
#![tactic(auto)]

mod indices;
mod rand_stream;
mod rands;

pub use indices::index_after;
pub use rand_stream::RandStream;
pub use rands::Rands;
